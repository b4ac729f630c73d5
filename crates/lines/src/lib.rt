#![tactic(auto)]

mod buffer;
mod ends;

pub use buffer::LineBuffer;
pub use ends::first_line_end;
