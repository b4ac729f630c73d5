#![tactic(auto)]

mod fields;
mod response;
mod text;

pub use response::Response;
pub use text::Text;
