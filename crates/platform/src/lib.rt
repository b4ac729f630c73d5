#![tactic(auto)]

mod answers;
mod platform;
mod port;

pub use answers::Blocked;
pub use platform::Platform;
