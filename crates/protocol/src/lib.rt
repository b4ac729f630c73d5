#![tactic(auto)]

mod events;
mod making;
mod numbers;
mod settings;

pub use events::{Event, EventKind, Progress};
pub use settings::{Asked, Settings};
