#![tactic(auto)]

// The events that wait for a step, in the order queued.
mod full;
mod queue;

pub use full::Full;
pub use queue::Queue;
