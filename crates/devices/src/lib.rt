#![tactic(auto)]

// Targets with bytes of their own: a scratchpad, a ROM and a register bank.
mod at_most;
mod bank;
mod contents;
mod device;
mod rom;
mod row;
mod scratchpad;

pub use bank::Bank;
pub use bus::Meter;
pub use rom::{Image, Rom};
pub use row::Row;
pub use scratchpad::Scratchpad;
