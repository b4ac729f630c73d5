#![tactic(auto)]

mod answers;
mod blocking;
mod calls;
mod interconnect;
mod player;
mod streaming;

pub use player::{Player, Taken};
