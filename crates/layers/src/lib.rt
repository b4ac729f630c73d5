#![tactic(auto)]

mod below;
mod bridge;
mod cache;
mod growth;
mod lend;
mod line;
mod lines;
mod pieces;
mod router;
mod routing;
mod sides;

pub use bridge::Bridge;
pub use cache::Cache;
pub use router::Router;
