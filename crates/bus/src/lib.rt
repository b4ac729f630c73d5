#![tactic(auto)]

mod fields;
mod kinds;
mod meter;
mod numbers;
mod payload;
mod payloads;
mod serving;
mod span;
mod target;

pub use fields::Fields;
pub use kinds::{AccessError, Command, Refusal};
pub use meter::Meter;
pub use numbers::{status_number, worse};
pub use payload::Payload;
pub use serving::serve;
pub use span::Span;
pub use target::Target;
