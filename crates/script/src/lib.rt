#![tactic(auto)]

// Reads the lines of a script: a record each, or what is wrong with the line.
mod fault_numbers;
mod faults;
mod fields;
mod forms;
mod hexadecimal;
mod parser;
mod records;

pub use faults::{FieldFault, PlayerFault, RecordFault};
pub use hexadecimal::decode;
pub use parser::parse;
pub use records::{Record, Transfer};
