ghost use Rattle.std.specs.Prelude.{◌≡◌};
ghost use Rattle.script.specs.Faults.{field_of, cause_of};

use crate::faults::{PlayerFault, RecordFault};

// A fault has two numbers, so neither is a `From`.
impl PlayerFault {
    // The field that BAD names: 0 is the whole line, 1 the letter.
    pub fn field(self) -> usize
        ensures { result ≡ field_of self }
    {
        match self {
            PlayerFault::TooLong => 0,
            PlayerFault::Record(RecordFault::UnknownLetter) => 1,
            PlayerFault::Record(RecordFault::Missing(field) | RecordFault::Surplus(field)) => field,
            PlayerFault::Record(RecordFault::Field(fault)) => fault.field,
        }
    }

    // The cause that BAD names. There is no cause 5.
    pub fn cause(self) -> usize
        ensures { result ≡ cause_of self }
    {
        match self {
            PlayerFault::TooLong => 6,
            PlayerFault::Record(RecordFault::UnknownLetter) => 1,
            PlayerFault::Record(RecordFault::Missing(_)) => 2,
            PlayerFault::Record(RecordFault::Surplus(_)) => 3,
            PlayerFault::Record(RecordFault::Field(_)) => 4,
        }
    }
}
