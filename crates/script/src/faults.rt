ghost use Rattle.std.specs.Prelude.{◌≡◌};
ghost use Rattle.script.specs.declared.faults.PlayerFault.TheVariants.{Record};
ghost use Rattle.script.specs.declared.faults.RecordFault.TheVariants.{Field};

// A field that is not of its form. The letter is field 1.
#[derive(Clone, Copy, Debug, PartialEq, Eq)]
pub struct FieldFault {
    pub field: usize,
}

// What is wrong with a line of a length that is read.
#[derive(Clone, Copy, Debug, PartialEq, Eq)]
pub enum RecordFault {
    UnknownLetter,
    Missing(usize),
    Surplus(usize),
    Field(FieldFault),
}

// Why a line is answered with BAD.
#[derive(Clone, Copy, Debug, PartialEq, Eq)]
pub enum PlayerFault {
    TooLong,
    Record(RecordFault),
}

impl From<FieldFault> for RecordFault {
    ghost from_gives = { λ e r. r ≡ Field e };

    fn from(e: FieldFault) -> RecordFault {
        RecordFault::Field(e)
    }
}

impl From<RecordFault> for PlayerFault {
    ghost from_gives = { λ e r. r ≡ Record e };

    fn from(e: RecordFault) -> PlayerFault {
        PlayerFault::Record(e)
    }
}
