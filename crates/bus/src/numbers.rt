ghost use Rattle.std.specs.Prelude.{◌≡◌, MatchResult, Some, None};
ghost use Rattle.bus.specs.Answers.{error_status, status_of};
ghost use Rattle.bus.specs.Numbers.{command_number, numbered, status_number, refusal_number, worse};
ghost use Rattle.bus.specs.declared.kinds.Refusal.TheVariants.{BadCommand};

use crate::kinds::{AccessError, Command, Refusal};

impl TryFrom<u8> for Command {
    type Error = Refusal;

    ghost try_from_gives = { λ number r. MatchResult r (λ command. numbered number ≡ Some command) (λ e. (numbered number ≡ None) × (e ≡ BadCommand)) };

    fn try_from(number: u8) -> Result<Command, Refusal> {
        match number {
            0 => Ok(Command::Read),
            1 => Ok(Command::Write),
            2 => Ok(Command::Ignore),
            _ => Err(Refusal::BadCommand),
        }
    }
}

impl From<AccessError> for i32 {
    ghost from_gives = { λ e n. n ≡ status_number (error_status e) };

    fn from(error: AccessError) -> i32 {
        match error {
            AccessError::AbsentByte => -2,
            AccessError::MissingRight => -3,
            AccessError::WrongLength => -1,
        }
    }
}

impl From<Refusal> for u8 {
    ghost from_gives = { λ e n. n ≡ refusal_number e };

    fn from(refusal: Refusal) -> u8 {
        match refusal {
            Refusal::UnknownPort => 1,
            Refusal::UnknownTag => 2,
            Refusal::BadCommand => 3,
            Refusal::BadLength => 4,
            Refusal::BadWidth => 5,
            Refusal::BadEnables => 6,
            Refusal::WrongDataLength => 7,
            Refusal::TagInUse => 8,
            Refusal::RequestOpen => 9,
            Refusal::TooLate => 10,
            Refusal::PastSyncPoint => 11,
            Refusal::NoOpenResponse => 12,
            Refusal::ShortBuffer => 13,
            Refusal::EventBeforeSync => 14,
            Refusal::BadSettings => 15,
            Refusal::PhaseNotReached => 16,
        }
    }
}

// The standard's number of what a target answers.
pub fn status_number(answer: Result<(), AccessError>) -> i32
    ensures { result ≡ status_number (status_of answer) }
{
    match answer {
        Ok(()) => 1,
        Err(error) => i32::from(error),
    }
}

// What a whole answers whose parts answer these two: an absent byte goes before a missing right.
pub fn worse(
    first: Result<(), AccessError>,
    second: Result<(), AccessError>,
) -> Result<(), AccessError>
    ensures { status_of result ≡ worse (status_of first) (status_of second) }
{
    match (first, second) {
        (Ok(()), _) => second,
        (Err(AccessError::MissingRight), Err(AccessError::AbsentByte)) => second,
        (_, _) => first,
    }
}
