ghost use Rattle.std.specs.Prelude.{◌≡◌};
ghost use Rattle.protocol.specs.Numbers.{progress_number};

use crate::events::Progress;

impl From<Progress> for u8 {
    ghost from_gives = { λ progress number. number ≡ progress_number progress };

    fn from(progress: Progress) -> u8 {
        match progress {
            Progress::Accepted => 0,
            Progress::Completed => 2,
        }
    }
}
