ghost use Rattle.std.specs.Prelude.{◌≡◌};
ghost use Rattle.protocol.specs.Settings.{plainly, settled};

use crate::settings::{Asked, Settings};
use bus::Refusal;

// The settings, or refusal 15 where one is out of range.
impl TryFrom<Asked> for Settings {
    type Error = Refusal;

    ghost try_from_gives = { λ asked result. plainly result ≡ settled asked };

    fn try_from(asked: Asked) -> Result<Settings, Refusal> {
        let Asked {
            ports,
            accept,
            quantum,
            start,
        } = asked;
        if ports == 0 || ports > 8 || accept > 1_000 {
            return Err(Refusal::BadSettings);
        }
        if quantum == 0 || quantum > 1_000_000 || start > 1_099_511_627_776 {
            return Err(Refusal::BadSettings);
        }
        Ok(Settings {
            ports,
            accept,
            quantum,
            start,
        })
    }
}
