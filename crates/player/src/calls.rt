ghost use Rattle.std.specs.Prelude.{◌≡◌};
ghost use Rattle.protocol.specs.Runs.{sync};
ghost use Rattle.response.specs.Lines.{seen, Short};
ghost use Rattle.player.specs.Start.{state_of};
ghost use Rattle.player.specs.Answers.{SettingsAnswered, CallAnswered, sync_line};

use crate::interconnect::{Interconnect, interconnect};
use platform::Platform;
use protocol::{Asked, Settings};
use response::Response;

// A P line: a new platform in the place of the one at hand, unless the settings are refused.
pub(crate) fn set_up(platform: &mut Platform<Interconnect>, asked: Asked) -> Response<'static>
    ensures short { Short (seen result) }
    ensures answer { SettingsAnswered asked (state_of platform.old) (seen result) (state_of platform.new) }
{
    match Settings::try_from(asked) {
        Ok(settings) => {
            *platform = Platform::new(settings, interconnect());
            Response::Set
        }
        Err(refusal) => Response::No(refusal),
    }
}

// A Y line.
pub(crate) fn synchronize(platform: &mut Platform<Interconnect>, port: u64) -> Response<'static>
    ensures short { Short (seen result) }
    ensures answer { CallAnswered (sync port) (sync_line port) (state_of platform.old) (seen result) (state_of platform.new) }
{
    match platform.sync(port) {
        Ok(now) => Response::Sync { port, now },
        Err(refusal) => Response::No(refusal),
    }
}
