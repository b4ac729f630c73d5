ghost use Rattle.std.specs.Prelude.{◌≡◌, ℕ, ◌≤◌, length, IfOk, ◌==◌};
ghost use Rattle.std.specs.Option.{option_map};
ghost use Rattle.response.specs.Lines.{seen, bad_line};
ghost use Rattle.response.specs.Texts.{text};
ghost use Rattle.script.specs.Records.{said};
ghost use Rattle.player.specs.Start.{state_of};
ghost use Rattle.player.specs.Answers.{Printed, CallAnswered, SaidAnswered, ReadAnswered, blocking_call, blocking_line, said_of, read_of};

use crate::blocking::block;
use crate::calls::{set_up, synchronize};
use crate::interconnect::Interconnect;
use platform::Platform;
use response::{Response, Text};
use script::{PlayerFault, Record, parse};

// What a line says, or its fault. A line that is too long is not there to be read.
fn read_line(line: Option<&[u8]>, first: bool) -> Result<Record<'_>, PlayerFault>
    ensures { said_of result ≡ read_of first (option_map (λ x. x.now) line.entry) }
{
    match line {
        Some(line) => Ok(parse(line, first)?),
        None => Err(PlayerFault::TooLong),
    }
}

// The platform is the player's and the text its caller's, so they stay two parameters.
fn answer_record(platform: &mut Platform<Interconnect>, record: Record<'_>, out: &mut Text)
    ensures { Printed (text out.new) (λ l. SaidAnswered (said «record».entry) (state_of platform.old) l (state_of platform.new)) }
{
    match record {
        Record::Settings(asked) => set_up(platform, asked).print(out),
        Record::Blocking(call) => block(platform, call, out),
        Record::Sync { port } => synchronize(platform, port).print(out),
    }
}

fn report(line: u64, fault: PlayerFault) -> Response<'static>
    ensures { seen result ≡ bad_line line fault }
{
    Response::Bad { line, fault }
}

// Answers the line of that number.
pub(crate) fn answer_line(
    platform: &mut Platform<Interconnect>,
    number: u64,
    line: Option<&[u8]>,
    out: &mut Text,
)
    ensures { Printed (text out.new) (λ l. ReadAnswered number (read_of (number == 1) (option_map (λ x. x.now) line.entry)) (state_of platform.old) l (state_of platform.new)) }
{
    match read_line(line, number == 1) {
        Ok(record) => answer_record(platform, record, out),
        Err(fault) => report(number, fault).print(out),
    }
}
