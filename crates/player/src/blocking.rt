ghost use Rattle.std.specs.Prelude.{◌≡◌, ◌≤◌, ◌&&◌, replicate, if◌then◌else◌, Some, None, nat_eq};
ghost use Rattle.std.specs.Option.{option_map};
ghost use Rattle.bus.specs.Answers.{status_of};
ghost use Rattle.bus.specs.Numbers.{is_okay};
ghost use Rattle.platform.specs.States.{blocking_answer};
ghost use Rattle.response.specs.Lines.{seen};
ghost use Rattle.response.specs.Texts.{text};
ghost use Rattle.script.specs.Forms.{bytes_of};
ghost use Rattle.player.specs.Start.{state_of};
ghost use Rattle.player.specs.Answers.{CallAnswered, blocking_call, blocking_line, buffer_for, Printed};

use crate::interconnect::Interconnect;
use arrayvec::ArrayVec;
use bus::{AccessError, Command, Fields, Refusal};
use platform::{Blocked, Platform};
use response::{Response, Text};
use script::{Transfer, decode};

fn zeros(count: usize) -> ArrayVec<u8, 128>
    requires { count ≤ 128 }
    ensures { result.items ≡ replicate count 0 }
{
    let mut zeros = ArrayVec::from([0; 128]);
    zeros.truncate(count);
    zeros
}

// The buffer of a call: a WRITE's data, else zeros. Data that may not come leaves it empty, which is refused.
fn buffer_for(call: Transfer<'_>) -> ArrayVec<u8, 128>
    ensures { result.items ≡ buffer_for call.entry.command call.entry.length (bytes_of call.entry.«data».now) }
{
    let bytes = decode(call.data);
    match Command::try_from(call.command) {
        Ok(Command::Write) => bytes,
        _ if bytes.is_empty() => zeros(call.length.min(64) as usize),
        _ => ArrayVec::new(),
    }
}

// A READ of status 1 shows its bytes. The command is the number that the line gives, which the call may have refused.
fn shown_data(command: u8, status: Result<(), AccessError>, buffer: &[u8]) -> Option<&[u8]>
    ensures { option_map (λ x. x.now) result ≡ (if nat_eq command 0 && is_okay (status_of status) then Some buffer.now else None) }
{
    match (Command::try_from(command), status) {
        (Ok(Command::Read), Ok(())) => Some(buffer),
        _ => None,
    }
}

// What a call came to. The command is that number too.
fn respond(port: u64, command: u8, answer: Result<Blocked, Refusal>, buffer: &[u8]) -> Response<'_>
    ensures { seen result ≡ blocking_line port command (blocking_answer answer buffer.now) }
{
    match answer {
        Ok(blocked) => Response::Done {
            port,
            local: blocked.local,
            status: blocked.status,
            data: shown_data(command, blocked.status, buffer),
        },
        Err(refusal) => Response::No(refusal),
    }
}

// A K line: makes the call and writes its answer.
pub(crate) fn block(platform: &mut Platform<Interconnect>, call: Transfer<'_>, out: &mut Text)
    ensures { Printed (text out.new) (λ l. CallAnswered (blocking_call call.entry.port call.entry.command call.entry.address call.entry.length call.entry.width call.entry.enables.now call.entry.«data».now) (blocking_line call.entry.port call.entry.command) (state_of platform.old) l (state_of platform.new)) }
{
    let enables = decode(call.enables);
    let mut buffer = buffer_for(call);
    let fields = Fields {
        command: call.command,
        address: call.address,
        length: call.length,
        width: call.width,
        enables: enables.as_slice(),
    };
    let answer = platform.blocking(call.port, fields, buffer.as_mut_slice());
    respond(call.port, call.command, answer, buffer.as_slice()).print(out);
}
