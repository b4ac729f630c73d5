ghost use Rattle.std.specs.Prelude.{◌≡◌, ℕ, ◌+◌, ◌-◌, ◌*◌, ◌/◌, ◌%◌, ◌^◌, ◌<◌, ◌≤◌, min, Bool, length, take, drop};
ghost use Rattle.bus.specs.Laws.{Laws};
ghost use Rattle.bus.specs.Map.{judged};
ghost use Rattle.bus.specs.Payload.{access, judged_access, marks_from, found_from, written_from};
ghost use Rattle.bus.specs.Serve.{Serves};
ghost use Rattle.bus.specs.Answers.{Okay, outcome_of, status_of};
ghost use Rattle.bus.specs.declared.kinds.Command.TheVariants.{Read, Write};

use crate::kinds::{AccessError, Command};
use crate::payload::Payload;
use crate::span::Span;
use crate::target::Target;

// The bytes of beat k, as their first place and the place after their last.
fn beat(payload: &Payload, k: usize) -> (usize, usize)
    requires { k * payload.now.width < payload.now.length }
    ensures from { result.0 ≡ k * payload.now.width }
    ensures to { result.1 ≡ min (k * payload.now.width + payload.now.width) payload.now.length }
    ensures some { result.0 < result.1 }
    ensures within { result.1 ≤ payload.now.length }
{
    let from = k * payload.width;
    (from, (from + payload.width).min(payload.length))
}

// The span of a beat: each starts at the payload's address and has the marks of its own bytes.
fn beat_span<'a>(payload: &Payload, marks: &'a [bool], from: usize, to: usize) -> Span<'a>
    requires { (from < to) × (to ≤ length marks.now) × (to ≤ 64) }
    ensures start { result.start ≡ payload.now.address }
    ensures enabled { result.enabled.now ≡ take (to - from) (drop from marks.now) }
{
    Span {
        start: payload.address,
        enabled: &marks[from..to],
    }
}

// Reads a payload that is judged 1, beat by beat, each on its own part of the buffer. The beats are counted, since of a
// buffer that is lent out by `chunks_mut` a proof knows afterwards only how long it is.
fn read_beats<T: Target>(target: &mut T, payload: &Payload, buffer: &mut [u8]) -> u64
    requires length { length buffer.old ≡ payload.now.length }
    requires judged { judged (T.map target.old) Read payload.now.address (marks_from (access payload.now).enables 0 (min payload.now.width payload.now.length)) ≡ Okay }
    ensures bytes { buffer.new ≡ found_from 0 (access payload.now) (T.map target.old) buffer.old }
    ensures map { T.map target.new ≡ T.map target.old }
    ensures meter { T.meter target.new ≡ (T.meter target.old + result) % 2 ^ 64 }
    ensures delay { result ≤ 1000000 * ((payload.now.length - 1) / payload.now.width + 1) }
{
    let marks = payload.marks();
    let mut delay = 0;
    for k in 0..payload.beats() {
        let (from, to) = beat(payload, k);
        let span = beat_span(payload, &marks, from, to);
        delay += target.read(span, &mut buffer[from..to]).unwrap();
    }
    delay
}

// Writes a payload that is judged 1, beat by beat, each with its own part of the data, and counted like those of a READ.
// One function for both would be no shorter: it would need a type for a buffer that is lent and one for data that is
// shown, and a clause for each.
fn write_beats<T: Target>(target: &mut T, payload: &Payload, bytes: &[u8]) -> u64
    requires length { length bytes.now ≡ payload.now.length }
    requires judged { judged (T.map target.old) Write payload.now.address (marks_from (access payload.now).enables 0 (min payload.now.width payload.now.length)) ≡ Okay }
    ensures map { T.map target.new ≡ written_from 0 (access payload.now) bytes.now (T.map target.old) }
    ensures meter { T.meter target.new ≡ (T.meter target.old + result) % 2 ^ 64 }
    ensures delay { result ≤ 1000000 * ((payload.now.length - 1) / payload.now.width + 1) }
{
    let marks = payload.marks();
    let mut delay = 0;
    for k in 0..payload.beats() {
        let (from, to) = beat(payload, k);
        let span = beat_span(payload, &marks, from, to);
        delay += target.write(span, &bytes[from..to]).unwrap();
    }
    delay
}

// How a payload is judged, over the bytes that it reaches.
fn judge_payload<T: Target>(target: &T, payload: &Payload) -> Result<(), AccessError>
    ensures { status_of result ≡ judged_access (T.map target.now) (access payload.now) }
{
    let marks = payload.marks();
    let span = Span {
        start: payload.address,
        enabled: &marks[0..payload.reach()],
    };
    target.judge(payload.command, span)
}

// Serves a payload, and answers the delay: it is judged once, and with status 1 its beats move their bytes in
// ascending order. An IGNORE is only judged. What is judged, filled and written obeys the laws.
#[tactic(auto, using(crate::proofs::Laws::laws))]
pub fn serve<T: Target>(
    target: &mut T,
    payload: &Payload,
    buffer: &mut [u8],
) -> Result<u64, AccessError>
    ensures laws { Laws }
    ensures serves { Serves (T.map target.old) (T.meter target.old) (access payload.now) buffer.old (outcome_of result) buffer.new (T.map target.new) (T.meter target.new) }
{
    if buffer.len() != payload.length {
        return Err(AccessError::WrongLength);
    }
    judge_payload(target, payload)?;
    Ok(match payload.command {
        Command::Read => read_beats(target, payload, buffer),
        Command::Write => write_beats(target, payload, buffer),
        Command::Ignore => 0,
    })
}
