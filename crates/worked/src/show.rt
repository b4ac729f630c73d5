ghost use Rattle.std.specs.Prelude.{◌≡◌, ◌≤◌, min, max};

use crate::accesses::Access;
use bus::{AccessError, Command, Span, Target, status_number};
use std::{array, io};

// The marks of 64 bytes, by a pattern of four.
fn marks_of(pattern: [bool; 4]) -> [bool; 64] {
    array::from_fn(|i| pattern[i % 4])
}

// Data that counts up from a first byte.
fn data_from(first: u8) -> [u8; 64] {
    array::from_fn(|i| first.wrapping_add(i as u8))
}

// How many bytes a span can have.
fn within_span(count: usize) -> usize
    ensures value { result ≡ min (max count 1) 64 }
    ensures range { (1 ≤ result) × (result ≤ 64) }
{
    count.clamp(1, 64)
}

// What an access costs, or why it is not served. What is only judged costs nothing. By a `match`, and no table of calls,
// since the three take different arguments.
fn run<T: Target>(
    target: &mut T,
    command: Command,
    span: Span<'_>,
    buffer: &mut [u8],
) -> Result<u64, AccessError> {
    match command {
        Command::Read => target.read(span, buffer),
        Command::Write => target.write(span, buffer),
        Command::Ignore => target.judge(command, span).map(|()| 0),
    }
}

// The words of the table, where an IGNORE is a judgment.
fn letter(command: Command) -> &'static str {
    match command {
        Command::Read => "read",
        Command::Write => "write",
        Command::Ignore => "judge",
    }
}

// Runs one access and prints what came of it: status, delay, meter and the buffer.
fn show_run<T: Target>(
    rt: &HostRuntime,
    target: &mut T,
    command: Command,
    span: Span<'_>,
    buffer: &mut [u8],
) -> io::Result<()> {
    let (word, start, count) = (letter(command), span.start, span.enabled.len());
    let answer = run(target, command, span, buffer);
    let (status, delay) = (status_number(answer.map(|_| ())), answer.unwrap_or(0));
    let meter = target.meter();
    print!(rt; "{word} {start:x} {count}: {status} {delay} {meter} ")?;
    for byte in buffer.iter() {
        let byte = *byte;
        print!(rt; "{byte:02x}")?;
    }
    println!(rt; "")
}

fn show<T: Target>(rt: &HostRuntime, target: &mut T, access: Access) -> io::Result<()> {
    let marks = marks_of(access.pattern);
    let mut bytes = data_from(access.first);
    let count = within_span(access.count);
    let given = access.given.min(64);
    let span = Span {
        start: access.start,
        enabled: &marks[0..count],
    };
    show_run(rt, target, access.command, span, &mut bytes[0..given])
}

// Runs a table of accesses on a target, one after another.
pub(crate) fn show_all<T: Target>(
    rt: &HostRuntime,
    name: &str,
    target: &mut T,
    accesses: &[Access],
) -> io::Result<()> {
    println!(rt; "{name}")?;
    for access in accesses {
        show(rt, target, *access)?;
    }
    Ok(())
}
