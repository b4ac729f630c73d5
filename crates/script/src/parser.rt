ghost use Rattle.std.specs.Prelude.{◌≡◌, ◌<◌, [], slice_index_or, Option};
ghost use Rattle.std.specs.Fn.{FnOnceReturnsAt};
ghost use Rattle.std.specs.Option.{ok_or};
ghost use Rattle.script.specs.Fields.{fields};
ghost use Rattle.script.specs.Records.{meaning, fault_at, counted, settings_of, blocking_of, sync_of, parsed, opened};

use crate::faults::{FieldFault, RecordFault};
use crate::fields::{count_fields, field};
use crate::forms::{address, command, decimal, hexadecimal};
use crate::records::{Record, Transfer};
use protocol::Asked;
use std::cmp::Ordering;

// Field k after the letter, counted from 0, read by its form. The letter is field 1.
fn form_at<'a, T, F: FnOnce(&'a [u8]) -> Option<T>>(
    rest: &'a [u8],
    k: usize,
    form: F,
) -> Result<T, FieldFault>
    requires callable { F.IsAlwaysCallable form }
    requires bound { k < 16 }
    ensures { (read : Option T) × (FnOnceReturnsAt F.FnOnce form (slice_index_or (fields rest.now) k []) read × (result ≡ ok_or read (fault_at k))) }
{
    form(field(rest, k)).ok_or(FieldFault { field: k + 2 })
}

// No field is missing and none is surplus: n follow the letter.
fn expect_fields(rest: &[u8], n: usize) -> Result<(), RecordFault>
    requires { n < 16 }
    ensures { result ≡ counted n (fields rest.now) }
{
    let count = count_fields(rest);
    match count.cmp(&n) {
        Ordering::Less => Err(RecordFault::Missing(count + 2)),
        Ordering::Greater => Err(RecordFault::Surplus(n + 2)),
        Ordering::Equal => Ok(()),
    }
}

fn parse_settings(rest: &[u8]) -> Result<Record<'_>, RecordFault>
    ensures { meaning result ≡ settings_of (fields rest.now) }
{
    expect_fields(rest, 4)?;
    let ports = form_at(rest, 0, decimal)?;
    let accept = form_at(rest, 1, decimal)?;
    let quantum = form_at(rest, 2, decimal)?;
    let start = form_at(rest, 3, decimal)?;
    Ok(Record::Settings(Asked {
        ports,
        accept,
        quantum,
        start,
    }))
}

fn parse_blocking(rest: &[u8]) -> Result<Record<'_>, RecordFault>
    ensures { meaning result ≡ blocking_of (fields rest.now) }
{
    expect_fields(rest, 7)?;
    let port = form_at(rest, 0, decimal)?;
    let command = form_at(rest, 1, command)?;
    let address = form_at(rest, 2, address)?;
    let length = form_at(rest, 3, decimal)?;
    let width = form_at(rest, 4, decimal)?;
    let enables = form_at(rest, 5, hexadecimal)?;
    let data = form_at(rest, 6, hexadecimal)?;
    Ok(Record::Blocking(Transfer {
        port,
        command,
        address,
        length,
        width,
        enables,
        data,
    }))
}

fn parse_sync(rest: &[u8]) -> Result<Record<'_>, RecordFault>
    ensures { meaning result ≡ sync_of (fields rest.now) }
{
    expect_fields(rest, 1)?;
    let port = form_at(rest, 0, decimal)?;
    Ok(Record::Sync { port })
}

// The letter and its tab are told apart first; each record then reads its own fields.
fn parse_line(line: &[u8], first: bool) -> Result<Record<'_>, RecordFault>
    ensures { meaning result ≡ opened first line.now }
{
    match line {
        [b'P', b'\t', rest @ ..] if first => parse_settings(rest),
        [b'K', b'\t', rest @ ..] => parse_blocking(rest),
        [b'Y', b'\t', rest @ ..] => parse_sync(rest),
        [b'P'] if first => Err(RecordFault::Missing(2)),
        [b'K'] | [b'Y'] => Err(RecordFault::Missing(2)),
        _ => Err(RecordFault::UnknownLetter),
    }
}

// What a line says. Only the `first` of the input may hold the settings.
#[tactic(auto, using(crate::proofs::Openings::opened_parsed))]
pub fn parse(line: &[u8], first: bool) -> Result<Record<'_>, RecordFault>
    ensures { meaning result ≡ parsed first line.now }
{
    parse_line(line, first)
}
