ghost use Rattle.std.specs.Prelude.{◌≡◌, ◌<◌, ◌≤◌, ◌++◌, length};
ghost use Rattle.std.specs.Option.{option_map};
ghost use Rattle.std.specs.Fmt.{signed_decimal};
ghost use Rattle.bus.specs.Answers.{status_of};
ghost use Rattle.bus.specs.Numbers.{status_number};
ghost use Rattle.response.specs.Lines.{tab, data_shown, ShortData};
ghost use Rattle.response.specs.Texts.{text, onto, hex_digit, hex_digits};

use crate::text::Text;
use bus::{AccessError, status_number};
use itoa::{Buffer, Integer};

fn start_field(out: &mut Text)
    ensures { text out.new ≡ onto (text out.old) tab }
{
    out.push_byte(b'\t');
}

// TAB and the number, in decimal.
pub(crate) fn number_field<N: Integer>(out: &mut Text, n: N)
    ensures text { text out.new ≡ onto (text out.old) (tab ++ N.text n) }
    ensures short { length (N.text n) ≤ N.MAX_STR_LEN }
{
    start_field(out);
    out.push(Buffer::new().format(n).as_bytes());
}

// TAB and the status's number.
pub(crate) fn status_field(out: &mut Text, status: Result<(), AccessError>)
    ensures text { text out.new ≡ onto (text out.old) (tab ++ signed_decimal (status_number (status_of status))) }
    ensures short { length (signed_decimal (status_number (status_of status))) ≤ 11 }
{
    number_field(out, status_number(status));
}

// The upper-case digit of a number below 16, which crate `hex` gives only in an allocated string.
fn hex_digit(n: u8) -> u8
    requires { n < 16 }
    ensures { result ≡ hex_digit n }
{
    if n < 10 { b'0' + n } else { b'A' + (n - 10) }
}

// TAB and the bytes, in hexadecimal.
fn hex_field(out: &mut Text, bytes: &[u8])
    ensures { text out.new ≡ onto (text out.old) (tab ++ hex_digits bytes.now) }
{
    start_field(out);
    for byte in bytes {
        out.push_byte(hex_digit(byte / 16));
        out.push_byte(hex_digit(byte % 16));
    }
}

// TAB and the data, or `-` where there is none.
#[tactic(auto, using(crate::proofs::Hex::length_hex))]
pub(crate) fn data_field(out: &mut Text, bytes: Option<&[u8]>)
    ensures text { text out.new ≡ onto (text out.old) (tab ++ data_shown (option_map (λ s. s.now) bytes.entry)) }
    ensures short { ShortData (option_map (λ s. s.now) bytes.entry)
        → length (data_shown (option_map (λ s. s.now) bytes.entry)) ≤ 128 }
{
    match bytes {
        Some(bytes) => hex_field(out, bytes),
        None => out.push(b"\t-"),
    }
}
