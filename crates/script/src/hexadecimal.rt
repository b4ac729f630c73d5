// Hexadecimal digits as bytes.
ghost use Rattle.std.specs.Prelude.{◌≡◌, ◌<◌, take};
ghost use Rattle.script.specs.Forms.{nibble, byte_of, bytes_of, IsShort};

use arrayvec::ArrayVec;

fn nibble(digit: u8) -> u8
    ensures value { result ≡ nibble digit }
    ensures small { result < 16 }
{
    char::from(digit)
        .to_digit(16)
        .map_or(0, |value| value as u8)
}

fn byte_of(high: u8, low: u8) -> u8
    ensures { result ≡ byte_of high low }
{
    nibble(high) * 16 + nibble(low)
}

// The bytes of the first 256 digits. Not by the library's `hex`, which stops at what is no digit and at a half byte; nor by
// `collect`, which may fail.
pub fn decode(digits: &[u8]) -> ArrayVec<u8, 128>
    ensures bytes { result.items ≡ bytes_of (take 256 digits.now) }
    ensures whole { IsShort digits.now → result.items ≡ bytes_of digits.now }
{
    let mut bytes = ArrayVec::new();
    for pair in digits.chunks_exact(2).take(128) {
        bytes.push(byte_of(pair[0], pair[1]));
    }
    bytes
}
