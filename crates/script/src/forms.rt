// The forms of fields.
ghost use Rattle.std.specs.Prelude.{◌≡◌, ◌^◌, ◌<◌, ◌≤◌, IfSome};
ghost use Rattle.script.specs.Forms.{all_digits, numeral, decimal_of, address_of, command_of, hex_of, held};

// The number of 1 to `most` digits.
fn read_number(field: &[u8], radix: u32, most: usize) -> Option<u64>
    requires { (2 ≤ radix) × (radix ≤ 16) × (most ≤ 15) }
    ensures value { result ≡ numeral radix most field.now }
    ensures bound { IfSome result (λ n. n < radix ^ most) }
{
    if field.is_empty() || field.len() > most {
        return None;
    }
    let mut n: u64 = 0;
    // A loop: the closure of a `try_fold` would need a clause that bounds the number so far, or sums that are checked
    // though none can fail.
    for b in field {
        let digit = char::from(*b).to_digit(radix)?;
        n = n * u64::from(radix) + u64::from(digit);
    }
    Some(n)
}

pub fn decimal(field: &[u8]) -> Option<u64>
    ensures { result ≡ decimal_of field.now }
{
    read_number(field, 10, 13)
}

pub fn address(field: &[u8]) -> Option<u32>
    ensures { result ≡ address_of field.now }
{
    read_number(field, 16, 8).map(|n| n as u32)
}

// Any single byte is a command; those without a letter of their own are command 3.
pub fn command(field: &[u8]) -> Option<u8>
    ensures { result ≡ command_of field.now }
{
    match field {
        [b'R'] => Some(0),
        [b'W'] => Some(1),
        [b'I'] => Some(2),
        [_] => Some(3),
        _ => None,
    }
}

fn all_hexadecimal(field: &[u8]) -> bool
    ensures { result ≡ all_digits 16 field.now }
{
    field.iter().all(|b| char::from(*b).is_digit(16))
}

// The digits of a field, as a part of the line: none for '-'.
pub fn hexadecimal(field: &[u8]) -> Option<&[u8]>
    ensures { held result ≡ hex_of field.now }
{
    match field {
        [b'-'] => Some(&[]),
        [] => None,
        _ if field.len() <= 256 && field.len() % 2 == 0 && all_hexadecimal(field) => Some(field),
        _ => None,
    }
}
