ghost use Rattle.std.specs.Prelude.{◌≡◌, ℕ, ◌+◌, ◌-◌, ◌*◌, ◌/◌, ◌<◌, ◌≤◌, min, Bool, length, take, Some, None, MatchResult, ◌==◌};
ghost use Rattle.bus.specs.Payload.{raw, access, idle_access, ill_made, access_of, is_enable, only_enables, enabled_at, marks_from};

use crate::fields::Fields;
use crate::kinds::{Command, Refusal};
use crate::payload::Payload;
use std::array;

fn is_enable(byte: u8) -> bool
    ensures { result ≡ is_enable byte }
{
    byte == 0x00 || byte == 0xFF
}

// Whether an enable byte enables its bytes.
fn is_set(enable: u8) -> bool
    ensures { result ≡ (enable == 255) }
{
    enable == 0xFF
}

// Whether each byte is an enable.
fn only_enables(bytes: &[u8]) -> bool
    ensures { result ≡ only_enables bytes.now }
{
    bytes.iter().all(|byte| is_enable(*byte))
}

// The bytes, and zeros after them.
fn padded(bytes: &[u8]) -> [u8; 64]
    requires { length bytes.now ≤ 64 }
    ensures { take (length bytes.now) result ≡ bytes.now }
{
    let mut all = [0; 64];
    all[0..bytes.len()].copy_from_slice(bytes);
    all
}

// The payload of the fields, or the first of the refusals 3, 4, 5 and 6 that they earn.
impl TryFrom<Fields<'_>> for Payload {
    type Error = Refusal;

    ghost try_from_gives = { λ fields r. MatchResult r (λ p. (ill_made (raw fields) ≡ None) × (access p ≡ access_of (raw fields))) (λ e. ill_made (raw fields) ≡ Some e) };

    fn try_from(fields: Fields<'_>) -> Result<Payload, Refusal> {
        let command = Command::try_from(fields.command)?;
        if fields.length == 0 || fields.length > 64 {
            return Err(Refusal::BadLength);
        }
        if fields.width == 0 || fields.width > 4_294_967_295 {
            return Err(Refusal::BadWidth);
        }
        if fields.enables.len() > 64 || !only_enables(fields.enables) {
            return Err(Refusal::BadEnables);
        }
        Ok(Payload {
            command,
            address: fields.address,
            length: fields.length as usize,
            width: fields.width as usize,
            count: fields.enables.len(),
            enables: padded(fields.enables),
        })
    }
}

impl Payload {
    // A payload that only has its address judged: what stands where none is asked for yet.
    pub fn idle() -> Payload
        ensures { access result ≡ idle_access }
    {
        Payload {
            command: Command::Ignore,
            address: 0,
            length: 1,
            width: 1,
            count: 0,
            enables: [0; 64],
        }
    }

    pub fn command(&self) -> Command
        ensures { result ≡ (access self.now).command }
    {
        self.command
    }

    // How many bytes it moves: 1 to 64.
    pub fn length(&self) -> usize
        ensures { result ≡ (access self.now).length }
    {
        self.length // in bytes
    }

    // Whether byte i is enabled.
    pub fn enabled(&self, i: usize) -> bool
        ensures { result ≡ enabled_at (access self.now).enables i }
    {
        self.count == 0 || is_set(self.enables[i % self.count])
    }

    // Which of the first 64 bytes are enabled.
    pub(crate) fn marks(&self) -> [bool; 64]
        ensures { result ≡ marks_from (access self.now).enables 0 64 }
    {
        array::from_fn(|i| self.enabled(i))
    }

    // How many bytes from its address on a payload reaches.
    pub(crate) fn reach(&self) -> usize
        ensures { result ≡ min self.now.width self.now.length }
    {
        self.width.min(self.length)
    }

    // How many beats move its bytes.
    pub(crate) fn beats(&self) -> usize
        ensures { result ≡ (self.now.length - 1) / self.now.width + 1 }
    {
        (self.length - 1) / self.width + 1
    }
}
