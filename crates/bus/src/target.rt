ghost use Rattle.std.specs.Prelude.{◌≡◌, ℕ, ◌^◌, ◌≤◌, length, None, OnOk};
ghost use Rattle.bus.specs.Answers.{Okay, status_of, outcome_of};
ghost use Rattle.bus.specs.Map.{AddressMap, judged};
ghost use Rattle.bus.specs.Target.{ReadAs, WrittenAs, status_over};

use crate::kinds::{AccessError, Command};
use crate::span::Span;

// A target means an address map and a meter, nothing else.
pub trait Target {
    // for each address the byte that is present there, if one is
    ghost map: { Self → AddressMap };

    // the total delay answered since the target was made, modulo 2^64
    ghost meter: { Self → ℕ };

    fn judge(&self, command: Command, span: Span<'_>) -> Result<(), AccessError>
        ensures { status_of result ≡ judged (map self.now) command span.entry.start span.entry.enabled.now };

    // What each access asks first: whether the bytes are of the span's length, and how the target judges the span.
    fn admit(&self, command: Command, span: Span<'_>, bytes: &[u8]) -> Result<(), AccessError>
        ensures status { status_of result ≡ status_over (map self.now) command span.entry.start span.entry.enabled.now bytes.now }
        ensures sized { OnOk result (length bytes.now ≡ length span.entry.enabled.now) }
        ensures judged { OnOk result (judged (map self.now) command span.entry.start span.entry.enabled.now ≡ Okay) }
    {
        if bytes.len() != span.enabled.len() {
            return Err(AccessError::WrongLength);
        }
        self.judge(command, span)
    }

    // Answers the delay, in nanoseconds.
    fn read(&mut self, span: Span<'_>, buffer: &mut [u8]) -> Result<u64, AccessError>
        ensures { ReadAs (map self.old) (meter self.old) span.entry.start span.entry.enabled.now buffer.old (outcome_of result) buffer.new (map self.new) (meter self.new) };

    fn write(&mut self, span: Span<'_>, data: &[u8]) -> Result<u64, AccessError>
        ensures { WrittenAs (map self.old) (meter self.old) span.entry.start span.entry.enabled.now «data».now (outcome_of result) (map self.new) (meter self.new) };

    fn meter(&self) -> u64
        ensures { result ≡ meter self.now };

    // no address from 2^32 up is present
    ghost bounded: { (s : Self) (a : ℕ) → 2 ^ 32 ≤ a → map s a ≡ None };
}
