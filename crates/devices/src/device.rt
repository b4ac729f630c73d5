ghost use Rattle.std.specs.Prelude.{◌≡◌, ◌+◌, ◌≤◌, length, Some, OnOk};
ghost use Rattle.bus.specs.Answers.{Okay, outcome_of, status_of};
ghost use Rattle.bus.specs.Delay.{limited};
ghost use Rattle.std.specs.List.{list_all};
ghost use Rattle.bus.specs.Map.{allowed, filled, judged, written};
ghost use Rattle.bus.specs.Target.{ReadAs, WrittenAs, status_over};
ghost use Rattle.bus.specs.declared.kinds.Command.TheVariants.{Write};
ghost use Rattle.devices.specs.Outcomes.{Charged};

use crate::contents::Contents;
use bus::{AccessError, Command, Meter, Span, Target};

// A target that serves what it holds, each access at the same latency.
#[derive(Drop)]
pub struct Device<C> {
    pub(crate) contents: C,
    pub(crate) meter: Meter,
}

impl<C: Contents> Device<C> {
    pub(crate) fn holding(contents: C, latency: u64) -> Device<C>
        ensures map { C.map result.contents ≡ C.map contents }
        ensures meter { result.meter.spent ≡ 0 }
        ensures latency { result.meter.rate ≡ limited latency }
    {
        Device {
            contents,
            meter: Meter::new(latency),
        }
    }
}

// Whether a command may touch each of the bytes.
fn allow<C: Contents>(items: &[C::Item], command: Command) -> bool
    ensures { result ≡ list_all (λ item. allowed command (Some (C.cell item))) items.now }
{
    items.iter().all(|item| C::allows(*item, command))
}

// Reads the span into the buffer.
fn fill<C: Contents>(contents: &C, span: Span<'_>, buffer: &mut [u8])
    requires length { length buffer.old ≡ length span.enabled.now }
    requires within { span.start + length span.enabled.now ≤ length (C.items contents.now) }
    ensures { buffer.new ≡ filled (C.map contents.now) span.entry.start span.entry.enabled.now buffer.old }
{
    let start = span.start as usize;
    let items = contents.items();
    // By index: of what a loop over a zip of `iter_mut` writes, no proof knows the bytes. Each item is read and each
    // place written, enabled or not: a loop without branches goes over many bytes at once.
    for (i, place) in buffer.iter_mut().enumerate() {
        let (old, new) = (*place, C::value(items[start + i]));
        *place = if span.enabled[i] { new } else { old };
    }
}

// Writes the data to the span: its enabled bytes, one after another in ascending order, by their index.
fn store<C: Contents>(contents: &mut C, span: Span<'_>, data: &[u8])
    requires length { length «data».now ≡ length span.enabled.now }
    requires judged { judged (C.map contents.old) Write span.start span.enabled.now ≡ Okay }
    ensures { C.map contents.new ≡ written span.entry.start span.entry.enabled.now «data».now (C.map contents.old) }
{
    let start = span.start as usize;
    for (i, value) in data.iter().enumerate() {
        contents.put(start + i, *value, span.enabled[i]);
    }
}

impl<C: Contents> Target for Device<C> {
    ghost map = { λ s. C.map s.contents };

    ghost meter = { λ s. s.meter.spent };

    ghost bounded = { λ s. C.bounded s.contents };

    fn judge(&self, command: Command, span: Span<'_>) -> Result<(), AccessError>
        ensures answer { status_of result ≡ judged (C.map self.now.contents) command span.entry.start span.entry.enabled.now }
        ensures within { status_of result ≡ Okay → span.entry.start + length span.entry.enabled.now ≤ length (C.items self.now.contents) }
    {
        let start = span.start as usize;
        let end = start + span.enabled.len();
        let Some(items) = self.contents.items().get(start..end) else {
            return Err(AccessError::AbsentByte);
        };
        if allow::<C>(items, command) {
            Ok(())
        } else {
            Err(AccessError::MissingRight)
        }
    }

    fn read(&mut self, span: Span<'_>, buffer: &mut [u8]) -> Result<u64, AccessError>
        ensures answer { ReadAs (C.map self.old.contents) self.old.meter.spent span.entry.start span.entry.enabled.now buffer.old (outcome_of result) buffer.new (C.map self.new.contents) self.new.meter.spent }
        ensures charge { Charged self.old.meter.rate self.new.meter.rate (outcome_of result) }
    {
        self.admit(Command::Read, span, buffer)?;
        fill(&self.contents, span, buffer);
        Ok(self.meter.charge())
    }

    fn write(&mut self, span: Span<'_>, data: &[u8]) -> Result<u64, AccessError>
        ensures answer { WrittenAs (C.map self.old.contents) self.old.meter.spent span.entry.start span.entry.enabled.now «data».now (outcome_of result) (C.map self.new.contents) self.new.meter.spent }
        ensures charge { Charged self.old.meter.rate self.new.meter.rate (outcome_of result) }
    {
        self.admit(Command::Write, span, data)?;
        store(&mut self.contents, span, data);
        Ok(self.meter.charge())
    }

    fn meter(&self) -> u64 {
        self.meter.spent()
    }
}
