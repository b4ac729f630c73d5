ghost use Rattle.std.specs.Prelude.{◌≡◌, ◌+◌, ◌≤◌, length};
ghost use Rattle.std.proofs.Common.{rules, arith};
ghost use Rattle.bus.specs.Answers.{Okay, outcome_of, status_of};
ghost use Rattle.bus.specs.Delay.{limited, growth};
ghost use Rattle.bus.specs.Map.{judged, filled, written};
ghost use Rattle.bus.specs.Target.{ReadAs, WrittenAs, if_okay};
ghost use Rattle.bus.specs.declared.kinds.Command.TheVariants.{Read, Write};
ghost use Rattle.layers.specs.Access.{InPieces, OneRead, OneWrite};
ghost use Rattle.layers.specs.Cut.{pieces, width_of};
ghost use Rattle.layers.specs.Delay.{Charged};

use crate::below::{read_below, write_below};
use crate::growth::growth_since;
use crate::lend::part;
use crate::pieces::{Pieces, count_pieces};
use bus::{AccessError, Command, Meter, Span, Target};

// Hands each span down in pieces that pass no multiple of the width.
#[derive(Drop)]
pub struct Bridge<T> {
    lower: T,
    width: usize,
    meter: Meter,
    ghost wide: { (1 ≤ width) × (width ≤ 8) },
}

// A width other than 1, 2, 4 and 8 bytes counts as 1.
fn width_of(width: u64) -> usize
    ensures value { result ≡ width_of width }
    ensures range { (1 ≤ result) × (result ≤ 8) }
{
    match width {
        2 => 2,
        4 => 4,
        8 => 8,
        _ => 1,
    }
}

impl<T: Target> Bridge<T> {
    pub fn new(lower: T, width: u64, charge: u64) -> Bridge<T>
        ensures map { T.Target.map result.lower ≡ T.Target.map lower }
        ensures lower { result.lower ≡ lower }
        ensures width { result.width ≡ width_of width }
        ensures charge { result.meter.rate ≡ limited charge }
        ensures meter { result.meter.spent ≡ 0 }
    {
        Bridge {
            lower,
            width: width_of(width),
            meter: Meter::new(charge),
        }
    }

    // Reads a span that is judged 1, one piece after another.
    #[tactic(auto, using(crate::proofs::Sofar::walking))]
    fn read_pieces(&mut self, span: Span<'_>, buffer: &mut [u8])
        requires length { length buffer.old ≡ length span.enabled.now }
        requires judged { judged (T.Target.map self.old.lower) Read span.start span.enabled.now ≡ Okay }
        ensures bytes { buffer.new ≡ filled (T.Target.map self.old.lower) span.entry.start span.entry.enabled.now buffer.old }
        ensures map { T.Target.map self.new.lower ≡ T.Target.map self.old.lower }
        ensures accesses { InPieces (λ i j. OneRead T.Target.map T.Target.meter span.entry.enabled.now (span.entry.start + i) i j) self.old.width span.entry.start (length span.entry.enabled.now) self.old.lower self.new.lower }
        ensures width { self.new.width ≡ self.old.width }
        ensures meter { self.new.meter ≡ self.old.meter }
    {
        for (from, to) in Pieces::of(span, self.width) {
            read_below(&mut self.lower, part(span, from, to), &mut buffer[from..to]);
        }
    }

    // Writes to a span that is judged 1, one piece after another.
    // A read changes the buffer and a write the map, so one function for both would be longer than the two.
    #[tactic(auto, using(crate::proofs::Sofar::walking))]
    fn write_pieces(&mut self, span: Span<'_>, bytes: &[u8])
        requires length { length bytes.now ≡ length span.enabled.now }
        requires judged { judged (T.Target.map self.old.lower) Write span.start span.enabled.now ≡ Okay }
        ensures map { T.Target.map self.new.lower ≡ written span.entry.start span.entry.enabled.now bytes.now (T.Target.map self.old.lower) }
        ensures accesses { InPieces (λ i j. OneWrite T.Target.map T.Target.meter span.entry.enabled.now bytes.now (span.entry.start + i) i j) self.old.width span.entry.start (length span.entry.enabled.now) self.old.lower self.new.lower }
        ensures width { self.new.width ≡ self.old.width }
        ensures meter { self.new.meter ≡ self.old.meter }
    {
        for (from, to) in Pieces::of(span, self.width) {
            write_below(&mut self.lower, part(span, from, to), &bytes[from..to]);
        }
    }
}

impl<T: Target> Target for Bridge<T> {
    ghost map = { λ s. T.Target.map s.lower };

    ghost meter = { λ s. s.meter.spent };

    ghost bounded = { first_of (Prim.search rules, Prim.grind (arith, Self.row.coded.inj)) };

    fn judge(&self, command: Command, span: Span<'_>) -> Result<(), AccessError>
        ensures answer { status_of result ≡ judged (T.Target.map self.now.lower) command span.entry.start span.entry.enabled.now }
        ensures still { self.exit.now ≡ self.entry.now }
    {
        self.lower.judge(command, span)
    }

    fn read(&mut self, span: Span<'_>, buffer: &mut [u8]) -> Result<u64, AccessError>
        ensures answer { ReadAs (T.Target.map self.old.lower) self.old.meter.spent span.entry.start span.entry.enabled.now buffer.old (outcome_of result) buffer.new (T.Target.map self.new.lower) self.new.meter.spent }
        ensures charge { Charged self.old.meter.rate self.new.meter.rate (pieces self.old.width span.entry.start (length span.entry.enabled.now)) (growth (T.Target.meter self.old.lower) (T.Target.meter self.new.lower)) (outcome_of result) }
        ensures width { self.new.width ≡ self.old.width }
        ensures below { if_okay (status_of result) (InPieces (λ i j. OneRead T.Target.map T.Target.meter span.entry.enabled.now (span.entry.start + i) i j) self.old.width span.entry.start (length span.entry.enabled.now) self.old.lower self.new.lower) (self.new.lower ≡ self.old.lower) }
    {
        self.admit(Command::Read, span, buffer)?;
        let before = self.lower.meter();
        self.read_pieces(span, buffer);
        let count = count_pieces(span, self.width);
        Ok(self.meter.settle(count, growth_since(&self.lower, before)))
    }

    fn write(&mut self, span: Span<'_>, data: &[u8]) -> Result<u64, AccessError>
        ensures answer { WrittenAs (T.Target.map self.old.lower) self.old.meter.spent span.entry.start span.entry.enabled.now «data».now (outcome_of result) (T.Target.map self.new.lower) self.new.meter.spent }
        ensures charge { Charged self.old.meter.rate self.new.meter.rate (pieces self.old.width span.entry.start (length span.entry.enabled.now)) (growth (T.Target.meter self.old.lower) (T.Target.meter self.new.lower)) (outcome_of result) }
        ensures width { self.new.width ≡ self.old.width }
        ensures below { if_okay (status_of result) (InPieces (λ i j. OneWrite T.Target.map T.Target.meter span.entry.enabled.now «data».now (span.entry.start + i) i j) self.old.width span.entry.start (length span.entry.enabled.now) self.old.lower self.new.lower) (self.new.lower ≡ self.old.lower) }
    {
        self.admit(Command::Write, span, data)?;
        let before = self.lower.meter();
        self.write_pieces(span, data);
        let count = count_pieces(span, self.width);
        Ok(self.meter.settle(count, growth_since(&self.lower, before)))
    }

    fn meter(&self) -> u64
        ensures answer { result ≡ self.now.meter.spent }
        ensures still { self.exit.now ≡ self.entry.now }
    {
        self.meter.spent()
    }
}
