ghost use Rattle.std.specs.Prelude.{◌≡◌, length, replicate, None};
ghost use Rattle.std.proofs.Common.{rules, arith};
ghost use Rattle.bus.specs.Answers.{outcome_of, status_of};
ghost use Rattle.bus.specs.Delay.{limited, growth};
ghost use Rattle.bus.specs.Map.{judged};
ghost use Rattle.bus.specs.Target.{ReadAs, WrittenAs, if_okay};
ghost use Rattle.layers.specs.Access.{InPieces, OneWrite, PieceRead};
ghost use Rattle.layers.specs.Cut.{pieces};
ghost use Rattle.layers.specs.Delay.{Charged};
ghost use Rattle.layers.specs.Lines.{Sound, held_ins, held_after_read, held_after_write};

use crate::growth::growth_since;
use crate::line::Line;
use crate::pieces::count_pieces;
use bus::{AccessError, Command, Meter, Span, Target};

// Keeps 8 lines of 16 bytes that were read below, each in its place. A write goes through to the lower target.
#[derive(Drop)]
pub struct Cache<T: Target> {
    pub(crate) lower: T,
    pub(crate) lines: [Option<Line>; 8],
    meter: Meter,
    pub ghost sound: { Sound (T.Target.map lower) lines },
}

impl<T: Target> Cache<T> {
    pub fn new(lower: T, charge: u64) -> Cache<T>
        ensures map { T.Target.map result.lower ≡ T.Target.map lower }
        ensures lower { result.lower ≡ lower }
        ensures lines { held_ins result.lines ≡ replicate 8 None }
        ensures charge { result.meter.rate ≡ limited charge }
        ensures meter { result.meter.spent ≡ 0 }
    {
        Cache {
            lower,
            lines: [None; 8],
            meter: Meter::new(charge),
        }
    }
}

impl<T: Target> Target for Cache<T> {
    ghost map = { λ s. T.Target.map s.lower };

    ghost meter = { λ s. s.meter.spent };

    ghost bounded = { first_of (Prim.search rules, Prim.grind (arith, Self.row.coded.inj)) };

    fn judge(&self, command: Command, span: Span<'_>) -> Result<(), AccessError>
        ensures answer { status_of result ≡ judged (T.Target.map self.now.lower) command span.entry.start span.entry.enabled.now }
        ensures still { self.exit.now ≡ self.entry.now }
    {
        self.lower.judge(command, span)
    }

    fn read(&mut self, span: Span<'_>, buffer: &mut [u8]) -> Result<u64, AccessError>
        ensures answer { ReadAs (T.Target.map self.old.lower) self.old.meter.spent span.entry.start span.entry.enabled.now buffer.old (outcome_of result) buffer.new (T.Target.map self.new.lower) self.new.meter.spent }
        ensures lines { held_ins self.new.lines ≡ if_okay (status_of result) (held_after_read (T.Target.map self.old.lower) span.entry.start (length span.entry.enabled.now) (held_ins self.old.lines)) (held_ins self.old.lines) }
        ensures charge { Charged self.old.meter.rate self.new.meter.rate (pieces 16 span.entry.start (length span.entry.enabled.now)) (growth (T.Target.meter self.old.lower) (T.Target.meter self.new.lower)) (outcome_of result) }
        ensures below { if_okay (status_of result) (InPieces (PieceRead T.Target.map T.Target.meter span.entry.start span.entry.enabled.now) 16 span.entry.start (length span.entry.enabled.now) (self.old.lower, held_ins self.old.lines) (self.new.lower, held_ins self.new.lines)) (self.new.lower ≡ self.old.lower) }
    {
        self.admit(Command::Read, span, buffer)?;
        let before = self.lower.meter();
        self.read_lines(span, buffer);
        let count = count_pieces(span, 16);
        Ok(self.meter.settle(count, growth_since(&self.lower, before)))
    }

    fn write(&mut self, span: Span<'_>, data: &[u8]) -> Result<u64, AccessError>
        ensures answer { WrittenAs (T.Target.map self.old.lower) self.old.meter.spent span.entry.start span.entry.enabled.now «data».now (outcome_of result) (T.Target.map self.new.lower) self.new.meter.spent }
        ensures lines { held_ins self.new.lines ≡ if_okay (status_of result) (held_after_write span.entry.start (length span.entry.enabled.now) (held_ins self.old.lines)) (held_ins self.old.lines) }
        ensures charge { Charged self.old.meter.rate self.new.meter.rate 1 (growth (T.Target.meter self.old.lower) (T.Target.meter self.new.lower)) (outcome_of result) }
        ensures below { if_okay (status_of result) (OneWrite T.Target.map T.Target.meter span.entry.enabled.now «data».now span.entry.start 0 (length span.entry.enabled.now) self.old.lower self.new.lower) (self.new.lower ≡ self.old.lower) }
    {
        self.admit(Command::Write, span, data)?;
        let before = self.lower.meter();
        self.write_lines(span, data);
        Ok(self.meter.settle(1, growth_since(&self.lower, before)))
    }

    fn meter(&self) -> u64
        ensures answer { result ≡ self.now.meter.spent }
        ensures still { self.exit.now ≡ self.entry.now }
    {
        self.meter.spent()
    }
}
