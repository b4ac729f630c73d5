ghost use Rattle.std.specs.Prelude.{◌≡◌, ◌+◌, ◌-◌, length};
ghost use Rattle.std.proofs.Common.{rules};
ghost use Rattle.bus.specs.Answers.{outcome_of, status_of};
ghost use Rattle.bus.specs.Delay.{limited, growth};
ghost use Rattle.bus.specs.Map.{judged};
ghost use Rattle.bus.specs.Target.{ReadAs, WrittenAs, if_okay};
ghost use Rattle.layers.specs.Access.{AskedSides, OneRead, OneWrite};
ghost use Rattle.layers.specs.Delay.{Charged};
ghost use Rattle.layers.specs.Route.{routed, routed_by, sides_of, parts_of};

use crate::growth::growth_since;
use crate::sides::Sides;
use bus::{AccessError, Command, Meter, Span, Target};

// Two targets side by side: addresses below the border are the left one's, the others the right one's.
#[derive(Drop)]
pub struct Router<L, R> {
    pub(crate) left: L,
    pub(crate) right: R,
    pub(crate) border: u32,
    meter: Meter,
}

impl<L: Target, R: Target> Router<L, R> {
    pub fn new(left: L, right: R, border: u32, charge: u64) -> Router<L, R>
        ensures map { routed_by L.Target.map R.Target.map result ≡ routed border (L.Target.map left) (R.Target.map right) }
        ensures left { result.left ≡ left }
        ensures right { result.right ≡ right }
        ensures border { result.border ≡ border }
        ensures charge { result.meter.rate ≡ limited charge }
        ensures meter { result.meter.spent ≡ 0 }
    {
        Router {
            left,
            right,
            border,
            meter: Meter::new(charge),
        }
    }
}

impl<L: Target, R: Target> Target for Router<L, R> {
    ghost map = { routed_by L.Target.map R.Target.map };

    ghost meter = { λ s. s.meter.spent };

    ghost bounded = { Prim.search rules };

    fn judge(&self, command: Command, span: Span<'_>) -> Result<(), AccessError>
        ensures answer { status_of result ≡ judged (routed_by L.Target.map R.Target.map self.now) command span.entry.start span.entry.enabled.now }
        ensures still { self.exit.now ≡ self.entry.now }
    {
        self.judge_sides(command, span)
    }

    fn read(&mut self, span: Span<'_>, buffer: &mut [u8]) -> Result<u64, AccessError>
        ensures answer { ReadAs (routed_by L.Target.map R.Target.map self.old) self.old.meter.spent span.entry.start span.entry.enabled.now buffer.old (outcome_of result) buffer.new (routed_by L.Target.map R.Target.map self.new) self.new.meter.spent }
        ensures charge { Charged self.old.meter.rate self.new.meter.rate (parts_of (sides_of self.old.border span.entry.start (length span.entry.enabled.now))) (growth (L.Target.meter self.old.left) (L.Target.meter self.new.left) + growth (R.Target.meter self.old.right) (R.Target.meter self.new.right)) (outcome_of result) }
        ensures border { self.new.border ≡ self.old.border }
        ensures below { if_okay (status_of result) (AskedSides (OneRead L.Target.map L.Target.meter span.entry.enabled.now) (OneRead R.Target.map R.Target.meter span.entry.enabled.now) span.entry.start (length span.entry.enabled.now) self.old self.new) ((self.new.left ≡ self.old.left) × (self.new.right ≡ self.old.right)) }
    {
        self.admit(Command::Read, span, buffer)?;
        let (left, right) = (self.left.meter(), self.right.meter());
        self.read_sides(span, buffer);
        let left = growth_since(&self.left, left);
        let right = growth_since(&self.right, right);
        let parts = Sides::of(span, self.border).parts();
        Ok(self.meter.settle(parts, left.saturating_add(right)))
    }

    fn write(&mut self, span: Span<'_>, data: &[u8]) -> Result<u64, AccessError>
        ensures answer { WrittenAs (routed_by L.Target.map R.Target.map self.old) self.old.meter.spent span.entry.start span.entry.enabled.now «data».now (outcome_of result) (routed_by L.Target.map R.Target.map self.new) self.new.meter.spent }
        ensures charge { Charged self.old.meter.rate self.new.meter.rate (parts_of (sides_of self.old.border span.entry.start (length span.entry.enabled.now))) (growth (L.Target.meter self.old.left) (L.Target.meter self.new.left) + growth (R.Target.meter self.old.right) (R.Target.meter self.new.right)) (outcome_of result) }
        ensures border { self.new.border ≡ self.old.border }
        ensures below { if_okay (status_of result) (AskedSides (OneWrite L.Target.map L.Target.meter span.entry.enabled.now «data».now) (OneWrite R.Target.map R.Target.meter span.entry.enabled.now «data».now) span.entry.start (length span.entry.enabled.now) self.old self.new) ((self.new.left ≡ self.old.left) × (self.new.right ≡ self.old.right)) }
    {
        self.admit(Command::Write, span, data)?;
        let (left, right) = (self.left.meter(), self.right.meter());
        self.write_sides(span, data);
        let left = growth_since(&self.left, left);
        let right = growth_since(&self.right, right);
        let parts = Sides::of(span, self.border).parts();
        Ok(self.meter.settle(parts, left.saturating_add(right)))
    }

    fn meter(&self) -> u64
        ensures answer { result ≡ self.now.meter.spent }
        ensures still { self.exit.now ≡ self.entry.now }
    {
        self.meter.spent()
    }
}
