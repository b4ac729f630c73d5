ghost use Rattle.std.specs.Prelude.{◌≡◌, ◌+◌, ◌-◌, ◌^◌, ◌<◌, ◌≤◌, length, nat_lt, OnOk};
ghost use Rattle.bus.specs.Answers.{Okay, status_of};
ghost use Rattle.bus.specs.Map.{judged, filled, written};
ghost use Rattle.bus.specs.Target.{status_over};
ghost use Rattle.bus.specs.declared.kinds.Command.TheVariants.{Read, Write};
ghost use Rattle.layers.specs.Access.{AskedSides, OneRead, OneWrite};
ghost use Rattle.layers.specs.Route.{routed_by};
ghost use Rattle.layers.specs.Steps.{cut};

use crate::below::{read_below, write_below};
use crate::lend::part;
use crate::router::Router;
use crate::sides::Sides;
use bus::{AccessError, Command, Span, Target, worse};

// Whether a byte of the span lies past the last address.
fn passes_the_end(span: Span<'_>) -> bool
    ensures { result ≡ nat_lt (2 ^ 32) (span.entry.start + length span.entry.enabled.now) }
{
    span.start as usize + span.enabled.len() > 1 << 32
}

// The span as the right target counts its addresses.
fn beyond<'a>(span: Span<'a>, border: u32) -> Span<'a>
    requires { border ≤ span.start }
    ensures start { result.start ≡ span.entry.start - border }
    ensures enabled { result.enabled.now ≡ span.entry.enabled.now }
{
    Span {
        start: span.start - border,
        enabled: span.enabled,
    }
}

// The parts of a span over the border, each as its target counts its addresses.
fn halves<'a>(span: Span<'a>, at: usize, border: u32) -> (Span<'a>, Span<'a>)
    requires { (0 < at) × (at < length span.enabled.now) × (span.start + at ≡ border) × (span.start + length span.enabled.now ≤ 2 ^ 32) }
    ensures left { result.0.start ≡ span.entry.start }
    ensures first { result.0.enabled.now ≡ cut 0 at span.entry.enabled.now }
    ensures right { result.1.start ≡ span.entry.start + at - border }
    ensures second { result.1.enabled.now ≡ cut at (length span.entry.enabled.now) span.entry.enabled.now }
{
    let second = part(span, at, span.enabled.len());
    (part(span, 0, at), beyond(second, border))
}

impl<L: Target, R: Target> Router<L, R> {
    // How a span is judged, by the side or the sides on which it lies.
    #[tactic(auto, using(crate::proofs::Crossing::sides))]
    pub(crate) fn judge_sides(&self, command: Command, span: Span<'_>) -> Result<(), AccessError>
        ensures { status_of result ≡ judged (routed_by L.Target.map R.Target.map self.now) command span.entry.start span.entry.enabled.now }
    {
        if passes_the_end(span) {
            return Err(AccessError::AbsentByte);
        }
        match Sides::of(span, self.border) {
            Sides::Left => self.left.judge(command, span),
            Sides::Right => self.right.judge(command, beyond(span, self.border)),
            Sides::Both(at) => {
                let (first, second) = halves(span, at, self.border);
                worse(
                    self.left.judge(command, first),
                    self.right.judge(command, second),
                )
            }
        }
    }

    // Reads a span that is judged 1: over the border the left part first.
    #[tactic(auto, using(crate::proofs::Crossing::sides))]
    pub(crate) fn read_sides(&mut self, span: Span<'_>, buffer: &mut [u8])
        requires length { length buffer.old ≡ length span.enabled.now }
        requires judged { judged (routed_by L.Target.map R.Target.map self.old) Read span.start span.enabled.now ≡ Okay }
        ensures bytes { buffer.new ≡ filled (routed_by L.Target.map R.Target.map self.old) span.entry.start span.entry.enabled.now buffer.old }
        ensures accesses { AskedSides (OneRead L.Target.map L.Target.meter span.entry.enabled.now) (OneRead R.Target.map R.Target.meter span.entry.enabled.now) span.entry.start (length span.entry.enabled.now) self.old self.new }
        ensures map { routed_by L.Target.map R.Target.map self.new ≡ routed_by L.Target.map R.Target.map self.old }
        ensures border { self.new.border ≡ self.old.border }
        ensures meter { self.new.meter ≡ self.old.meter }
    {
        match Sides::of(span, self.border) {
            Sides::Left => read_below(&mut self.left, span, buffer),
            Sides::Right => read_below(&mut self.right, beyond(span, self.border), buffer),
            Sides::Both(at) => {
                let (first, second) = halves(span, at, self.border);
                read_below(&mut self.left, first, &mut buffer[0..at]);
                read_below(&mut self.right, second, &mut buffer[at..span.enabled.len()]);
            }
        }
    }

    // Writes to a span that is judged 1: over the border the left part first.
    // A read changes the buffer and a write the map, so one function for both would be longer than the two.
    #[tactic(auto, using(crate::proofs::Crossing::sides))]
    pub(crate) fn write_sides(&mut self, span: Span<'_>, bytes: &[u8])
        requires length { length bytes.now ≡ length span.enabled.now }
        requires judged { judged (routed_by L.Target.map R.Target.map self.old) Write span.start span.enabled.now ≡ Okay }
        ensures accesses { AskedSides (OneWrite L.Target.map L.Target.meter span.entry.enabled.now bytes.now) (OneWrite R.Target.map R.Target.meter span.entry.enabled.now bytes.now) span.entry.start (length span.entry.enabled.now) self.old self.new }
        ensures map { routed_by L.Target.map R.Target.map self.new ≡ written span.entry.start span.entry.enabled.now bytes.now (routed_by L.Target.map R.Target.map self.old) }
        ensures border { self.new.border ≡ self.old.border }
        ensures meter { self.new.meter ≡ self.old.meter }
    {
        match Sides::of(span, self.border) {
            Sides::Left => write_below(&mut self.left, span, bytes),
            Sides::Right => write_below(&mut self.right, beyond(span, self.border), bytes),
            Sides::Both(at) => {
                let (first, second) = halves(span, at, self.border);
                write_below(&mut self.left, first, &bytes[0..at]);
                write_below(&mut self.right, second, &bytes[at..span.enabled.len()]);
            }
        }
    }
}
