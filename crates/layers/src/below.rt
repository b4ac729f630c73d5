ghost use Rattle.std.specs.Prelude.{◌≡◌, length};
ghost use Rattle.bus.specs.Answers.{Okay};
ghost use Rattle.bus.specs.Map.{judged, filled, written};
ghost use Rattle.bus.specs.declared.kinds.Command.TheVariants.{Read, Write};
ghost use Rattle.layers.specs.Access.{OneRead, OneWrite};

use bus::{Span, Target};

// A span and its buffer are two parameters throughout, of one length by a clause. A type for both, with the length as a fact
// of its own, has no proof: the borrow checker "does not cover" a value that holds a `&mut` and a ghost field, and is
// written through in a loop. One for a span and its data alone would part the two halves of each pair. That a span is
// judged 1 is a fact about the target at the call, and so a clause too. Both functions stand here as the ones above them
// do: one lends a buffer, the other shows data.

// Reads a span that is judged 1, in one access below.
pub(crate) fn read_below<T: Target>(lower: &mut T, span: Span<'_>, buffer: &mut [u8])
    requires length { length buffer.old ≡ length span.enabled.now }
    requires judged { judged (T.Target.map lower.old) Read span.start span.enabled.now ≡ Okay }
    ensures bytes { buffer.new ≡ filled (T.Target.map lower.old) span.entry.start span.entry.enabled.now buffer.old }
    ensures map { T.Target.map lower.new ≡ T.Target.map lower.old }
    ensures access { OneRead T.Target.map T.Target.meter span.entry.enabled.now span.entry.start 0 (length span.entry.enabled.now) lower.old lower.new }
{
    lower.read(span, buffer).unwrap();
}

// Writes to a span that is judged 1, in one access below.
pub(crate) fn write_below<T: Target>(lower: &mut T, span: Span<'_>, bytes: &[u8])
    requires length { length bytes.now ≡ length span.enabled.now }
    requires judged { judged (T.Target.map lower.old) Write span.start span.enabled.now ≡ Okay }
    ensures map { T.Target.map lower.new ≡ written span.entry.start span.entry.enabled.now bytes.now (T.Target.map lower.old) }
    ensures access { OneWrite T.Target.map T.Target.meter span.entry.enabled.now bytes.now span.entry.start 0 (length span.entry.enabled.now) lower.old lower.new }
{
    lower.write(span, bytes).unwrap();
}
