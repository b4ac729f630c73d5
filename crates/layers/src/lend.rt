ghost use Rattle.std.specs.Prelude.{◌≡◌, ◌+◌, ◌^◌, ◌<◌, ◌≤◌, length};
ghost use Rattle.layers.specs.Steps.{cut};

use bus::Span;

// The bytes of the span from place `from` to place `to`.
pub(crate) fn part<'a>(span: Span<'a>, from: usize, to: usize) -> Span<'a>
    requires { (from < to) × (to ≤ length span.enabled.now) × (span.start + to ≤ 2 ^ 32) }
    ensures start { result.start ≡ span.entry.start + from }
    ensures enabled { result.enabled.now ≡ cut from to span.entry.enabled.now }
{
    Span {
        start: span.start + from as u32,
        enabled: &span.enabled[from..to],
    }
}
