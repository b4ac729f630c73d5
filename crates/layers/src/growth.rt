ghost use Rattle.std.specs.Prelude.{◌≡◌};
ghost use Rattle.bus.specs.Delay.{growth};

use bus::Target;

// How far the target's meter came on since it stood at `before`.
pub(crate) fn growth_since<T: Target>(target: &T, before: u64) -> u64
    ensures { result ≡ growth before (T.Target.meter target.now) }
{
    target.meter().wrapping_sub(before)
}
