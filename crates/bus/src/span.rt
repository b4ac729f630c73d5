ghost use Rattle.std.specs.Prelude.{◌≤◌, length};

// Addresses from a start on, each byte enabled or not: 1 to 64 bytes.
#[derive(Clone, Copy, Debug, PartialEq, Eq)]
pub struct Span<'a> {
    pub start: u32,
    pub enabled: &'a [bool],
    ghost size: { (1 ≤ length enabled.now) × (length enabled.now ≤ 64) },
}
