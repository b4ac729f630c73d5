ghost use Rattle.std.specs.Prelude.{◌≤◌};

use crate::kinds::Command;

// A payload whose fields are all in range. It is made of `Fields` by `try_from`, or by `Payload::idle`. The enables are an
// array with a count, and no `ArrayVec`, so that a payload can be copied.
#[derive(Clone, Copy, Debug)]
pub struct Payload {
    pub(crate) command: Command,
    pub(crate) address: u32,
    pub(crate) length: usize,
    pub(crate) width: usize,
    pub(crate) count: usize,
    pub(crate) enables: [u8; 64],
    ghost ranges: { (1 ≤ length) × (length ≤ 64) × (1 ≤ width) × (width ≤ 4294967295) × (count ≤ 64) },
}
