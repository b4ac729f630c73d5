ghost use Rattle.std.specs.Prelude.{◌≡◌, length, replicate, refl};
ghost use Rattle.bus.specs.Delay.{limited};
ghost use Rattle.devices.specs.Contents.{memory_cell, memory_map};
ghost use Rattle.std.proofs.Common.{rules, arith};

use crate::contents::Contents;
use crate::device::Device;
use bus::Command;

// 4,096 bytes, each of which may be read and written.
#[derive(Drop)]
pub struct Memory {
    bytes: [u8; 4096],
    pub ghost size: { length bytes ≡ 4096 },
}

impl Contents for Memory {
    type Item = u8;

    ghost map = { λ s. memory_map s.bytes };

    ghost items = { λ s. s.bytes };

    ghost cell = { memory_cell };

    ghost blank = { 0 };

    ghost listed = { λ s. refl };

    ghost bounded = { first_of (Prim.search rules, Prim.grind (arith, Self.row.coded.inj)) };

    fn items(&self) -> &[u8] {
        &self.bytes
    }

    fn value(byte: u8) -> u8 {
        byte
    }

    fn allows(_byte: u8, _command: Command) -> bool {
        true
    }

    // By a mask, and not by a branch: a loop over many bytes then goes over several at once.
    fn put(&mut self, place: usize, value: u8, enabled: bool) {
        let mask = if enabled { 0xFF } else { 0x00 };
        self.bytes[place] = (self.bytes[place] & !mask) | (value & mask);
    }
}

// Memory of its own: 4,096 bytes from address 0 on.
pub type Scratchpad = Device<Memory>;

impl Device<Memory> {
    pub fn new(latency: u64) -> Scratchpad
        ensures map { memory_map result.contents.bytes ≡ memory_map (replicate 4096 0) }
        ensures meter { result.meter.spent ≡ 0 }
        ensures latency { result.meter.rate ≡ limited latency }
    {
        Device::holding(Memory { bytes: [0; 4096] }, latency)
    }
}
