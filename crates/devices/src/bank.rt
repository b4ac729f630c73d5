ghost use Rattle.std.specs.Prelude.{◌≡◌, ◌≤◌, length, take, refl};
ghost use Rattle.bus.specs.Delay.{limited};
ghost use Rattle.devices.specs.Rows.{no_row, row_cell, rows_map};
ghost use Rattle.std.proofs.Common.{rules, arith};

use crate::at_most::at_most;
use crate::contents::Contents;
use crate::device::Device;
use crate::row::Row;
use arrayvec::ArrayVec;
use bus::Command;

// Rows, each with rights and a mask of its own.
#[derive(Drop)]
pub struct Registers {
    rows: ArrayVec<Row, 128>,
    ghost room: { length rows.items ≤ 128 },
}

impl Contents for Registers {
    type Item = Row;

    ghost map = { λ s. rows_map s.rows.items };

    ghost items = { λ s. s.rows.items };

    ghost cell = { row_cell };

    ghost blank = { no_row };

    ghost listed = { λ s. refl };

    ghost bounded = { first_of (Prim.search rules, Prim.grind (arith, Self.row.coded.inj)) };

    fn items(&self) -> &[Row] {
        self.rows.as_slice()
    }

    fn value(row: Row) -> u8 {
        row.value
    }

    fn allows(row: Row, command: Command) -> bool {
        row.allows(command)
    }

    fn put(&mut self, place: usize, value: u8, enabled: bool) {
        if enabled {
            self.rows[place].put(value);
        }
    }
}

// A register bank of up to 128 rows, from address 0 on.
pub type Bank = Device<Registers>;

impl Device<Registers> {
    // Rows past 128 are dropped.
    pub fn new(rows: &[Row], latency: u64) -> Bank
        ensures map { rows_map result.contents.rows.items ≡ rows_map (take 128 rows.now) }
        ensures meter { result.meter.spent ≡ 0 }
        ensures latency { result.meter.rate ≡ limited latency }
    {
        let rows = ArrayVec::try_from(at_most(rows, 128)).unwrap();
        Device::holding(Registers { rows }, latency)
    }
}
