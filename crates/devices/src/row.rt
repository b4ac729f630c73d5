ghost use Rattle.std.specs.Prelude.{◌≡◌, Some};
ghost use Rattle.bus.specs.Map.{allowed, stored};
ghost use Rattle.devices.specs.Rows.{row_cell};

use bus::Command;

// A register of one byte: its rights, its value and the mask of its writable bits.
#[derive(Clone, Copy, Debug, Default, PartialEq, Eq)]
pub struct Row {
    pub readable: bool,
    pub writable: bool,
    pub value: u8,
    pub mask: u8,
}

impl Row {
    pub(crate) fn allows(self, command: Command) -> bool
        ensures { result ≡ allowed command (Some (row_cell self)) }
    {
        match command {
            Command::Read => self.readable,
            Command::Write => self.writable,
            Command::Ignore => true,
        }
    }

    // Takes the value's bits where the mask has ones.
    pub(crate) fn put(&mut self, value: u8)
        ensures { row_cell self.new ≡ stored value (row_cell self.old) }
    {
        self.value = (self.value & !self.mask) | (value & self.mask);
    }
}
