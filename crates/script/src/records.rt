ghost use Rattle.script.specs.Forms.{IsShort};

use protocol::Asked;

// A blocking call. Its enables and its data are parts of the line: hexadecimal digits, two to a byte.
#[derive(Clone, Copy, Debug, PartialEq, Eq)]
pub struct Transfer<'a> {
    pub port: u64,
    // the number of its letter, or 3 for any other byte, which the call refuses as no command
    pub command: u8,
    pub address: u32,
    pub length: u64,
    pub width: u64,
    pub enables: &'a [u8],
    pub data: &'a [u8],
    pub ghost short_enables: { IsShort enables.now },
    pub ghost short_data: { IsShort «data».now },
}

// A line of the script.
#[derive(Clone, Copy, Debug, PartialEq, Eq)]
pub enum Record<'a> {
    Settings(Asked),
    Blocking(Transfer<'a>),
    Sync { port: u64 },
}
