// The fields of a payload as a caller gives them, in range or not. The command is a number, since any may be given.
#[derive(Clone, Copy, Debug, PartialEq, Eq)]
pub struct Fields<'a> {
    pub command: u8,
    pub address: u32,
    pub length: u64,
    pub width: u64,
    pub enables: &'a [u8],
}
