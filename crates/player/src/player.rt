use crate::interconnect::Interconnect;
use lines::LineBuffer;
use platform::Platform;

// Plays a script: one line in, one answer out. It keeps the unfinished line and the number of that line.
#[derive(Drop)]
pub struct Player {
    pub(crate) platform: Platform<Interconnect>,
    pub(crate) line: LineBuffer,
    pub(crate) number: u64,
}

// How many bytes a player took, and whether they ended a line, which it has then answered. The answer itself stands in
// the text that the caller lends: a slice of it here would take the text from the caller, of which no clause could then
// say what it holds, and a text of its own could not be copied, as this can.
#[derive(Clone, Copy, Debug, PartialEq, Eq)]
pub struct Taken {
    pub used: usize,
    pub answered: bool,
}
