use std::error::Error;
use std::fmt;

// 32 events wait already.
#[derive(Clone, Copy, Debug, PartialEq, Eq)]
pub struct Full;

impl fmt::Display for Full {
    fn fmt<W: fmt::Write>(&self, f: &mut fmt::Formatter<W>) -> fmt::Result {
        f.write_str("32 events wait already")
    }
}

impl Error for Full {}
