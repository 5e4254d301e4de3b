use std::error::Error;
use std::fmt;

// The board has no slot of this number.
#[derive(Clone, Copy, Debug, PartialEq, Eq)]
pub struct NoSlot;

impl fmt::Display for NoSlot {
    fn fmt<W: fmt::Write>(&self, f: &mut fmt::Formatter<W>) -> fmt::Result {
        f.write_str("the board has no such slot")
    }
}

impl Error for NoSlot {}
