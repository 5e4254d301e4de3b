use std::error::Error;
use std::fmt;

// A byte that names no type, or no fault.
#[derive(Clone, Copy, Debug, PartialEq, Eq)]
pub struct UnknownCode(pub u8);

impl fmt::Display for UnknownCode {
    fn fmt<W: fmt::Write>(&self, f: &mut fmt::Formatter<W>) -> fmt::Result {
        write!(f, "unknown code {:02X}h", self.0)
    }
}

impl Error for UnknownCode {}
