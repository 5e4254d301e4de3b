// Why a head does not start.
ghost use Rattle.lines.specs.Making as making;

use refusals::Refusal;
use std::error::Error;
use std::fmt;

#[derive(Clone, Copy, Debug, PartialEq, Eq)]
pub enum StartRefusal {
    // There are not 1 to 32 lines.
    LineCount,
    // A line's address is no station's.
    NoStation,
    // Two lines have one address.
    AddressTwice,
    // A window of more than 4,096 bytes, outside the memory, or with more protected bytes than it has.
    BadWindow,
    // Two windows share a byte.
    SharedByte,
    // The board has fewer slots than there are lines.
    FewSlots,
}

impl Refusal for StartRefusal {
    ghost number = { making.number };

    fn number(&self) -> u8 {
        match self {
            StartRefusal::LineCount => 1,
            StartRefusal::NoStation => 2,
            StartRefusal::AddressTwice => 3,
            StartRefusal::BadWindow => 4,
            StartRefusal::SharedByte => 5,
            StartRefusal::FewSlots => 6,
        }
    }
}

impl fmt::Display for StartRefusal {
    fn fmt<W: fmt::Write>(&self, f: &mut fmt::Formatter<W>) -> fmt::Result {
        f.write_str(match self {
            StartRefusal::LineCount => "there are not 1 to 32 stations",
            StartRefusal::NoStation => "an address is no station's",
            StartRefusal::AddressTwice => "two stations have one address",
            StartRefusal::BadWindow => {
                "a window has more than 4,096 bytes, lies outside the memory or protects more than it has"
            }
            StartRefusal::SharedByte => "two windows share a byte",
            StartRefusal::FewSlots => "the board has fewer slots than there are stations",
        })
    }
}

impl Error for StartRefusal {}
