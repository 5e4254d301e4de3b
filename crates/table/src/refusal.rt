ghost use Rattle.table.specs.Making.{refusal_number};

use refusals::Refusal;
use std::error::Error;
use std::fmt;

// Why no table is made of some records.
#[derive(Clone, Copy, Debug, PartialEq, Eq)]
pub enum TableRefusal {
    // There are more than 4,096 records.
    TooManyRecords,
    // A record's slot is above 31, or its channel is 65535.
    OutOfRange,
    // A record's outcome is fault 24h, which says that there is no such channel.
    AbsentChannel,
    // A record's outcome is a value of another type than the record's.
    WrongType,
    // Two records have the same slot and channel.
    PairTwice,
}

impl Refusal for TableRefusal {
    ghost number = { refusal_number };

    fn number(&self) -> u8 {
        match self {
            TableRefusal::TooManyRecords
            | TableRefusal::OutOfRange
            | TableRefusal::AbsentChannel
            | TableRefusal::WrongType
            | TableRefusal::PairTwice => 43,
        }
    }
}

impl fmt::Display for TableRefusal {
    fn fmt<W: fmt::Write>(&self, f: &mut fmt::Formatter<W>) -> fmt::Result {
        match self {
            TableRefusal::TooManyRecords => write!(f, "there are more than 4,096 records"),
            TableRefusal::OutOfRange => {
                write!(f, "a record's slot is above 31, or its channel is 65535")
            }
            TableRefusal::AbsentChannel => {
                write!(
                    f,
                    "a record has fault 24h, which says that there is no such channel"
                )
            }
            TableRefusal::WrongType => {
                write!(f, "a record has a value of another type than its own")
            }
            TableRefusal::PairTwice => { write!(f, "two records have the same slot and channel") }
        }
    }
}

impl Error for TableRefusal {}
