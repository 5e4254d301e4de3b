ghost use Rattle.board.specs.Refusals.{refusal_number};

use refusals::Refusal;
use std::error::Error;
use std::fmt;

// Why a put is turned down.
#[derive(Clone, Copy, Debug, PartialEq, Eq)]
pub enum PutRefusal {
    // The board has no such slot.
    NoSlot,
    // The channel takes no put.
    NotPuttable,
    // The outcome is of another type than the channel's, or a fault that the board cannot store.
    WrongType,
}

impl Refusal for PutRefusal {
    ghost number = { refusal_number };

    fn number(&self) -> u8 {
        match self {
            PutRefusal::NoSlot => 20,
            PutRefusal::NotPuttable => 21,
            PutRefusal::WrongType => 22,
        }
    }
}

impl fmt::Display for PutRefusal {
    fn fmt<W: fmt::Write>(&self, f: &mut fmt::Formatter<W>) -> fmt::Result {
        match self {
            PutRefusal::NoSlot => write!(f, "the board has no such slot"),
            PutRefusal::NotPuttable => write!(f, "the channel takes no put"),
            PutRefusal::WrongType => {
                write!(
                    f,
                    "not of the channel's type, or a fault that the board does not store"
                )
            }
        }
    }
}

impl Error for PutRefusal {}
