// What can be wrong with a script, and where.
use std::alloc::{AllocError, AllocFailed};
use std::error::Error;
use std::fmt;

// Where in a script something stands; both count from 1.
#[derive(Clone, Copy, Debug)]
pub(crate) struct Place {
    pub(crate) line: u64,
    pub(crate) column: usize,
}

impl Place {
    pub(crate) fn wrong(self, reason: Reason) -> Wrong {
        Wrong::At(self, reason)
    }
}

// A word of a statement, by what it says.
#[derive(Clone, Copy, Debug)]
pub(crate) enum Item {
    Address,
    WindowPlace,
    WindowSize,
    Protected,
    MemoryLength,
    Position,
    Hex,
    Board,
    SlotCount,
    WindowLength,
    Slot,
    Channel,
    Type,
    Outcome,
    Value,
    Bits,
    FaultCode,
    Code,
    Seconds,
    Room,
}

impl fmt::Display for Item {
    fn fmt<W: fmt::Write>(&self, f: &mut fmt::Formatter<W>) -> fmt::Result {
        f.write_str(match self {
            Item::Address => "address",
            Item::WindowPlace => "window's place",
            Item::WindowSize => "window's size",
            Item::Protected => "protected count",
            Item::MemoryLength => "memory's length",
            Item::Position => "position",
            Item::Hex => "hex",
            Item::Board => "board's kind",
            Item::SlotCount => "count of slots",
            Item::WindowLength => "count of samples",
            Item::Slot => "slot",
            Item::Channel => "channel",
            Item::Type => "type",
            Item::Outcome => "outcome",
            Item::Value => "value",
            Item::Bits => "bit pattern",
            Item::FaultCode => "fault's code",
            Item::Code => "code",
            Item::Seconds => "count of seconds",
            Item::Room => "reply buffer's length",
        })
    }
}

// What stands in a script and should not, or should and does not.
#[derive(Clone, Copy, Debug)]
pub(crate) enum Reason {
    Missing(Item),
    NoNumber(Item),
    Above(Item, u64),
    NoFloat,
    Unfit,
    NoHexDigit(u8),
    HalfByte,
    NoStatement,
    NoBoard,
    NoType,
    NoOutcome,
    NoFault,
    WordTooMany,
    MemoryTwice,
    BoardTwice,
    StartTwice,
    NoStart,
    AfterStart,
    BeforeStart,
    RecordElsewhere,
    SampleElsewhere,
    PastMemory,
}

impl fmt::Display for Reason {
    fn fmt<W: fmt::Write>(&self, f: &mut fmt::Formatter<W>) -> fmt::Result {
        match *self {
            Reason::Missing(item) => write!(f, "the {item} is missing"),
            Reason::NoNumber(item) => write!(f, "the {item} is no number"),
            Reason::Above(item, most) => write!(f, "the {item} is above {most}"),
            Reason::NoFloat => write!(f, "the value is no decimal number"),
            Reason::Unfit => write!(f, "the value does not fit its type"),
            Reason::NoHexDigit(byte) if byte.is_ascii_graphic() => {
                let character = char::from(byte);
                write!(f, "'{character}' is no hex digit")
            }
            Reason::NoHexDigit(byte) => write!(f, "the byte {byte:02X}h is no hex digit"),
            Reason::HalfByte => write!(f, "this hex digit has no second one behind it"),
            Reason::NoStatement => write!(f, "no statement begins so"),
            Reason::NoBoard => write!(f, "a board is 'table' or 'statistics'"),
            Reason::NoType => write!(f, "this is none of the eight types"),
            Reason::NoOutcome => write!(f, "an outcome begins with a type or with 'fault'"),
            Reason::NoFault => write!(f, "no fault has this code"),
            Reason::WordTooMany => write!(f, "this is more than the statement has"),
            Reason::MemoryTwice => write!(f, "there is a memory already"),
            Reason::BoardTwice => write!(f, "there is a board already"),
            Reason::StartTwice => write!(f, "there is a start already"),
            Reason::NoStart => write!(f, "the script ends without a start"),
            Reason::AfterStart => write!(f, "this belongs before the start"),
            Reason::BeforeStart => write!(f, "this belongs behind the start"),
            Reason::RecordElsewhere => write!(f, "a statistics board has no records"),
            Reason::SampleElsewhere => write!(f, "a table board has no samples"),
            Reason::PastMemory => write!(f, "these bytes go past the end of the memory"),
        }
    }
}

// Why a script is not read.
#[derive(Clone, Copy, Debug)]
pub(crate) enum Wrong {
    At(Place, Reason),
    OutOfMemory,
}

impl From<AllocError> for Wrong {
    fn from(_error: AllocError) -> Wrong {
        Wrong::OutOfMemory
    }
}

impl<T: Drop> From<AllocFailed<T>> for Wrong {
    fn from(_refused: AllocFailed<T>) -> Wrong {
        Wrong::OutOfMemory
    }
}

impl fmt::Display for Wrong {
    fn fmt<W: fmt::Write>(&self, f: &mut fmt::Formatter<W>) -> fmt::Result {
        match *self {
            Wrong::At(Place { line, column }, reason) => {
                write!(f, "line {line}, column {column}: {reason}")
            }
            Wrong::OutOfMemory => write!(f, "out of memory"),
        }
    }
}

impl Error for Wrong {}
