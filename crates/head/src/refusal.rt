// Why a put, a condition or a burst is refused.
ghost use Rattle.std.specs.Prelude.{◌≡◌};
ghost use Rattle.head.specs.Burst as bursting;
ghost use Rattle.head.specs.Calls.{put_number, condition_number, put_fault};

use board::PutRefusal;
use refusals::Refusal;
use std::error::Error;
use std::fmt;

#[derive(Clone, Copy, Debug, PartialEq, Eq)]
pub enum PutFault {
    // The board that is brought has fewer slots than the head has stations.
    TooFewSlots,
    // The head has no station in that slot.
    NoStation,
    // The channel takes no put.
    NotPuttable,
    // A value of another type, or a fault that the board cannot store.
    WrongType,
}

impl Refusal for PutFault {
    ghost number = { put_number };

    fn number(&self) -> u8 {
        match self {
            PutFault::TooFewSlots => 12,
            PutFault::NoStation => 20,
            PutFault::NotPuttable => 21,
            PutFault::WrongType => 22,
        }
    }
}

impl fmt::Display for PutFault {
    fn fmt<W: fmt::Write>(&self, f: &mut fmt::Formatter<W>) -> fmt::Result {
        f.write_str(match self {
            PutFault::TooFewSlots => "the board has fewer slots than there are stations",
            PutFault::NoStation => "there is no station in this slot",
            PutFault::NotPuttable => "the channel takes no put",
            PutFault::WrongType => {
                "not of the channel's type, or a fault that the board does not store"
            }
        })
    }
}

impl Error for PutFault {}

// What a board refuses, the head refuses for the same reason: where the board has no slot, there is no station.
impl From<PutRefusal> for PutFault {
    ghost from_gives = { λ refusal fault. fault ≡ put_fault refusal };

    fn from(refusal: PutRefusal) -> PutFault {
        match refusal {
            PutRefusal::NoSlot => PutFault::NoStation,
            PutRefusal::NotPuttable => PutFault::NotPuttable,
            PutRefusal::WrongType => PutFault::WrongType,
        }
    }
}

#[derive(Clone, Copy, Debug, PartialEq, Eq)]
pub enum ConditionFault {
    // The head has no station in that slot.
    NoStation,
    // The manual has no such status code.
    NoSuchCode,
}

impl Refusal for ConditionFault {
    ghost number = { condition_number };

    fn number(&self) -> u8 {
        match self {
            ConditionFault::NoStation => 20,
            ConditionFault::NoSuchCode => 23,
        }
    }
}

impl fmt::Display for ConditionFault {
    fn fmt<W: fmt::Write>(&self, f: &mut fmt::Formatter<W>) -> fmt::Result {
        f.write_str(match self {
            ConditionFault::NoStation => "there is no station in this slot",
            ConditionFault::NoSuchCode => "no status has this code",
        })
    }
}

impl Error for ConditionFault {}

#[derive(Clone, Copy, Debug, PartialEq, Eq)]
pub enum BurstFault {
    // The burst has more than 512 bytes.
    TooLong,
    // The reply buffer has fewer than 224 bytes.
    ReplyTooShort,
    // The memory that is brought has not as many bytes as that of the start.
    OtherMemory,
    // The board that is brought has fewer slots than the head has stations.
    TooFewSlots,
}

impl Refusal for BurstFault {
    ghost number = { bursting.number };

    fn number(&self) -> u8 {
        match self {
            BurstFault::TooLong => 10,
            BurstFault::ReplyTooShort => 11,
            BurstFault::OtherMemory => 12,
            BurstFault::TooFewSlots => 12,
        }
    }
}

impl fmt::Display for BurstFault {
    fn fmt<W: fmt::Write>(&self, f: &mut fmt::Formatter<W>) -> fmt::Result {
        f.write_str(match self {
            BurstFault::TooLong => "the burst has more than 512 bytes",
            BurstFault::ReplyTooShort => "the reply buffer has fewer than 224 bytes",
            BurstFault::OtherMemory => "the memory has another length than at the start",
            BurstFault::TooFewSlots => "the board has fewer slots than there are stations",
        })
    }
}

impl Error for BurstFault {}
