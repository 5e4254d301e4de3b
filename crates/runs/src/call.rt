// Calls of a head as a list keeps them, and what comes of each.
ghost use Rattle.std.specs.Prelude.{◌≡◌, ℕ, min};
ghost use Rattle.telegram.specs.Layout.{part};
ghost use Rattle.runs.specs.Calls.{burst, fault_number, input_of};
ghost use Rattle.runs.specs.declared.call.CallFault.TheVariants.{Burst, Put, Condition};

use head::{BurstFault, ConditionFault, PutFault};
use payload::Bytes;
use readings::Outcome;
use refusals::Refusal;
use std::error::Error;
use std::fmt;

// A call with every argument but head, board, memory and line record.
#[derive(Clone, Copy)]
pub enum Call<'a> {
    // A burst of these bytes. Its reply buffer has `room` bytes, or as many as the run was lent.
    Burst {
        bytes: &'a [u8],
        room: usize,
    },
    Put {
        slot: usize,
        channel: u16,
        outcome: Outcome,
    },
    Condition {
        slot: usize,
        code: u8,
    },
    Tick {
        seconds: u32,
    },
}

// So many bytes from a place on, cut to what there is.
fn cut(bytes: &[u8], first: usize, length: usize) -> &[u8]
    ensures { result.now ≡ part bytes.now first length }
{
    let start = first.min(bytes.len());
    let end = start + length.min(bytes.len() - start);
    &bytes[start..end]
}

impl<'a> Call<'a> {
    // A burst whose bytes lie in traffic that is kept elsewhere, `length` of them from `first` on, cut to what there is. So
    // every place in every traffic means a burst.
    pub fn burst_in(traffic: &'a [u8], first: usize, length: usize, room: usize) -> Call<'a>
        ensures { (lent : ℕ) → input_of lent result ≡ burst (part traffic.now first length) (min room lent) }
    {
        Call::Burst {
            bytes: cut(traffic, first, length),
            room,
        }
    }
}

// The reply of the station in a slot. `Bytes` keeps only zeros behind its bytes, and so nothing of another station's reply.
#[derive(Clone, Copy, Debug, PartialEq, Eq)]
pub struct Reply {
    pub slot: usize,
    pub bytes: Bytes<224>,
}

// What a call drew that was not refused.
#[derive(Clone, Copy, Debug, PartialEq, Eq)]
pub enum Drawn {
    // A burst that drew no reply.
    Silence,
    Replied(Reply),
    // A put, a condition or a tick that was carried out.
    Done,
}

// Why a call was refused.
#[derive(Clone, Copy, Debug, PartialEq, Eq)]
pub enum CallFault {
    Burst(BurstFault),
    Put(PutFault),
    Condition(ConditionFault),
}

impl Refusal for CallFault {
    ghost number = { fault_number };

    fn number(&self) -> u8 {
        match self {
            CallFault::Burst(cause) => cause.number(),
            CallFault::Put(cause) => cause.number(),
            CallFault::Condition(cause) => cause.number(),
        }
    }
}

impl fmt::Display for CallFault {
    fn fmt<W: fmt::Write>(&self, f: &mut fmt::Formatter<W>) -> fmt::Result {
        match self {
            CallFault::Burst(cause) => write!(f, "{cause}"),
            CallFault::Put(cause) => write!(f, "{cause}"),
            CallFault::Condition(cause) => write!(f, "{cause}"),
        }
    }
}

impl Error for CallFault {}

impl From<BurstFault> for CallFault {
    ghost from_gives = { λ fault result. result ≡ Burst fault };

    fn from(fault: BurstFault) -> CallFault {
        CallFault::Burst(fault)
    }
}

impl From<PutFault> for CallFault {
    ghost from_gives = { λ fault result. result ≡ Put fault };

    fn from(fault: PutFault) -> CallFault {
        CallFault::Put(fault)
    }
}

impl From<ConditionFault> for CallFault {
    ghost from_gives = { λ fault result. result ≡ Condition fault };

    fn from(fault: ConditionFault) -> CallFault {
        CallFault::Condition(fault)
    }
}

// A call of a list, and what came of it: nothing before it is made.
#[derive(Clone, Copy)]
pub struct Entry<'a> {
    pub call: Call<'a>,
    pub told: Option<Result<Drawn, CallFault>>,
}
