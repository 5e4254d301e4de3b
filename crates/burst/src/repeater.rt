// A telegram that is read, written again.
ghost use Rattle.std.specs.Prelude.{◌≡◌, MatchResult, OnErr};
ghost use Rattle.burst.specs.Relay.{Relayed, NotRelayed, relay_number};
ghost use Rattle.burst.specs.declared.repeater.RelayFault.TheVariants.{Unread, Unwritten};

use super::fault::ReadFault;
use super::search::read;
use refusals::Refusal;
use std::error::Error;
use std::fmt;
use telegram::{WriteRefusal, write};

// Why the telegram of a burst was not passed on.
#[derive(Clone, Copy, Debug, PartialEq, Eq)]
pub enum RelayFault {
    Unread(ReadFault),
    Unwritten(WriteRefusal),
}

impl fmt::Display for RelayFault {
    fn fmt<W: fmt::Write>(&self, f: &mut fmt::Formatter<W>) -> fmt::Result {
        match self {
            RelayFault::Unread(fault) => write!(f, "{fault}"),
            RelayFault::Unwritten(refusal) => write!(f, "{refusal}"),
        }
    }
}

impl Error for RelayFault {}

impl Refusal for RelayFault {
    ghost number = { relay_number };

    fn number(&self) -> u8 {
        match self {
            RelayFault::Unread(fault) => fault.number(),
            RelayFault::Unwritten(refusal) => refusal.number(),
        }
    }
}

impl From<ReadFault> for RelayFault {
    ghost from_gives = { λ f r. r ≡ Unread f };

    fn from(fault: ReadFault) -> RelayFault {
        RelayFault::Unread(fault)
    }
}

impl From<WriteRefusal> for RelayFault {
    ghost from_gives = { λ e r. r ≡ Unwritten e };

    fn from(refusal: WriteRefusal) -> RelayFault {
        RelayFault::Unwritten(refusal)
    }
}

// Passes the telegram of a burst on: writes it to the front of the buffer, without what lies around it in the burst.
pub fn relay(burst: &[u8], buffer: &mut [u8]) -> Result<usize, RelayFault>
    ensures relayed { MatchResult result (Relayed burst.now buffer.old buffer.new) (NotRelayed burst.now buffer.old) }
    ensures unchanged { OnErr result (buffer.new ≡ buffer.old) }
{
    let telegram = read(burst)?;
    let length = write(&telegram.fields(), buffer)?;
    Ok(length)
}
