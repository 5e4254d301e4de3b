// A list of calls, each of which finds what the earlier ones left.
ghost use Rattle.std.specs.Prelude.{◌≡◌, ◌≤◌, length, take, Some};
ghost use Rattle.board.specs.Boards.{rules};
ghost use Rattle.head.specs.Burst.{cabinet};
ghost use Rattle.runs.specs.Calls.{input_of, output_of};
ghost use Rattle.runs.specs.Replaying.{Leaving, Replaying, left_by, number};
ghost use Rattle.runs.specs.Runs.{Step};

use crate::call::{Call, CallFault, Drawn, Entry, Reply};
use board::Board;
use head::{Answered, Head, LineRecord};
use payload::Bytes;
use refusals::Refusal;
use std::error::Error;
use std::fmt;

// Why a list is not run.
#[derive(Clone, Copy, Debug, PartialEq, Eq)]
pub enum ReplayRefusal {
    // The memory that is brought has not as many bytes as that of the start.
    OtherMemory,
    // The board that is brought has fewer slots than the head has stations.
    TooFewSlots,
}

impl Refusal for ReplayRefusal {
    ghost number = { number };

    fn number(&self) -> u8 {
        match self {
            ReplayRefusal::OtherMemory => 12,
            ReplayRefusal::TooFewSlots => 12,
        }
    }
}

impl fmt::Display for ReplayRefusal {
    fn fmt<W: fmt::Write>(&self, f: &mut fmt::Formatter<W>) -> fmt::Result {
        f.write_str(match self {
            ReplayRefusal::OtherMemory => "the memory has another length than at the start",
            ReplayRefusal::TooFewSlots => "the board has fewer slots than there are stations",
        })
    }
}

impl Error for ReplayRefusal {}

// The reply that lies at the front of a buffer. What lies behind it there may be of another station's reply, and is left
// out.
fn taken(answered: Answered, buffer: &[u8]) -> Reply
    requires short { answered.length ≤ 224 }
    requires within { answered.length ≤ length buffer.now }
    ensures slot { result.slot ≡ answered.slot }
    ensures bytes { result.bytes ≡ take answered.length buffer.now }
{
    let Ok(bytes) = Bytes::from_slice(&buffer[..answered.length]) else {
        unreachable()
    };
    Reply {
        slot: answered.slot,
        bytes,
    }
}

impl Call<'_> {
    // Makes the call.
    fn make<B: Board>(
        self,
        head: &mut Head,
        board: &mut B,
        memory: &mut [u8],
        line: &mut LineRecord,
        buffer: &mut [u8],
    ) -> Result<Drawn, CallFault>
        ensures same { B.count board.new ≡ B.count board.old }
        ensures step { Step (rules B.Board) (B.count board.old) (cabinet head.old memory.old (B.share board.old)) (input_of (length buffer.old) self.entry) (output_of (Some result)) (cabinet head.new memory.new (B.share board.new)) }
        ensures scene { (record { buffer = buffer.new; talking = line.new.talking }) ≡ left_by (record { buffer = buffer.old; talking = line.old.talking }) (output_of (Some result)) }
    {
        match self {
            Call::Burst { bytes, room } => {
                let room = room.min(buffer.len());
                let reply = &mut buffer[..room];
                match head.burst(board, memory, line, bytes, reply)? {
                    Some(answered) => Ok(Drawn::Replied(taken(answered, reply))),
                    None => Ok(Drawn::Silence),
                }
            }
            Call::Put {
                slot,
                channel,
                outcome,
            } => {
                head.put(board, slot, channel, outcome)?;
                Ok(Drawn::Done)
            }
            Call::Condition { slot, code } => {
                head.condition(slot, code)?;
                Ok(Drawn::Done)
            }
            Call::Tick { seconds } => {
                head.tick(seconds);
                Ok(Drawn::Done)
            }
        }
    }
}

// Makes the calls of a list in order, and notes beside each what came of it. What comes of them is a run, and every run
// obeys the law about neighbours: `Law` in specs/Neighbours.antt, which the contract states through `Replaying`.
pub fn replay<B: Board>(
    head: &mut Head,
    board: &mut B,
    memory: &mut [u8],
    line: &mut LineRecord,
    buffer: &mut [u8],
    list: &mut [Entry<'_>],
) -> Result<(), ReplayRefusal>
    ensures same { B.count board.new ≡ B.count board.old }
    ensures replayed { Replaying (rules B.Board) (B.count board.old) (cabinet head.old memory.old (B.share board.old)) (cabinet head.new memory.new (B.share board.new)) (length buffer.old) list.old list.new result }
    ensures scene { Leaving (length buffer.old) list.new (record { buffer = buffer.old; talking = line.old.talking }) (record { buffer = buffer.new; talking = line.new.talking }) result }
{
    if memory.len() != head.memory() {
        return Err(ReplayRefusal::OtherMemory);
    }
    if board.slots() < head.count() {
        return Err(ReplayRefusal::TooFewSlots);
    }
    for entry in list.iter_mut() {
        entry.told = Some(entry.call.make(head, board, memory, line, buffer));
    }
    Ok(())
}
