// A burst arrives.
ghost use Rattle.std.specs.Prelude.{◌≡◌, ◌≤◌, true, false, ◌++◌, length, drop, is_some, IfSome, if◌then◌else◌, Some, None, MatchOption};
ghost use Rattle.burst.specs.Telegram.{telegram_of};
ghost use Rattle.board.specs.Boards.{rules};
ghost use Rattle.telegram.specs.Layout.{frame_bytes};
ghost use Rattle.telegram.specs.View.{frame};
ghost use Rattle.address.specs.Addressing.{controller};
ghost use Rattle.head.specs.Burst.{Accepting, Bursting, Served, cabinet, has_replied};
ghost use Rattle.head.specs.State.{stations};
ghost use Rattle.head.specs.Bursts.{reply_to};

use crate::line::{LineRecord, Talk};
use crate::refusal::BurstFault;
use crate::state::Head;
use board::Board;
use burst::find;
use payload::Payload;
use telegram::{Fields, write};

// Which station replied, and in how many bytes.
#[derive(Clone, Copy, Debug, PartialEq, Eq)]
pub struct Answered {
    pub slot: usize,
    pub length: usize,
}

// The fields of the burst's telegram.
fn asked(burst: &[u8]) -> Option<Fields<'_>>
    requires { length burst.now ≤ 512 }
    ensures { MatchOption result (telegram_of burst.now ≡ None) (λ f. telegram_of burst.now ≡ Some (frame f)) }
{
    let found = find(burst).unwrap();
    found.map(|telegram| telegram.fields())
}

// Writes the reply of the station that was asked, and tells its length. No byte is written but on a line that talks.
fn reply_with(line: &LineRecord, fields: &Fields<'_>, payload: &Payload, reply: &mut [u8]) -> usize
    requires room { 224 ≤ length reply.old }
    requires talking { line.now.talking ≡ true }
    ensures short { result ≤ 224 }
    ensures count { result ≡ length (frame_bytes (reply_to (frame fields.now) payload.now)) }
    ensures bytes { reply.new ≡ frame_bytes (reply_to (frame fields.now) payload.now) ++ drop result reply.old }
{
    let answer = Fields {
        version: 0x10,
        receiver: fields.sender,
        sender: fields.receiver,
        command: fields.command,
        command_version: 0x10,
        payload: payload.as_slice(),
    };
    write(&answer, reply).unwrap()
}

// Talks on the line while the reply is written.
fn talk(line: &mut LineRecord, fields: &Fields<'_>, payload: &Payload, reply: &mut [u8]) -> usize
    requires { 224 ≤ length reply.old }
    ensures listens { line.new.talking ≡ false }
    ensures short { result ≤ 224 }
    ensures count { result ≡ length (frame_bytes (reply_to (frame fields.now) payload.now)) }
    ensures bytes { reply.new ≡ frame_bytes (reply_to (frame fields.now) payload.now) ++ drop result reply.old }
{
    line.begin();
    let talk = Talk(line);
    reply_with(&*talk.0, fields, payload, reply)
}

impl Head {
    // A controller's telegram: the station that it names answers, or those that it reaches act.
    fn serve<B: Board>(
        &mut self,
        board: &mut B,
        memory: &mut [u8],
        line: &mut LineRecord,
        fields: &Fields<'_>,
        reply: &mut [u8],
    ) -> Option<Answered>
        requires enough { stations self.old ≤ B.count board.old }
        requires memory { length memory.old ≡ self.old.lines.memory }
        requires room { 224 ≤ length reply.old }
        requires asked { controller fields.now.sender.0 ≡ true }
        ensures same { B.count board.new ≡ B.count board.old }
        ensures served { Served (rules B.Board) (frame fields.now) (cabinet self.old memory.old (B.share board.old)) (cabinet self.new memory.new (B.share board.new)) reply.old reply.new result }
        ensures short { IfSome result (λ answered. answered.length ≤ 224) }
        ensures listens { line.new.talking ≡ (if is_some result then false else line.old.talking) }
    {
        let Some(slot) = self.lines.slot_of(fields.receiver) else {
            self.spread(board, fields);
            return None;
        };
        let payload = self.answer_at(board, memory, slot, fields);
        let length = talk(line, fields, &payload, reply);
        Some(Answered { slot, length })
    }

    // A burst arrives: silence, or the reply of one station in the front of the buffer.
    pub fn burst<B: Board>(
        &mut self,
        board: &mut B,
        memory: &mut [u8],
        line: &mut LineRecord,
        burst: &[u8],
        reply: &mut [u8],
    ) -> Result<Option<Answered>, BurstFault>
        ensures same { B.count board.new ≡ B.count board.old }
        ensures done { Bursting (rules B.Board) (cabinet self.old memory.old (B.share board.old)) (cabinet self.new memory.new (B.share board.new)) (B.count board.old) burst.now reply.old reply.new result }
        ensures accepted { Accepting (cabinet self.old memory.old (B.share board.old)) (B.count board.old) burst.now reply.old result }
        ensures listens { line.new.talking ≡ (if has_replied result then false else line.old.talking) }
    {
        if burst.len() > 512 {
            return Err(BurstFault::TooLong);
        }
        if reply.len() < 224 {
            return Err(BurstFault::ReplyTooShort);
        }
        if memory.len() != self.lines.memory() {
            return Err(BurstFault::OtherMemory);
        }
        if board.slots() < self.lines.count() {
            return Err(BurstFault::TooFewSlots);
        }
        let Some(fields) = asked(burst) else {
            return Ok(None);
        };
        if !fields.sender.is_controller() {
            return Ok(None);
        }
        Ok(self.serve(board, memory, line, &fields, reply))
    }
}
