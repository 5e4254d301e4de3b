// What a station does on a broadcast that reaches it.
ghost use Rattle.std.specs.Prelude.{◌≡◌, ℕ, List, is_ok, if◌then◌else◌, nat_lt};
ghost use Rattle.board.specs.Boards.{rules};
ghost use Rattle.board.specs.Meaning.{SameBut};
ghost use Rattle.station.specs.Model as model;
ghost use Rattle.station.specs.declared.record.StationLine.{StationLine as ALine};
ghost use Rattle.telegram.specs.View.{frame};

use crate::command::Command;
use crate::no_slot::NoSlot;
use crate::record::Record;
use crate::responder::{VERSION, restart, set_time};
use crate::status::Status;
use board::Board;
use telegram::Fields;

// What a station does on a broadcast that reaches it. NoSlot, and nothing changes, where the board has no such slot.
pub fn overhear<B: Board>(
    state: &mut Record,
    board: &mut B,
    slot: usize,
    fields: &Fields<'_>,
) -> Result<(), NoSlot>
    ensures same { B.count board.new ≡ B.count board.old }
    ensures ok { is_ok result ≡ nat_lt slot (B.count board.old) }
    ensures others { SameBut slot (B.share board.old) (B.share board.new) }
    ensures after { (line : ALine) (settings : List ℕ) → model.station_of line state.new settings (B.share board.new slot) ≡ (if is_ok result then model.overheard (rules B.Board) (model.station_of line state.old settings (B.share board.old slot)) (frame fields.now) else model.station_of line state.old settings (B.share board.old slot)) }
{
    if slot >= board.slots() {
        return Err(NoSlot);
    }
    if fields.version != VERSION || fields.command_version != VERSION {
        return Ok(());
    }
    match Command::try_from(fields.command) {
        Ok(Command::Reset) => {
            let reply = restart(board, slot, fields.payload);
            if reply.status() == u8::from(Status::Ok) {
                state.last = u8::from(Status::Ok);
            }
        }
        Ok(Command::SetTime) => {
            let _ = set_time(&mut state.clock, fields.payload);
        }
        _ => {}
    }
    Ok(())
}
