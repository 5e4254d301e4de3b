// What a station answers to a telegram that is addressed to it.
ghost use Rattle.std.specs.Prelude.{◌≡◌, ◌<◌, ◌≤◌, length, is_ok, if◌then◌else◌, MatchResult, nat_lt};
ghost use Rattle.board.specs.Boards.{rules};
ghost use Rattle.board.specs.Meaning.{SameBut};
ghost use Rattle.readings.specs.Bytes.{weighed};
ghost use Rattle.station.specs.Codes.{command_code};
ghost use Rattle.station.specs.Model as model;
ghost use Rattle.station.specs.Model.{Unchanged};
ghost use Rattle.station.specs.Replies as replies;
ghost use Rattle.telegram.specs.View.{frame};

use crate::command::Command;
use crate::no_slot::NoSlot;
use crate::online::{many, one};
use crate::record::{Record, StationLine};
use crate::settings::{read_settings, write_settings};
use crate::status::{Status, alone};
use board::Board;
use payload::Payload;
use telegram::Fields;

// The version of the protocol, and that of each command.
pub(crate) const VERSION: u8 = 0x10;

// The reply to a command that takes no payload: 00h and these bytes.
fn tell(answer: &[u8], payload: &[u8]) -> Payload
    requires { length answer.now ≤ 4 }
    ensures { result ≡ replies.told answer.now payload.now }
{
    if !payload.is_empty() {
        return alone(Status::InvalidParameter);
    }
    let mut reply = alone(Status::Ok);
    reply.append(answer).unwrap();
    reply
}

// "Set Time / Date (27h)".
pub(crate) fn set_time(clock: &mut u32, payload: &[u8]) -> Payload
    ensures replied { result ≡ replies.set_time payload.now }
    ensures after { clock.new ≡ (if model.went_well result then weighed payload.now else clock.old) }
{
    let &[a, b, c, d] = payload else {
        return alone(Status::InvalidParameter);
    };
    *clock = u32::from_le_bytes([a, b, c, d]);
    alone(Status::Ok)
}

// "Reset / Default (25h)": the share is restarted where the reply is 00h.
pub(crate) fn restart<B: Board>(board: &mut B, slot: usize, payload: &[u8]) -> Payload
    requires { slot < B.count board.old }
    ensures same { B.count board.new ≡ B.count board.old }
    ensures replied { result ≡ replies.restart payload.now }
    ensures after { B.share board.new slot ≡ (if model.went_well result then B.restarted (B.share board.old slot) else B.share board.old slot) }
    ensures others { SameBut slot (B.share board.old) (B.share board.new) }
{
    match payload {
        [0x10] => {
            board.restart(slot);
            alone(Status::Ok)
        }
        [_] => alone(Status::InvalidValue),
        _ => alone(Status::InvalidParameter),
    }
}

// What each of the nine commands does.
fn obey<B: Board>(
    line: StationLine,
    state: &mut Record,
    window: &mut [u8],
    board: &mut B,
    slot: usize,
    command: Command,
    payload: &[u8],
) -> Payload
    requires { slot < B.count board.old }
    ensures same { B.count board.new ≡ B.count board.old }
    ensures became { model.Became (model.command (rules B.Board) (model.station_of line state.old window.old (B.share board.old slot)) (command_code command) payload.now) result (model.station_of line state.new window.new (B.share board.new slot)) slot (B.share board.old) (B.share board.new) }
{
    match command {
        Command::ReadOutEeprom => read_settings(window, payload),
        Command::ProgramEeprom => write_settings(window, line.protected as usize, payload),
        Command::OnlineDataRequest => one(board, slot, payload),
        Command::Reset => restart(board, slot, payload),
        Command::StatusRequest => tell(&[state.condition], payload),
        Command::SetTime => set_time(&mut state.clock, payload),
        Command::ReadOutTime => tell(&state.clock.to_le_bytes(), payload),
        Command::LastErrorMessage => tell(&[state.last], payload),
        Command::MultiChannelOnlineDataRequest => many(board, slot, payload),
    }
}

// The first status that fits.
fn judge<B: Board>(
    line: StationLine,
    state: &mut Record,
    window: &mut [u8],
    board: &mut B,
    slot: usize,
    fields: &Fields<'_>,
) -> Payload
    requires { slot < B.count board.old }
    ensures same { B.count board.new ≡ B.count board.old }
    ensures became { model.Became (model.judged (rules B.Board) (model.station_of line state.old window.old (B.share board.old slot)) (frame fields.now)) result (model.station_of line state.new window.new (B.share board.new slot)) slot (B.share board.old) (B.share board.new) }
{
    if fields.version != VERSION {
        return alone(Status::InvalidHeader);
    }
    let Ok(command) = Command::try_from(fields.command) else {
        return alone(Status::UnknownCommand);
    };
    if fields.command_version != VERSION {
        return alone(Status::InvalidCommandVersion);
    }
    obey(line, state, window, board, slot, command, fields.payload)
}

// What the station of this line answers to a telegram that is addressed to it; its window of the memory, its record and
// its slot of the board change as the answer says. NoSlot, and nothing changes, where the board has no such slot.
pub fn respond<B: Board>(
    line: StationLine,
    state: &mut Record,
    window: &mut [u8],
    board: &mut B,
    slot: usize,
    fields: &Fields<'_>,
) -> Result<Payload, NoSlot>
    ensures same { B.count board.new ≡ B.count board.old }
    ensures ok { is_ok result ≡ nat_lt slot (B.count board.old) }
    ensures became { MatchResult result (λ p. model.Became (model.answered (rules B.Board) (model.station_of line state.old window.old (B.share board.old slot)) (frame fields.now)) p (model.station_of line state.new window.new (B.share board.new slot)) slot (B.share board.old) (B.share board.new)) (λ _. Unchanged state.old state.new window.old window.new (B.share board.old) (B.share board.new)) }
{
    if slot >= board.slots() {
        return Err(NoSlot);
    }
    let reply = judge(line, state, window, board, slot, fields);
    state.last = reply.status();
    Ok(reply)
}
