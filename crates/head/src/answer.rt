// One station of the head answers, or all that a broadcast reaches act.
ghost use Rattle.std.specs.Prelude.{◌≡◌, ℕ, ◌<◌, ◌≤◌, List, length, if◌then◌else◌, ◌≢◌, nat_lt};
ghost use Rattle.lines.specs.Making.{line_at};
ghost use Rattle.station.specs.Model.{Became, answered, station_of};
ghost use Rattle.board.specs.Boards.{rules};
ghost use Rattle.telegram.specs.View.{frame};
ghost use Rattle.head.specs.Bursts.{OnlyWindow, after_broadcast};
ghost use Rattle.head.specs.State.{stations, record_at, station_at};

use crate::state::Head;
use board::Board;
use payload::Payload;
use station::{overhear, respond};
use telegram::Fields;

impl Head {
    // The station in this slot answers.
    pub(crate) fn answer_at<B: Board>(
        &mut self,
        board: &mut B,
        memory: &mut [u8],
        slot: usize,
        fields: &Fields<'_>,
    ) -> Payload
        requires there { slot < stations self.old }
        requires enough { stations self.old ≤ B.count board.old }
        requires memory { length memory.old ≡ self.old.lines.memory }
        ensures same { B.count board.new ≡ B.count board.old }
        ensures lines { self.new.lines ≡ self.old.lines }
        ensures became { Became (answered (rules B.Board) (station_at self.old memory.old (B.share board.old) slot) (frame fields.now)) result (station_at self.new memory.new (B.share board.new) slot) slot (B.share board.old) (B.share board.new) }
        ensures records { (k : ℕ) → (k ≢ slot) → record_at self.new k ≡ record_at self.old k }
        ensures window { OnlyWindow (line_at self.old.lines slot).first (line_at self.old.lines slot).size memory.old memory.new }
    {
        let line = self.lines.line(slot).unwrap();
        let first = line.first as usize;
        let end = first + line.size as usize;
        let window = &mut memory[first..end];
        let state = &mut self.records[slot];
        respond(line, state, window, board, slot, fields).unwrap()
    }

    // The station in this slot acts on a broadcast, if that reaches it.
    fn overhear_at<B: Board>(&mut self, board: &mut B, slot: usize, fields: &Fields<'_>)
        requires there { slot < stations self.old }
        requires enough { stations self.old ≤ B.count board.old }
        ensures same { B.count board.new ≡ B.count board.old }
        ensures lines { self.new.lines ≡ self.old.lines }
        ensures others { (k : ℕ) → (k ≢ slot) → (record_at self.new k ≡ record_at self.old k) × (B.share board.new k ≡ B.share board.old k) }
        ensures turned { (settings : List ℕ) → (station_of (line_at self.old.lines slot) (record_at self.new slot) settings (B.share board.new slot)) ≡ after_broadcast (rules B.Board) (frame fields.now) (station_of (line_at self.old.lines slot) (record_at self.old slot) settings (B.share board.old slot)) }
    {
        let line = self.lines.line(slot).unwrap();
        if fields.receiver.reaches(line.address) {
            overhear(&mut self.records[slot], board, slot, fields).unwrap();
        }
    }

    // Every station that a broadcast reaches acts.
    pub(crate) fn spread<B: Board>(&mut self, board: &mut B, fields: &Fields<'_>)
        requires { stations self.old ≤ B.count board.old }
        ensures same { B.count board.new ≡ B.count board.old }
        ensures lines { self.new.lines ≡ self.old.lines }
        ensures turned { (k : ℕ) (settings : List ℕ) → (station_of (line_at self.old.lines k) (record_at self.new k) settings (B.share board.new k)) ≡ (if nat_lt k (stations self.old) then after_broadcast (rules B.Board) (frame fields.now) (station_of (line_at self.old.lines k) (record_at self.old k) settings (B.share board.old k)) else station_of (line_at self.old.lines k) (record_at self.old k) settings (B.share board.old k)) }
    {
        let count = self.lines.count();
        for slot in 0..count {
            self.overhear_at(board, slot, fields);
        }
    }
}
