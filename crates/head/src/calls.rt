// The calls besides a burst: put, condition and tick.
ghost use Rattle.std.specs.Prelude.{◌≡◌};
ghost use Rattle.head.specs.Calls.{Conditioning, Putting, Ticking, listed};
ghost use Rattle.head.specs.State.{stations};

use crate::refusal::{ConditionFault, PutFault};
use crate::state::Head;
use board::Board;
use readings::Outcome;

fn is_listed(code: u8) -> bool
    ensures { result ≡ listed code }
{
    matches!(
        code,
        0x00 | 0x10..=0x15 | 0x20..=0x2f | 0x30..=0x39 | 0x50..=0x56 | 0x60..=0x64 | 0xff
    )
}

impl Head {
    // Stores an outcome on a channel of the station in a slot.
    pub fn put<B: Board>(
        &self,
        board: &mut B,
        slot: usize,
        channel: u16,
        outcome: Outcome,
    ) -> Result<(), PutFault>
        ensures same { B.count board.new ≡ B.count board.old }
        ensures put { Putting B.stored (stations self.now) (B.count board.old) (B.share board.old) (B.share board.new) slot channel outcome result }
    {
        if board.slots() < self.lines.count() {
            return Err(PutFault::TooFewSlots);
        }
        if slot >= self.lines.count() {
            return Err(PutFault::NoStation);
        }
        Ok(board.put(slot, channel, outcome)?)
    }

    // Sets what the station in a slot tells as its condition.
    pub fn condition(&mut self, slot: usize, code: u8) -> Result<(), ConditionFault>
        ensures { Conditioning self.old self.new slot code result }
    {
        if slot >= self.lines.count() {
            return Err(ConditionFault::NoStation);
        }
        if !is_listed(code) {
            return Err(ConditionFault::NoSuchCode);
        }
        self.records[slot].condition = code;
        Ok(())
    }

    // So many seconds have gone by.
    pub fn tick(&mut self, seconds: u32)
        ensures { Ticking self.old self.new seconds }
    {
        let count = self.lines.count();
        for slot in 0..count {
            let clock = self.records[slot].clock;
            self.records[slot].clock = clock.saturating_add(seconds);
        }
    }
}
