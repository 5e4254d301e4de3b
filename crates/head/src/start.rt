// The start of a head.
ghost use Rattle.std.specs.Prelude.{◌<◌, MatchResult};
ghost use Rattle.lines.specs.declared.StartRefusal.TheVariants.{FewSlots};
ghost use Rattle.head.specs.Starting.{Started, NotStarted};

use crate::state::Head;
use board::Board;
use lines::{Lines, StartRefusal};
use station::{Record, StationLine};

const FRESH: Record = Record {
    clock: 0,
    condition: 0,
    last: 0,
};

impl Head {
    // A head for these lines, with a memory of so many bytes and a board.
    pub fn start<B: Board>(
        lines: &[StationLine],
        memory: usize,
        board: &B,
    ) -> Result<Head, StartRefusal>
        ensures { MatchResult result (λ h. Started lines.now memory (B.count board.now) h) (λ e. NotStarted lines.now memory (B.count board.now) e) }
    {
        let table = Lines::new(lines, memory)?;
        if board.slots() < table.count() {
            return Err(StartRefusal::FewSlots);
        }
        Ok(Head {
            lines: table,
            records: [FRESH; 32],
        })
    }
}
