// What a head tells of its stations.
ghost use Rattle.std.specs.Prelude.{◌≡◌, if◌then◌else◌, Some, None, nat_lt};
ghost use Rattle.lines.specs.Making.{line_at};
ghost use Rattle.head.specs.State.{stations, record_at};

use crate::state::Head;
use station::{Record, StationLine};

impl Head {
    // How many stations there are.
    pub fn count(&self) -> usize
        ensures { result ≡ stations self.now }
    {
        self.lines.count()
    }

    // How many bytes the settings memory has.
    pub fn memory(&self) -> usize
        ensures { result ≡ self.now.lines.memory }
    {
        self.lines.memory()
    }

    // The line of the station in a slot.
    pub fn line(&self, slot: usize) -> Option<StationLine>
        ensures { result ≡ (if nat_lt slot (stations self.now) then Some (line_at self.now.lines slot) else None) }
    {
        self.lines.line(slot)
    }

    // The record of the station in a slot.
    pub fn record(&self, slot: usize) -> Option<Record>
        ensures { result ≡ (if nat_lt slot (stations self.now) then Some (record_at self.now slot) else None) }
    {
        self.records[..self.lines.count()].get(slot).copied()
    }
}
