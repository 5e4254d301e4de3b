// Tables of lines made and asked.
ghost use Rattle.std.specs.Prelude.{◌≡◌, ℕ, ◌+◌, ◌<◌, ◌≤◌, length, take, IfSome, if◌then◌else◌, Some, None, MatchOption, MatchResult, ◌≢◌, nat_lt};
ghost use Rattle.lines.specs.Making.{broken, lines_of, line_at};

use crate::refusal::StartRefusal;
use crate::rules::{all_differ, are_apart, are_stations, have_good_windows};
use crate::table::Lines;
use address::Address;
use station::StationLine;

const MOST_LINES: usize = 32;

const NO_LINE: StationLine = StationLine {
    address: Address(0),
    first: 0,
    size: 0,
    protected: 0,
};

// The lines at the front of a whole table.
fn table_of(lines: &[StationLine]) -> [StationLine; 32]
    requires { length lines.now ≤ 32 }
    ensures held { take (length lines.now) result ≡ lines.now }
    ensures long { length result ≡ 32 }
{
    let mut all = [NO_LINE; 32];
    all[..lines.len()].copy_from_slice(lines);
    all
}

impl Lines {
    // The table of these lines over a memory of so many bytes, or the first rule that they break.
    pub fn new(lines: &[StationLine], memory: usize) -> Result<Lines, StartRefusal>
        ensures { MatchResult result (λ t. (broken memory lines.now ≡ None) × (lines_of t ≡ lines.now) × (t.memory ≡ memory)) (λ e. broken memory lines.now ≡ Some e) }
    {
        let count = lines.len();
        if !(1..=MOST_LINES).contains(&count) {
            return Err(StartRefusal::LineCount);
        }
        if !are_stations(lines) {
            return Err(StartRefusal::NoStation);
        }
        if !all_differ(lines) {
            return Err(StartRefusal::AddressTwice);
        }
        if !have_good_windows(lines, memory) {
            return Err(StartRefusal::BadWindow);
        }
        if !are_apart(lines) {
            return Err(StartRefusal::SharedByte);
        }
        Ok(Lines {
            lines: table_of(lines),
            count,
            memory,
        })
    }

    // How many lines there are.
    pub fn count(&self) -> usize
        ensures field { result ≡ self.now.count }
        ensures lines { result ≡ length (lines_of self.now) }
    {
        self.count
    }

    // How many bytes the memory has.
    pub fn memory(&self) -> usize
        ensures { result ≡ self.now.memory }
    {
        self.memory
    }

    // The line of a slot.
    pub fn line(&self, slot: usize) -> Option<StationLine>
        ensures value { result ≡ (if nat_lt slot self.now.count then Some (line_at self.now slot) else None) }
        ensures inside { IfSome result (λ l. l.first + l.size ≤ self.now.memory) }
    {
        self.lines[..self.count].get(slot).copied()
    }

    // The slot of the station that has this address.
    pub fn slot_of(&self, address: Address) -> Option<usize>
        ensures { MatchOption result ((k : ℕ) → k < self.now.count → (line_at self.now k).address.0 ≢ address.0) (λ slot. (slot < self.now.count) × ((line_at self.now slot).address.0 ≡ address.0)) }
    {
        self.lines[..self.count]
            .iter()
            .position(|line| line.address == address)
    }
}
