ghost use Rattle.std.specs.Prelude.{◌≡◌, Ok, Err, MatchBool, MatchOption, MatchResult};
ghost use Rattle.table.specs.Making.{Refused, Sound};
ghost use Rattle.table.specs.Records.{Apart, First, Missing};
ghost use Rattle.table.specs.Shares.{Replaced, share_of, table_restarted, table_stored, table_tells};

use crate::record::{Record, is_absent, is_of_type};
use crate::refusal::TableRefusal;
use board::{Board, PutRefusal};
use readings::{Fault, Outcome};

const SLOTS: usize = 32;

const MOST_RECORDS: usize = 4096;

// The place of the first record of a slot's channel.
fn find(records: &[Record], slot: usize, channel: u16) -> Option<usize>
    ensures { MatchOption result (Missing records.now slot channel) (First records.now slot channel) }
{
    records.iter().position(|record| usize::from(record.slot) == slot && record.channel == channel)
}

// Puts an outcome in place of that of the first record of a slot's channel.
fn replace(
    records: &mut [Record],
    slot: usize,
    channel: u16,
    outcome: Outcome,
) -> Result<(), PutRefusal>
    ensures { Replaced slot channel outcome records.old records.new result }
{
    let i = find(records, slot, channel).ok_or(PutRefusal::NotPuttable)?;
    if is_absent(outcome) || !is_of_type(outcome, records[i].kind) {
        return Err(PutRefusal::WrongType);
    }
    records[i].outcome = outcome;
    Ok(())
}

// Whether no two records have the same slot and channel.
fn are_apart(records: &[Record]) -> bool
    ensures { MatchBool result (Apart records.now) (Apart records.now → ⊥) }
{
    records.iter().enumerate().all(|(j, record)| {
        find(&records[..j], usize::from(record.slot), record.channel).is_none()
    })
}

// Whether a table may be made of the records, and if not, the first reason.
fn check(records: &[Record]) -> Result<(), TableRefusal>
    ensures { MatchResult result (λ _. Sound records.now) (λ e. Refused e records.now) }
{
    if records.len() > MOST_RECORDS {
        return Err(TableRefusal::TooManyRecords);
    }
    if !records.iter().all(Record::is_in_range) {
        return Err(TableRefusal::OutOfRange);
    }
    if !records.iter().all(Record::is_present) {
        return Err(TableRefusal::AbsentChannel);
    }
    if !records.iter().all(Record::is_typed) {
        return Err(TableRefusal::WrongType);
    }
    if !are_apart(records) {
        return Err(TableRefusal::PairTwice);
    }
    Ok(())
}

// A board of records in lent memory.
#[derive(Drop)]
pub struct Table<'a> {
    records: &'a mut [Record],
}

impl<'a> Table<'a> {
    // A table that holds these records.
    pub fn new(records: &'a mut [Record]) -> Result<Table<'a>, TableRefusal>
        ensures { elim result [ Ok t ↦ Sound records.old × (t.records.now ≡ records.old) | Err e ↦ Refused e records.old ] }
    {
        check(records)?;
        Ok(Table { records })
    }

    // The records that it holds, in order.
    pub fn records(&self) -> &[Record]
        ensures { result.now ≡ self.now.records.now }
    {
        self.records
    }
}

impl Board for Table<'_> {
    ghost count = { λ _. 32 };

    ghost share = { λ t slot. share_of slot t.records.now };

    ghost tells = { table_tells };

    ghost stored = { table_stored };

    ghost restarted = { table_restarted };

    fn slots(&self) -> usize {
        SLOTS
    }

    fn look(&self, slot: usize, channel: u16) -> Outcome {
        if slot >= SLOTS {
            return Outcome::Fault(Fault::InvalidChannel);
        }
        find(self.records, slot, channel).map_or(
            Outcome::Fault(Fault::InvalidChannel),
            |i| self.records[i].outcome,
        )
    }

    fn put(&mut self, slot: usize, channel: u16, outcome: Outcome) -> Result<(), PutRefusal> {
        if slot >= SLOTS {
            return Err(PutRefusal::NoSlot);
        }
        replace(self.records, slot, channel, outcome)
    }

    fn restart(&mut self, _slot: usize) {}
}
