// What a board holds of a slot, as whole numbers that can be shown.
#![tactic(auto)]

ghost use Rattle.std.specs.Prelude.{◌≡◌, ◌<◌, [], ◌∷◌, ◌++◌, pos, IfOk, OnOk};
ghost use Rattle.readings.specs.Codes.{kind_code};
ghost use Rattle.readings.specs.Outcomes.{number_of};
ghost use Rattle.readings.specs.Values.{number};
ghost use Rattle.table.specs.Shares.{written};

use board::Board;
use readings::{Outcome, Reading};
use statistics::Statistics;
use std::alloc::{AllocError, Global};
use table::{Record, Table};

// A board that shows its shares.
pub trait Shares: Board {
    // The share of a slot that the board has.
    fn numbers(&self, heap: Global, slot: usize) -> Result<Vec<i128>, AllocError>
        ensures { slot < Self.Board.count self.now → IfOk result (λ v. v.items ≡ Self.Board.share self.now slot) };
}

// An integer is its own number, a float that of its bits.
fn number_of(reading: Reading) -> i128
    ensures { result ≡ number reading }
{
    match reading {
        Reading::U8(n) => i128::from(n),
        Reading::I8(n) => i128::from(n),
        Reading::U16(n) => i128::from(n),
        Reading::I16(n) => i128::from(n),
        Reading::U32(n) => i128::from(n),
        Reading::I32(n) => i128::from(n),
        Reading::F32(x) => i128::from(x.to_bits()),
        Reading::F64(x) => i128::from(x.to_bits()),
    }
}

// The second of the two numbers that an outcome is written as.
fn second_number(outcome: Outcome) -> i128
    ensures { result ≡ number_of outcome }
{
    match outcome {
        Outcome::Value(reading) => number_of(reading),
        Outcome::Fault(_) => 0,
    }
}

fn append_record(numbers: &mut Vec<i128>, row: Record) -> Result<(), AllocError>
    ensures { OnOk result (numbers.new.items ≡ numbers.old.items ++ written row.channel (kind_code row.kind) row.outcome) }
{
    numbers.extend_from_slice(&[
        i128::from(row.channel),
        i128::from(u8::from(row.kind)),
        i128::from(row.outcome.code()),
        second_number(row.outcome),
    ])
}

impl Shares for Table<'_> {
    fn numbers(&self, heap: Global, slot: usize) -> Result<Vec<i128>, AllocError> {
        let mut numbers = Vec::new(heap);
        for row in self.records() {
            if usize::from(row.slot) == slot {
                append_record(&mut numbers, *row)?;
            }
        }
        Ok(numbers)
    }
}

fn append_samples(numbers: &mut Vec<i128>, samples: &[i32]) -> Result<(), AllocError>
    ensures { OnOk result (numbers.new.items ≡ numbers.old.items ++ samples.now) }
{
    numbers.extend(samples.iter().copied().map(i128::from))
}

impl Shares for Statistics<'_> {
    fn numbers(&self, heap: Global, slot: usize) -> Result<Vec<i128>, AllocError> {
        let mut numbers = Vec::new(heap);
        numbers.push(self.window() as i128)?;
        if let Some(samples) = self.samples(slot) {
            append_samples(&mut numbers, samples.older)?;
            append_samples(&mut numbers, samples.newer)?;
        }
        Ok(numbers)
    }
}
