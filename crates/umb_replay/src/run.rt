// A script that is carried out.
use crate::refused::Refused;
use crate::script::{BoardPlan, Sample, Scenario, Script, Step};
use crate::statement::{Deed, Size, USUAL_ROOM};
use crate::tell::{Count, Event, Hex};
use anyhow::anyhow;
use board::Board;
use head::{Head, LineRecord};
use readings::{Outcome, Reading};
use refusals::Refusal;
use runs::{Entry, replay};
use shares::Shares;
use statistics::{MOST_SAMPLES, MOST_SLOTS, Statistics};
use std::alloc::{AllocError, Global};
use table::{Record, Table};

// The channel by which a statistics board takes a sample.
const SAMPLE_CHANNEL: u16 = 100;

// A head with all that its calls are brought.
#[derive(Drop)]
struct Session<B> {
    head: Head,
    board: B,
    memory: Vec<u8>,
    line: LineRecord,
    buffer: Vec<u8>,
}

// The calls of some steps, none of them made yet.
fn entries<'a>(heap: Global, steps: &'a [Step]) -> Result<Vec<Entry<'a>>, AllocError> {
    steps
        .iter()
        .filter_map(|step| step.deed.call())
        .map(|call| Entry { call, told: None })
        .collect(heap)
}

impl<B: Shares> Session<B> {
    // Makes the calls of some steps and tells what came of each. Only the last step may be a show.
    fn make(&mut self, rt: &HostRuntime, steps: &[Step]) -> anyhow::Result<()> {
        let mut entries = entries(rt.alloc(), steps)?;
        let ran = replay(
            &mut self.head,
            &mut self.board,
            self.memory.as_mut_slice(),
            &mut self.line,
            self.buffer.as_mut_slice(),
            entries.as_mut_slice(),
        );
        ran.map_err(|refusal| anyhow!("the calls are refused, number {}", refusal.number()))?;
        for (step, entry) in steps.iter().zip(entries.iter()) {
            let event = Event {
                line: step.line,
                entry,
            };
            println!(rt; "{event}")?;
        }
        Ok(())
    }

    // The station in a slot. It stays out of the loop that makes the calls.
    #[inline(never)]
    fn show(&self, rt: &HostRuntime, line: u64, slot: usize) -> anyhow::Result<()> {
        let (Some(station), Some(record)) = (self.head.line(slot), self.head.record(slot)) else {
            println!(rt; "line {line}: slot {slot}: there is no station in this slot")?;
            return Ok(());
        };
        println!(rt; "line {line}: slot {slot}")?;
        let size = Count(station.size as usize, "byte");
        println!(rt;
            "  station {:04X}h, window from {}, {}, {} protected",
            station.address.0, station.first, size, station.protected
        )?;
        println!(rt;
            "  record: clock {}, condition {:02X}h, last status {:02X}h",
            record.clock, record.condition, record.last
        )?;
        let first = station.first as usize;
        let end = first + station.size as usize;
        let settings = Hex(self.memory.as_slice().get(first..end).unwrap_or(&[]));
        println!(rt; "  settings:{settings}")?;
        print!(rt; "  share:")?;
        for number in self.board.numbers(rt.alloc(), slot)? {
            print!(rt; " {number}")?;
        }
        println!(rt; "")?;
        Ok(())
    }

    // Makes the calls between two shows together.
    fn run(&mut self, rt: &HostRuntime, steps: &[Step]) -> anyhow::Result<()> {
        for stretch in steps.split_inclusive(|step| matches!(step.deed, Deed::Show(_))) {
            self.make(rt, stretch)?;
            if let Some(
                Step {
                    line,
                    deed: Deed::Show(slot),
                },
            ) = stretch.last()
            {
                self.show(rt, *line, *slot)?;
            }
        }
        Ok(())
    }
}

// What was made, or nothing where it is refused, which is then told.
fn accepted<T: Drop, R: Refusal + Drop>(
    rt: &HostRuntime,
    what: &str,
    made: Result<T, R>,
) -> anyhow::Result<Option<T>> {
    match made {
        Ok(made) => Ok(Some(made)),
        Err(refusal) => {
            println!(rt; "{what}: {}", Refused(refusal))?;
            Ok(None)
        }
    }
}

impl Scenario {
    // Starts a head over the board, and does what the steps say.
    fn run<B: Shares + Drop>(self, rt: &HostRuntime, board: B) -> anyhow::Result<()> {
        let Scenario {
            stations,
            memory,
            steps,
        } = self;
        let started = Head::start(stations.as_slice(), memory.len(), &board);
        let Some(head) = accepted(rt, "start", started)? else {
            return Ok(());
        };
        let count = Count(head.count(), "station");
        let size = Count(memory.len(), "byte");
        println!(rt; "start: {count}, memory of {size}")?;
        let room = steps.iter().fold(USUAL_ROOM, |room, step| match step.deed {
            Deed::Burst { room: asked, .. } => room.max(asked),
            _ => room,
        });
        let mut session = Session {
            head,
            board,
            memory,
            line: LineRecord::new(),
            buffer: vec![in rt.alloc(); 0u8; room]?,
        };
        session.run(rt, steps.as_slice())
    }

    fn run_on_table(self, rt: &HostRuntime, mut records: Vec<Record>) -> anyhow::Result<()> {
        let count = Count(records.len(), "record");
        let made = Table::new(records.as_mut_slice());
        let Some(table) = accepted(rt, "board", made)? else {
            return Ok(());
        };
        println!(rt; "board: table, {count}")?;
        self.run(rt, table)
    }

    fn run_on_statistics(
        self,
        rt: &HostRuntime,
        size: Size,
        samples: &[Sample],
    ) -> anyhow::Result<()> {
        let Size { slots, window } = size;
        let room = slots.min(MOST_SLOTS) * window.min(MOST_SAMPLES);
        let mut items = vec![in rt.alloc(); 0i32; room]?;
        let made = Statistics::new(items.as_mut_slice(), slots, window);
        let Some(mut board) = accepted(rt, "board", made)? else {
            return Ok(());
        };
        let slots = Count(slots, "slot");
        let kept = Count(window, "sample");
        println!(rt; "board: statistics, {slots} of {kept}")?;
        put_samples(rt, &mut board, samples)?;
        self.run(rt, board)
    }
}

fn put_samples(
    rt: &HostRuntime,
    board: &mut Statistics<'_>,
    samples: &[Sample],
) -> anyhow::Result<()> {
    for sample in samples {
        let line = sample.line;
        let slot = sample.slot;
        let outcome = Outcome::Value(Reading::I32(sample.value));
        if let Err(refusal) = board.put(slot, SAMPLE_CHANNEL, outcome) {
            let refused = Refused(refusal);
            println!(rt; "line {line}: sample for slot {slot}: {refused}")?;
        }
    }
    Ok(())
}

// Carries a script out.
pub(crate) fn run(rt: &HostRuntime, script: Script) -> anyhow::Result<()> {
    let Script { board, scenario } = script;
    match board {
        BoardPlan::Table(records) => scenario.run_on_table(rt, records),
        BoardPlan::Statistics(size, samples) => {
            scenario.run_on_statistics(rt, size, samples.as_slice())
        }
    }
}
