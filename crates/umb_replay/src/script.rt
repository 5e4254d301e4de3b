// A whole script: a cabinet, and the calls that are made of it.
ghost use Rattle.std.specs.Prelude.{◌≡◌, OnOk, OnErr};
ghost use Rattle.station.specs.Replies.{overwritten};

use crate::parse::read_line;
use crate::statement::{BoardKind, Deed, Line, Part, Patch, Size, Statement};
use crate::wrong::{Place, Reason, Wrong};
use anyhow::anyhow;
use station::StationLine;
use std::alloc::Global;
use std::io::BufRead;
use std::mem;
use table::Record;

// A sample that a board holds before the start.
#[derive(Clone, Copy)]
pub(crate) struct Sample {
    pub(crate) line: u64,
    pub(crate) slot: usize,
    pub(crate) value: i32,
}

// A board, and what it holds before the start.
#[derive(Drop)]
pub(crate) enum BoardPlan {
    Table(Vec<Record>),
    Statistics(Size, Vec<Sample>),
}

// What is done, and the line that says so.
#[derive(Drop)]
pub(crate) struct Step {
    pub(crate) line: u64,
    pub(crate) deed: Deed,
}

// What is carried out over a board.
#[derive(Drop)]
pub(crate) struct Scenario {
    pub(crate) stations: Vec<StationLine>,
    pub(crate) memory: Vec<u8>,
    pub(crate) steps: Vec<Step>,
}

#[derive(Drop)]
pub(crate) struct Script {
    pub(crate) board: BoardPlan,
    pub(crate) scenario: Scenario,
}

// The cabinet as far as it is read. Its parts may stand in any order, so that what they ask of each other is looked at
// where the start stands.
#[derive(Drop)]
struct Cabinet {
    stations: Vec<StationLine>,
    memory: Option<usize>,
    patches: Vec<Patch>,
    board: Option<BoardKind>,
    records: Vec<Record>,
    first_record: Option<Place>,
    samples: Vec<Sample>,
    first_sample: Option<Place>,
}

// Lays the bytes of a patch into the memory, where they do not go past its end.
fn lay(memory: &mut [u8], patch: &Patch) -> Result<(), Wrong>
    ensures laid { OnOk result (memory.new ≡ overwritten memory.old patch.now.first patch.now.bytes.items) }
    ensures refused { OnErr result (memory.new ≡ memory.old) }
{
    let past = patch.place.wrong(Reason::PastMemory);
    let end = patch.first.checked_add(patch.bytes.len()).ok_or(past)?;
    if end > memory.len() {
        return Err(past);
    }
    memory[patch.first..end].copy_from_slice(patch.bytes.as_slice());
    Ok(())
}

impl Cabinet {
    fn new(heap: Global) -> Cabinet {
        Cabinet {
            stations: Vec::new(heap),
            memory: None,
            patches: Vec::new(heap),
            board: None,
            records: Vec::new(heap),
            first_record: None,
            samples: Vec::new(heap),
            first_sample: None,
        }
    }

    fn add(&mut self, place: Place, part: Part) -> Result<(), Wrong> {
        match part {
            Part::Station(line) => self.stations.push(line)?,
            Part::Memory(length) => {
                if self.memory.is_some() {
                    return Err(place.wrong(Reason::MemoryTwice));
                }
                self.memory = Some(length);
            }
            Part::Bytes(patch) => self.patches.push(patch)?,
            Part::Board(kind) => {
                if self.board.is_some() {
                    return Err(place.wrong(Reason::BoardTwice));
                }
                self.board = Some(kind);
            }
            Part::Record(record) => {
                self.first_record = self.first_record.or(Some(place));
                self.records.push(record)?;
            }
            Part::Sample { slot, value } => {
                let line = place.line;
                self.first_sample = self.first_sample.or(Some(place));
                self.samples.push(Sample { line, slot, value })?;
            }
        }
        Ok(())
    }

    // The script from the start on. Neither records nor samples may stand there for the other board.
    fn start(self, heap: Global) -> Result<Script, Wrong> {
        let Cabinet {
            stations,
            memory,
            patches,
            board,
            records,
            first_record,
            samples,
            first_sample,
        } = self;
        let board = match board.unwrap_or(BoardKind::Table) {
            BoardKind::Table => {
                if let Some(place) = first_sample {
                    return Err(place.wrong(Reason::SampleElsewhere));
                }
                BoardPlan::Table(records)
            }
            BoardKind::Statistics(size) => {
                if let Some(place) = first_record {
                    return Err(place.wrong(Reason::RecordElsewhere));
                }
                BoardPlan::Statistics(size, samples)
            }
        };
        let mut memory = vec![in heap; 0u8; memory.unwrap_or(0)]?;
        for patch in patches.iter() {
            lay(memory.as_mut_slice(), patch)?;
        }
        let steps = Vec::new(heap);
        let scenario = Scenario {
            stations,
            memory,
            steps,
        };
        Ok(Script { board, scenario })
    }
}

// A script as far as it is read: up to its start, or beyond.
#[derive(Drop)]
enum Draft {
    Before(Cabinet),
    Behind(Script),
}

impl Draft {
    // A line changes the draft in place: it is too large to be moved for each.
    fn add(&mut self, heap: Global, line: Line) -> Result<(), Wrong> {
        let Line { place, statement } = line;
        match self {
            Draft::Before(cabinet) => match statement {
                Statement::Part(part) => cabinet.add(place, part),
                Statement::Start => {
                    let cabinet = mem::replace(cabinet, Cabinet::new(heap));
                    *self = Draft::Behind(cabinet.start(heap)?);
                    Ok(())
                }
                Statement::Deed(_) => Err(place.wrong(Reason::BeforeStart)),
            },
            Draft::Behind(script) => match statement {
                Statement::Part(_) => Err(place.wrong(Reason::AfterStart)),
                Statement::Start => Err(place.wrong(Reason::StartTwice)),
                Statement::Deed(deed) => {
                    let line = place.line;
                    script.scenario.steps.push(Step { line, deed })?;
                    Ok(())
                }
            },
        }
    }

    // The whole script, which ends before this line.
    fn finish(self, line: u64) -> Result<Script, Wrong> {
        match self {
            Draft::Before(_) => Err(Place { line, column: 1 }.wrong(Reason::NoStart)),
            Draft::Behind(script) => Ok(script),
        }
    }
}

// Reads a script to its end.
pub(crate) fn read<R: BufRead + Drop>(heap: Global, mut input: R) -> anyhow::Result<Script> {
    let mut draft = Draft::Before(Cabinet::new(heap));
    let mut text = Vec::new(heap);
    for number in 1..u64::MAX {
        text.clear();
        if input.read_until(b'\n', &mut text)? == 0 {
            return Ok(draft.finish(number)?);
        }
        let line = text.strip_suffix(b"\n").unwrap_or(text.as_slice());
        if let Some(line) = read_line(heap, number, line)? {
            draft.add(heap, line)?;
        }
    }
    Err(anyhow!("the script has too many lines"))
}
