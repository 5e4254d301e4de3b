// What a line of a script says.
use crate::wrong::Place;
use runs::Call;
use smallvec::SmallVec;
use station::StationLine;
use table::Record;
use telegram::LONGEST_TELEGRAM;

// The reply buffer of a burst that names none.
pub(crate) const USUAL_ROOM: usize = LONGEST_TELEGRAM;

// How many slots a statistics board has, and how many samples each of them keeps.
#[derive(Clone, Copy)]
pub(crate) struct Size {
    pub(crate) slots: usize,
    pub(crate) window: usize,
}

#[derive(Clone, Copy)]
pub(crate) enum BoardKind {
    Table,
    Statistics(Size),
}

// Bytes that lie in the memory from `first` on, which is said at `place`.
#[derive(Drop)]
pub(crate) struct Patch {
    pub(crate) place: Place,
    pub(crate) first: usize,
    pub(crate) bytes: Vec<u8>,
}

// What is said of the cabinet before the start.
#[derive(Drop)]
pub(crate) enum Part {
    Station(StationLine),
    Memory(usize),
    Bytes(Patch),
    Board(BoardKind),
    Record(Record),
    Sample { slot: usize, value: i32 },
}

// What is done behind it. A burst owns its bytes. Up to 24 bytes lie in the deed, which is no larger for it, since a put
// takes as much: then a long script needs no block of memory for each poll.
#[derive(Drop)]
pub(crate) enum Deed {
    Burst {
        room: usize,
        bytes: SmallVec<u8, 24>,
    },
    Call(Call<'static>),
    Show(usize),
}

impl Deed {
    // The call that is made, None where there is none.
    pub(crate) fn call(&self) -> Option<Call<'_>> {
        match self {
            Deed::Burst { room, bytes } => Some(Call::Burst {
                bytes: bytes.as_slice(),
                room: *room,
            }),
            Deed::Call(call) => Some(*call),
            Deed::Show(_) => None,
        }
    }
}

#[derive(Drop)]
pub(crate) enum Statement {
    Part(Part),
    Start,
    Deed(Deed),
}

// A statement, and where it begins.
#[derive(Drop)]
pub(crate) struct Line {
    pub(crate) place: Place,
    pub(crate) statement: Statement,
}
