// A line of a script read.
use crate::statement::{BoardKind, Deed, Line, Part, Patch, Size, Statement, USUAL_ROOM};
use crate::values::{read_outcome, read_typed_outcome};
use crate::words::{Word, Words};
use crate::wrong::{Item, Place, Reason, Wrong};
use address::Address;
use capture::{HexFault, Kind, classify, decode};
use runs::Call;
use smallvec::SmallVec;
use station::StationLine;
use std::alloc::Global;
use table::Record;

// The limits of docs/SCRIPTS.md on a reply buffer and on the memory.
const MOST_ROOM: u64 = 65_536;

const MOST_MEMORY: u64 = 16_777_216;

fn read_hex(heap: Global, word: Word<'_>) -> Result<Vec<u8>, Wrong> {
    let before = word.place.column.saturating_sub(1);
    let (column, reason) = match decode(heap, word.text) {
        Ok(bytes) => return Ok(bytes),
        Err(HexFault::NotHex { column, character }) => (column, Reason::NoHexDigit(character)),
        Err(HexFault::HalfByte { column }) => (column, Reason::HalfByte),
        Err(HexFault::OutOfMemory) => return Err(Wrong::OutOfMemory),
    };
    let place = Place {
        line: word.place.line,
        column: before.saturating_add(column),
    };
    Err(place.wrong(reason))
}

fn read_station(words: &mut Words<'_>) -> Result<Part, Wrong> {
    Ok(Part::Station(StationLine {
        address: Address(words.number(Item::Address)?),
        first: words.number(Item::WindowPlace)?,
        size: words.number(Item::WindowSize)?,
        protected: words.number(Item::Protected)?,
    }))
}

fn read_memory(words: &mut Words<'_>) -> Result<Part, Wrong> {
    let length = words.number_up_to(Item::MemoryLength, MOST_MEMORY)?;
    Ok(Part::Memory(length))
}

fn read_bytes(heap: Global, words: &mut Words<'_>) -> Result<Part, Wrong> {
    let word = words.need(Item::Position)?;
    let first = word.number_up_to(Item::Position, MOST_MEMORY)?;
    let behind = words.place();
    let bytes = read_hex(heap, words.take_rest())?;
    if bytes.is_empty() {
        return Err(behind.wrong(Reason::Missing(Item::Hex)));
    }
    Ok(Part::Bytes(Patch {
        place: word.place,
        first,
        bytes,
    }))
}

fn read_board(words: &mut Words<'_>) -> Result<Part, Wrong> {
    let word = words.need(Item::Board)?;
    match word.text {
        b"table" => Ok(Part::Board(BoardKind::Table)),
        b"statistics" => Ok(Part::Board(BoardKind::Statistics(Size {
            slots: words.number(Item::SlotCount)?,
            window: words.number(Item::WindowLength)?,
        }))),
        _ => Err(word.wrong(Reason::NoBoard)),
    }
}

fn read_record(words: &mut Words<'_>) -> Result<Part, Wrong> {
    let slot = words.number(Item::Slot)?;
    let channel = words.number(Item::Channel)?;
    let (kind, outcome) = read_typed_outcome(words)?;
    Ok(Part::Record(Record {
        slot,
        channel,
        kind,
        outcome,
    }))
}

fn read_sample(words: &mut Words<'_>) -> Result<Part, Wrong> {
    let slot = words.number(Item::Slot)?;
    let word = words.need(Item::Value)?;
    let value = i32::try_from(word.whole()?).map_err(|_| word.wrong(Reason::Unfit))?;
    Ok(Part::Sample { slot, value })
}

fn read_put(words: &mut Words<'_>) -> Result<Deed, Wrong> {
    Ok(Deed::Call(Call::Put {
        slot: words.number(Item::Slot)?,
        channel: words.number(Item::Channel)?,
        outcome: read_outcome(words)?,
    }))
}

fn read_condition(words: &mut Words<'_>) -> Result<Deed, Wrong> {
    Ok(Deed::Call(Call::Condition {
        slot: words.number(Item::Slot)?,
        code: words.number(Item::Code)?,
    }))
}

fn read_tick(words: &mut Words<'_>) -> Result<Deed, Wrong> {
    let seconds = words.number(Item::Seconds)?;
    Ok(Deed::Call(Call::Tick { seconds }))
}

fn read_show(words: &mut Words<'_>) -> Result<Deed, Wrong> {
    Ok(Deed::Show(words.number(Item::Slot)?))
}

// The room of the reply buffer, and the hex behind it.
fn read_room<'a>(rest: Word<'a>) -> Result<(usize, Word<'a>), Wrong> {
    let Some(length) = rest.text.iter().position(|&byte| byte == b':') else {
        return Ok((USUAL_ROOM, rest));
    };
    let (front, behind) = rest.split(length);
    let mut words = Words::of(front);
    let room = words.number_up_to(Item::Room, MOST_ROOM)?;
    words.end()?;
    Ok((room, behind.split(1).1))
}

// A burst of the bytes that are spelled.
fn burst_of(heap: Global, room: usize, spelled: Word<'_>) -> Result<Deed, Wrong> {
    let bytes = read_hex(heap, spelled)?;
    Ok(Deed::Burst {
        room,
        bytes: SmallVec::from_slice(heap, bytes.as_slice())?,
    })
}

fn read_burst(heap: Global, words: &mut Words<'_>) -> Result<Deed, Wrong> {
    let (room, spelled) = read_room(words.take_rest())?;
    burst_of(heap, room, spelled)
}

// Whether a word begins with two hex digits.
fn begins_with_byte(text: &[u8]) -> bool {
    let [high, low, ..] = text else {
        return false;
    };
    matches!(classify(*high), Kind::Digit(_)) && matches!(classify(*low), Kind::Digit(_))
}

fn read_part(heap: Global, first: Word<'_>, words: &mut Words<'_>) -> Result<Option<Part>, Wrong> {
    Ok(Some(match first.text {
        b"station" => read_station(words)?,
        b"memory" => read_memory(words)?,
        b"bytes" => read_bytes(heap, words)?,
        b"board" => read_board(words)?,
        b"record" => read_record(words)?,
        b"sample" => read_sample(words)?,
        _ => return Ok(None),
    }))
}

fn read_deed(heap: Global, first: Word<'_>, words: &mut Words<'_>) -> Result<Option<Deed>, Wrong> {
    Ok(Some(match first.text {
        b"burst" => read_burst(heap, words)?,
        b"put" => read_put(words)?,
        b"condition" => read_condition(words)?,
        b"tick" => read_tick(words)?,
        b"show" => read_show(words)?,
        _ => return Ok(None),
    }))
}

fn read_statement(
    heap: Global,
    first: Word<'_>,
    words: &mut Words<'_>,
) -> Result<Statement, Wrong> {
    if matches!(first.text, b"start") {
        return Ok(Statement::Start);
    }
    if let Some(part) = read_part(heap, first, words)? {
        return Ok(Statement::Part(part));
    }
    match read_deed(heap, first, words)? {
        Some(deed) => Ok(Statement::Deed(deed)),
        None => Err(first.wrong(Reason::NoStatement)),
    }
}

// What a line says; nothing where it is blank or a comment.
pub(crate) fn read_line(heap: Global, number: u64, text: &[u8]) -> Result<Option<Line>, Wrong> {
    let whole = Word::line(number, text);
    let mut words = Words::of(whole);
    let Some(first) = words.next_word() else {
        return Ok(None);
    };
    let place = first.place;
    if begins_with_byte(first.text) {
        let statement = Statement::Deed(burst_of(heap, USUAL_ROOM, whole)?);
        return Ok(Some(Line { place, statement }));
    }
    let statement = read_statement(heap, first, &mut words)?;
    words.end()?;
    Ok(Some(Line { place, statement }))
}
