// What a burst holds, in words.
use super::words::{Command, Named};
use burst::{LineFault, ReadFault};
use capture::HexFault;
use refusals::Refusal;
use std::fmt;
use telegram::{Part, Telegram};

const ROW: usize = 16;

// Bytes in hex, sixteen to a row, each row with the position of its first byte, and a caret under one of them.
#[derive(Clone, Copy, Debug, PartialEq, Eq)]
struct Rows<'a> {
    bytes: &'a [u8],
    first: usize,
    caret: Option<usize>,
}

// A caret under the byte that is `offset` places into a row.
fn point_at<W: fmt::Write>(f: &mut fmt::Formatter<W>, offset: usize) -> fmt::Result {
    write!(f, "\n        ")?;
    for _ in 0..offset {
        write!(f, "   ")?;
    }
    write!(f, "^^")
}

impl fmt::Display for Rows<'_> {
    fn fmt<W: fmt::Write>(&self, f: &mut fmt::Formatter<W>) -> fmt::Result {
        let end = self.first.saturating_add(self.bytes.len());
        for (position, row) in (self.first..end).step_by(ROW).zip(self.bytes.chunks(ROW)) {
            write!(f, "\n  {position:>4} ")?;
            for byte in row {
                write!(f, " {byte:02X}")?;
            }
            if let Some(caret) = self.caret {
                let offset = caret.saturating_sub(position);
                let here = offset < row.len() || (offset == row.len() && caret == end);
                if position <= caret && here {
                    point_at(f, offset)?;
                }
            }
        }
        Ok(())
    }
}

// What stands on one line of a capture.
#[derive(Clone, Copy, Debug, PartialEq, Eq)]
pub struct Report<'a> {
    pub line: u64,
    pub burst: &'a [u8],
    pub finding: Result<Telegram<'a>, ReadFault>,
}

// A field of a telegram: its position and its name.
fn field<W: fmt::Write>(f: &mut fmt::Formatter<W>, part: Part<'_>, name: &str) -> fmt::Result {
    let position = part.position;
    write!(f, "\n  {position:>4}  {name:<16}")
}

// A version number: the upper four bits, a dot, the lower four.
fn version_field<W: fmt::Write>(f: &mut fmt::Formatter<W>, byte: u8) -> fmt::Result {
    let major = byte / 16;
    let minor = byte % 16;
    write!(f, "{byte:02X}h    {major}.{minor}")
}

fn addresses<W: fmt::Write>(f: &mut fmt::Formatter<W>, telegram: &Telegram<'_>) -> fmt::Result {
    let fields = telegram.fields();
    let receiver = fields.receiver;
    let sender = fields.sender;
    field(f, telegram.receiver(), "receiver")?;
    let name = Named(receiver);
    write!(f, "{:04X}h  {name}", receiver.0)?;
    field(f, telegram.sender(), "sender")?;
    let name = Named(sender);
    write!(f, "{:04X}h  {name}", sender.0)
}

fn telegram_rows<W: fmt::Write>(f: &mut fmt::Formatter<W>, telegram: &Telegram<'_>) -> fmt::Result {
    let fields = telegram.fields();
    let command = fields.command;
    field(f, telegram.version(), "version")?;
    version_field(f, fields.version)?;
    addresses(f, telegram)?;
    field(f, telegram.command(), "command")?;
    let name = Command(command);
    write!(f, "{command:02X}h    {name}")?;
    field(f, telegram.command_version(), "command version")?;
    version_field(f, fields.command_version)?;
    payload_rows(f, telegram)?;
    field(f, telegram.checksum(), "checksum")?;
    write!(f, "{:04X}h", telegram.checksum().number())
}

fn payload_rows<W: fmt::Write>(f: &mut fmt::Formatter<W>, telegram: &Telegram<'_>) -> fmt::Result {
    let payload = telegram.payload();
    field(f, payload, "payload")?;
    let count = payload.bytes.len();
    let noun = if count == 1 { "byte" } else { "bytes" };
    write!(f, "{count} {noun}")?;
    let rows = Rows {
        bytes: payload.bytes,
        first: payload.position,
        caret: None,
    };
    write!(f, "{rows}")
}

fn fault_rows<W: fmt::Write>(
    f: &mut fmt::Formatter<W>,
    report: &Report<'_>,
    fault: LineFault,
) -> fmt::Result {
    let place = fault.place();
    let position = place.position;
    let rows = Rows {
        bytes: report.burst,
        first: 0,
        caret: Some(position),
    };
    let number = fault.number();
    let layer = place.layer;
    write!(
        f,
        "fault {number}, layer {layer}, position {position}: {fault}{rows}"
    )
}

impl fmt::Display for Report<'_> {
    fn fmt<W: fmt::Write>(&self, f: &mut fmt::Formatter<W>) -> fmt::Result {
        let line = self.line;
        let count = self.burst.len();
        write!(f, "line {line}: ")?;
        match self.finding {
            Ok(telegram) => {
                let position = telegram.position();
                let length = telegram.length();
                write!(
                    f,
                    "telegram at position {position}, {length} of {count} bytes"
                )?;
                telegram_rows(f, &telegram)
            }
            Err(ReadFault::AtLine(fault)) => fault_rows(f, self, fault),
            Err(fault) => {
                let number = fault.number();
                write!(
                    f,
                    "refused, number {number}: {count} bytes are more than the 512 of a burst"
                )
            }
        }
    }
}

// A line that spells no burst.
#[derive(Clone, Copy, Debug, PartialEq, Eq)]
pub struct BadLine {
    pub line: u64,
    pub fault: HexFault,
}

impl fmt::Display for BadLine {
    fn fmt<W: fmt::Write>(&self, f: &mut fmt::Formatter<W>) -> fmt::Result {
        let line = self.line;
        match self.fault {
            HexFault::OutOfMemory => write!(f, "line {line}: {}", HexFault::OutOfMemory),
            fault => write!(f, "line {line}, {fault}"),
        }
    }
}
