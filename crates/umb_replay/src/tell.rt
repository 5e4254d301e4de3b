// What came of the calls, in words.
use crate::meaning::Meaning;
use crate::refused::Refused;
use runs::{Call, Drawn, Entry, Reply};
use std::fmt;

// How many of something there are.
#[derive(Clone, Copy)]
pub(crate) struct Count(pub(crate) usize, pub(crate) &'static str);

impl fmt::Display for Count {
    fn fmt<W: fmt::Write>(&self, f: &mut fmt::Formatter<W>) -> fmt::Result {
        let Count(count, noun) = *self;
        let ending = if count == 1 { "" } else { "s" };
        write!(f, "{count} {noun}{ending}")
    }
}

// Bytes in hex, a blank before each.
#[derive(Clone, Copy)]
pub(crate) struct Hex<'a>(pub(crate) &'a [u8]);

impl fmt::Display for Hex<'_> {
    fn fmt<W: fmt::Write>(&self, f: &mut fmt::Formatter<W>) -> fmt::Result {
        for byte in self.0 {
            write!(f, " {byte:02X}")?;
        }
        Ok(())
    }
}

// Which call was made.
#[derive(Clone, Copy)]
struct Made<'a>(Call<'a>);

impl fmt::Display for Made<'_> {
    fn fmt<W: fmt::Write>(&self, f: &mut fmt::Formatter<W>) -> fmt::Result {
        match self.0 {
            Call::Burst { bytes, .. } => {
                let count = Count(bytes.len(), "byte");
                write!(f, "burst of {count}")
            }
            Call::Put { slot, channel, .. } => write!(f, "put on slot {slot}, channel {channel}"),
            Call::Condition { slot, .. } => write!(f, "condition of slot {slot}"),
            Call::Tick { seconds } => write!(f, "tick of {seconds} s"),
        }
    }
}

// A reply with its bytes and what they mean.
#[derive(Clone, Copy)]
struct Answer<'a>(&'a Reply);

impl fmt::Display for Answer<'_> {
    fn fmt<W: fmt::Write>(&self, f: &mut fmt::Formatter<W>) -> fmt::Result {
        let slot = self.0.slot;
        let bytes = self.0.bytes.as_slice();
        let count = Count(bytes.len(), "byte");
        let hex = Hex(bytes);
        let meaning = Meaning(bytes);
        write!(f, "reply of slot {slot}, {count}\n {hex}\n  {meaning}")
    }
}

// A call that stands on a line of the script, and what came of it.
#[derive(Clone, Copy)]
pub(crate) struct Event<'a> {
    pub(crate) line: u64,
    pub(crate) entry: &'a Entry<'a>,
}

impl fmt::Display for Event<'_> {
    fn fmt<W: fmt::Write>(&self, f: &mut fmt::Formatter<W>) -> fmt::Result {
        let Event { line, entry } = *self;
        write!(f, "line {line}: {}: ", Made(entry.call))?;
        match &entry.told {
            None => f.write_str("not made"),
            Some(Ok(Drawn::Silence)) => f.write_str("silence"),
            Some(Ok(Drawn::Replied(reply))) => write!(f, "{}", Answer(reply)),
            Some(Ok(Drawn::Done)) => f.write_str("done"),
            Some(Err(fault)) => write!(f, "{}", Refused(*fault)),
        }
    }
}
