// What a reply says, in words.
use burst::read;
use readings::Reading;
use report::Command;
use std::fmt;

#[derive(Clone, Copy)]
struct Value(Reading);

impl fmt::Display for Value {
    fn fmt<W: fmt::Write>(&self, f: &mut fmt::Formatter<W>) -> fmt::Result {
        match self.0 {
            Reading::U8(n) => write!(f, "u8 {n}"),
            Reading::I8(n) => write!(f, "i8 {n}"),
            Reading::U16(n) => write!(f, "u16 {n}"),
            Reading::I16(n) => write!(f, "i16 {n}"),
            Reading::U32(n) => write!(f, "u32 {n}"),
            Reading::I32(n) => write!(f, "i32 {n}"),
            Reading::F32(x) => write!(f, "f32 {} (bits {:08X}h)", x.get(), x.to_bits()),
            Reading::F64(x) => write!(f, "f64 {} (bits {:016X}h)", x.get(), x.to_bits()),
        }
    }
}

// A channel, and the value that its type's code and its bytes say.
#[derive(Clone, Copy)]
struct Measured<'a> {
    channel: u16,
    code: u8,
    bytes: &'a [u8],
}

impl fmt::Display for Measured<'_> {
    fn fmt<W: fmt::Write>(&self, f: &mut fmt::Formatter<W>) -> fmt::Result {
        let Measured {
            channel,
            code,
            bytes,
        } = *self;
        match Reading::read(code, bytes) {
            Ok(reading) => write!(f, "channel {channel}, {}", Value(reading)),
            Err(_) => write!(f, "channel {channel}, no value that can be read"),
        }
    }
}

// A part of a reply to 2Fh: a channel's value or fault.
#[derive(Clone, Copy)]
struct Part<'a>(&'a [u8]);

impl fmt::Display for Part<'_> {
    fn fmt<W: fmt::Write>(&self, f: &mut fmt::Formatter<W>) -> fmt::Result {
        match self.0 {
            [0, low, high, code, bytes @ ..] => {
                let channel = u16::from_le_bytes([*low, *high]);
                let code = *code;
                write!(
                    f,
                    "{}",
                    Measured {
                        channel,
                        code,
                        bytes
                    }
                )
            }
            [fault, low, high] => {
                let channel = u16::from_le_bytes([*low, *high]);
                write!(f, "channel {channel}, fault {fault:02X}h")
            }
            _ => f.write_str("no part that can be read"),
        }
    }
}

// The first part, which its length stands before, and what lies behind it.
fn first_part(parts: &[u8]) -> Option<(&[u8], &[u8])> {
    let (length, behind) = parts.split_first()?;
    behind.split_at_checked(usize::from(*length))
}

// So many parts, as far as they are there.
#[derive(Clone, Copy)]
struct Parts<'a> {
    count: u8,
    bytes: &'a [u8],
}

impl fmt::Display for Parts<'_> {
    fn fmt<W: fmt::Write>(&self, f: &mut fmt::Formatter<W>) -> fmt::Result {
        let mut rest = self.bytes;
        let mut mark = ":";
        for _ in 0..self.count {
            let Some((part, others)) = first_part(rest) else {
                return Ok(());
            };
            write!(f, "{mark} {}", Part(part))?;
            mark = ";";
            rest = others;
        }
        Ok(())
    }
}

// What follows the status in a reply to a command.
#[derive(Clone, Copy)]
struct Rest<'a> {
    command: u8,
    status: u8,
    bytes: &'a [u8],
}

impl fmt::Display for Rest<'_> {
    fn fmt<W: fmt::Write>(&self, f: &mut fmt::Formatter<W>) -> fmt::Result {
        match (self.command, self.status, self.bytes) {
            (0x21 | 0x22 | 0x2f, 0x22, [limit]) => write!(f, ": at most {limit}"),
            (0x21, 0, [low, high, length, ..]) => {
                let start = u16::from_le_bytes([*low, *high]);
                write!(f, ": start {start}, length {length}")
            }
            (0x23, 0, [low, high, code, bytes @ ..]) => {
                let channel = u16::from_le_bytes([*low, *high]);
                let code = *code;
                write!(
                    f,
                    ": {}",
                    Measured {
                        channel,
                        code,
                        bytes
                    }
                )
            }
            (0x23, _, [low, high]) => {
                let channel = u16::from_le_bytes([*low, *high]);
                write!(f, ": channel {channel}")
            }
            (0x26, 0, [condition]) => write!(f, ": condition {condition:02X}h"),
            (0x28, 0, [a, b, c, d]) => {
                let clock = u32::from_le_bytes([*a, *b, *c, *d]);
                write!(f, ": clock {clock}")
            }
            (0x2c, 0, [last]) => write!(f, ": last status {last:02X}h"),
            (0x2f, 0, [count, bytes @ ..]) => {
                let count = *count;
                write!(f, "{}", Parts { count, bytes })
            }
            _ => Ok(()),
        }
    }
}

// The bytes of a reply.
#[derive(Clone, Copy)]
pub(crate) struct Meaning<'a>(pub(crate) &'a [u8]);

impl fmt::Display for Meaning<'_> {
    fn fmt<W: fmt::Write>(&self, f: &mut fmt::Formatter<W>) -> fmt::Result {
        let Ok(telegram) = read(self.0) else {
            return f.write_str("no telegram");
        };
        let fields = telegram.fields();
        let command = fields.command;
        let name = Command(command);
        let [status, bytes @ ..] = fields.payload else {
            return write!(f, "{name}, no status");
        };
        let status = *status;
        let rest = Rest {
            command,
            status,
            bytes,
        };
        write!(f, "{name}, status {status:02X}h{rest}")
    }
}
