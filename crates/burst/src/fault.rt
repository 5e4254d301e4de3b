// What can be wrong with a burst. One definition, `told`, gives every case its number, layer and position.
ghost use Rattle.std.specs.Prelude.{◌≡◌, Some};
ghost use Rattle.burst.specs.Reading.{line_told, told};
ghost use Rattle.burst.specs.declared.fault.ReadFault.TheVariants.{AtLine};

use refusals::Refusal;
use std::error::Error;
use std::fmt;

// The layer of the protocol at which a fault is found.
#[derive(Clone, Copy, Debug, PartialEq, Eq)]
pub enum Layer {
    Line,
    Telegram,
    Answer,
}

impl fmt::Display for Layer {
    fn fmt<W: fmt::Write>(&self, f: &mut fmt::Formatter<W>) -> fmt::Result {
        match self {
            Layer::Line => write!(f, "line"),
            Layer::Telegram => write!(f, "telegram"),
            Layer::Answer => write!(f, "answer"),
        }
    }
}

// Where in the burst a fault lies.
#[derive(Clone, Copy, Debug, PartialEq, Eq)]
pub struct Place {
    pub layer: Layer,
    pub position: usize,
}

// Why no telegram stands in a burst, told of its first SOH.
#[derive(Clone, Copy, Debug, PartialEq, Eq)]
pub enum LineFault {
    NoSoh { end: usize },
    EndsBeforeLen { end: usize },
    LenOutOfRange { position: usize },
    EndsTooEarly { end: usize },
    WrongStx { position: usize },
    WrongEtx { position: usize },
    WrongEot { position: usize },
    WrongChecksum { position: usize },
}

impl fmt::Display for LineFault {
    fn fmt<W: fmt::Write>(&self, f: &mut fmt::Formatter<W>) -> fmt::Result {
        match self {
            LineFault::NoSoh { .. } => write!(f, "no SOH (01h) stands in it"),
            LineFault::EndsBeforeLen { .. } => write!(
                f,
                "it ends before the len of the telegram that its first SOH begins"
            ),
            LineFault::LenOutOfRange { .. } => write!(f, "len is not 2 to 212"),
            LineFault::EndsTooEarly { .. } => write!(
                f,
                "it ends before the telegram that its first SOH begins"
            ),
            LineFault::WrongStx { .. } => write!(f, "no STX (02h) where it should stand"),
            LineFault::WrongEtx { .. } => write!(f, "no ETX (03h) where it should stand"),
            LineFault::WrongEot { .. } => write!(f, "no EOT (04h) where it should stand"),
            LineFault::WrongChecksum { .. } => write!(f, "the checksum does not fit"),
        }
    }
}

impl Error for LineFault {}

// Why a burst could not be read.
#[derive(Clone, Copy, Debug, PartialEq, Eq)]
pub enum ReadFault {
    // It has more than 512 bytes.
    TooLong,
    AtLine(LineFault),
}

impl From<LineFault> for ReadFault {
    ghost from_gives = { λ f r. r ≡ AtLine f };

    fn from(fault: LineFault) -> ReadFault {
        ReadFault::AtLine(fault)
    }
}

impl fmt::Display for ReadFault {
    fn fmt<W: fmt::Write>(&self, f: &mut fmt::Formatter<W>) -> fmt::Result {
        match self {
            ReadFault::TooLong => write!(f, "the burst has more than 512 bytes"),
            ReadFault::AtLine(fault) => write!(f, "{fault}"),
        }
    }
}

impl Error for ReadFault {}

impl Refusal for LineFault {
    ghost number = { λ fault. (line_told fault).number };

    fn number(&self) -> u8 {
        match self {
            LineFault::NoSoh { .. } => 60,
            LineFault::LenOutOfRange { .. } => 61,
            LineFault::EndsBeforeLen { .. } | LineFault::EndsTooEarly { .. } => 62,
            LineFault::WrongStx { .. } | LineFault::WrongEtx { .. } | LineFault::WrongEot { .. } =>
                63,
            LineFault::WrongChecksum { .. } => 64,
        }
    }
}

impl LineFault {
    pub fn place(self) -> Place
        ensures { (line_told self).place ≡ Some result }
    {
        let position = match self {
            LineFault::NoSoh { end }
            | LineFault::EndsBeforeLen { end }
            | LineFault::EndsTooEarly { end } => end,
            LineFault::LenOutOfRange { position }
            | LineFault::WrongStx { position }
            | LineFault::WrongEtx { position }
            | LineFault::WrongEot { position }
            | LineFault::WrongChecksum { position } => position,
        };
        Place {
            layer: Layer::Line,
            position,
        }
    }
}

impl Refusal for ReadFault {
    ghost number = { λ fault. (told fault).number };

    fn number(&self) -> u8 {
        match self {
            ReadFault::TooLong => 10,
            ReadFault::AtLine(fault) => fault.number(),
        }
    }
}

impl ReadFault {
    // None where only the number is told.
    pub fn place(self) -> Option<Place>
        ensures { result ≡ (told self).place }
    {
        match self {
            ReadFault::TooLong => None,
            ReadFault::AtLine(fault) => Some(fault.place()),
        }
    }
}
