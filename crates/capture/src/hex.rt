// Lines of a capture, in hex.
ghost use Rattle.std.specs.Prelude.{◌≡◌};
ghost use Rattle.capture.specs.Hex.{kind_of, Decoded};
ghost use Rattle.capture.specs.declared.hex.HexFault.TheVariants.{OutOfMemory};

use std::alloc::{AllocFailed, Global};
use std::error::Error;
use std::fmt;

// What a character of a line is.
#[derive(Clone, Copy, Debug, PartialEq, Eq)]
pub enum Kind {
    Digit(u8),
    Blank,
    Comment,
    Other,
}

// Why a line is no burst. Columns count from 1.
#[derive(Clone, Copy, Debug, PartialEq, Eq)]
pub enum HexFault {
    // A character that has no place in a line.
    NotHex { column: usize, character: u8 },
    // A hex digit with no second one behind it.
    HalfByte { column: usize },
    OutOfMemory,
}

impl fmt::Display for HexFault {
    fn fmt<W: fmt::Write>(&self, f: &mut fmt::Formatter<W>) -> fmt::Result {
        match *self {
            HexFault::NotHex { column, character } if character.is_ascii_graphic() => {
                let shown = character as char;
                write!(f, "column {column}: '{shown}' is no hex digit")
            }
            HexFault::NotHex { column, character } => write!(
                f,
                "column {column}: the byte {character:02X}h is no hex digit"
            ),
            HexFault::HalfByte { column } => write!(
                f,
                "column {column}: this hex digit has no second one behind it"
            ),
            HexFault::OutOfMemory => write!(f, "out of memory"),
        }
    }
}

impl Error for HexFault {}

impl<T: Drop> From<AllocFailed<T>> for HexFault {
    ghost from_gives = { λ _ r. r ≡ OutOfMemory };

    fn from(_refused: AllocFailed<T>) -> HexFault {
        HexFault::OutOfMemory
    }
}

pub fn classify(character: u8) -> Kind
    ensures { result ≡ kind_of character }
{
    match character {
        b'0'..=b'9' => Kind::Digit(character - b'0'),
        b'A'..=b'F' => Kind::Digit(character - b'A' + 10),
        b'a'..=b'f' => Kind::Digit(character - b'a' + 10),
        b' ' | b'\t' | b'\r' => Kind::Blank,
        b'#' => Kind::Comment,
        _ => Kind::Other,
    }
}

// The bytes of the burst that a line spells.
pub fn decode(heap: Global, line: &[u8]) -> Result<Vec<u8>, HexFault>
    ensures { Decoded line.now result }
{
    let mut bytes = Vec::new(heap);
    let mut high = None;
    for (i, &character) in line.iter().enumerate() {
        match (classify(character), high) {
            (Kind::Digit(digit), None) => high = Some(digit),
            (Kind::Digit(digit), Some(x)) => {
                bytes.push(16 * x + digit)?;
                high = None;
            }
            (Kind::Blank, None) => {}
            (Kind::Comment, None) => return Ok(bytes),
            (Kind::Blank | Kind::Comment, Some(_)) => return Err(HexFault::HalfByte { column: i }),
            (Kind::Other, _) => return Err(HexFault::NotHex {
                column: i + 1,
                character,
            }),
        }
    }
    match high {
        None => Ok(bytes),
        Some(_) => Err(HexFault::HalfByte { column: line.len() }),
    }
}
