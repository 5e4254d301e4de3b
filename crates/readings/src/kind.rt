ghost use Rattle.std.specs.Prelude.{◌≡◌};
ghost use Rattle.readings.specs.Codes.{Decodes, kind_at, kind_code, size_of};

use crate::code::UnknownCode;

// The type of a value, with the byte that names it on the wire.
#[derive(Clone, Copy, Debug, PartialEq, Eq)]
pub enum Kind {
    U8 = 0x10,
    I8 = 0x11,
    U16 = 0x12,
    I16 = 0x13,
    U32 = 0x14,
    I32 = 0x15,
    F32 = 0x16,
    F64 = 0x17,
}

impl Kind {
    // How many bytes a value of the type has.
    pub fn size(self) -> usize
        ensures { result ≡ size_of self }
    {
        match self {
            Kind::U8 | Kind::I8 => 1,
            Kind::U16 | Kind::I16 => 2,
            Kind::U32 | Kind::I32 | Kind::F32 => 4,
            Kind::F64 => 8,
        }
    }
}

impl From<Kind> for u8 {
    ghost from_gives = { λ kind code. code ≡ kind_code kind };

    fn from(kind: Kind) -> u8 {
        kind as u8
    }
}

impl TryFrom<u8> for Kind {
    type Error = UnknownCode;

    ghost try_from_gives = { Decodes kind_at };

    fn try_from(code: u8) -> Result<Kind, UnknownCode> {
        match code {
            0x10 => Ok(Kind::U8),
            0x11 => Ok(Kind::I8),
            0x12 => Ok(Kind::U16),
            0x13 => Ok(Kind::I16),
            0x14 => Ok(Kind::U32),
            0x15 => Ok(Kind::I32),
            0x16 => Ok(Kind::F32),
            0x17 => Ok(Kind::F64),
            _ => Err(UnknownCode(code)),
        }
    }
}
