ghost use Rattle.std.specs.Prelude.{◌≡◌};
ghost use Rattle.readings.specs.Values.{kind_of};

use crate::kind::Kind;
use crate::not_nan::{Double, Float};

// A value with its type.
#[derive(Clone, Copy)]
pub enum Reading {
    U8(u8),
    I8(i8),
    U16(u16),
    I16(i16),
    U32(u32),
    I32(i32),
    F32(Float),
    F64(Double),
}

impl Reading {
    pub fn kind(self) -> Kind
        ensures { result ≡ kind_of self }
    {
        match self {
            Reading::U8(_) => Kind::U8,
            Reading::I8(_) => Kind::I8,
            Reading::U16(_) => Kind::U16,
            Reading::I16(_) => Kind::I16,
            Reading::U32(_) => Kind::U32,
            Reading::I32(_) => Kind::I32,
            Reading::F32(_) => Kind::F32,
            Reading::F64(_) => Kind::F64,
        }
    }
}
