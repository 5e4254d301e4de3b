ghost use Rattle.std.specs.Prelude.{◌≡◌, ◌^◌, ◌<◌, ◌≤◌, length, IfSome, Some, Ok};
ghost use Rattle.readings.specs.Bytes.{Reads, Writes, bytes_of, pattern, read_from, unpattern, weighed};
ghost use Rattle.readings.specs.Codes.{kind_code, size_of};
ghost use Rattle.readings.specs.Values.{kind_of, valued};
ghost use Rattle.readings.specs.declared.value.Unreadable.TheVariants.{UnknownType};

use crate::code::UnknownCode;
use crate::kind::Kind;
use crate::not_nan::{Double, Float};
use crate::reading::Reading;
use std::error::Error;
use std::fmt;

// Why bytes are no value.
#[derive(Clone, Copy, Debug, PartialEq, Eq)]
pub enum Unreadable {
    UnknownType,
    WrongLength,
    NotANumber,
}

impl From<UnknownCode> for Unreadable {
    ghost from_gives = { λ _ why. why ≡ UnknownType };

    fn from(_: UnknownCode) -> Self {
        Self::UnknownType
    }
}

impl fmt::Display for Unreadable {
    fn fmt<W: fmt::Write>(&self, f: &mut fmt::Formatter<W>) -> fmt::Result {
        f.write_str(match self {
            Unreadable::UnknownType => "no type has this code",
            Unreadable::WrongLength => "a value of this type has another length",
            Unreadable::NotANumber => "the float is not a number",
        })
    }
}

impl Error for Unreadable {}

impl Reading {
    // The value's bits as one number, a signed one in two's complement.
    fn pattern(self) -> u64
        ensures value { result ≡ pattern self }
        ensures bound { result < 256 ^ size_of (kind_of self) }
        ensures back { valued (kind_of self) (unpattern (kind_of self) result) ≡ Some self }
    {
        match self {
            Reading::U8(n) => u64::from(n),
            Reading::I8(z) => u64::from(z.cast_unsigned()),
            Reading::U16(n) => u64::from(n),
            Reading::I16(z) => u64::from(z.cast_unsigned()),
            Reading::U32(n) => u64::from(n),
            Reading::I32(z) => u64::from(z.cast_unsigned()),
            Reading::F32(x) => u64::from(x.to_bits()),
            Reading::F64(x) => x.to_bits(),
        }
    }

    // The value of a type with these bits, None if they are a NaN's.
    pub(crate) fn from_pattern(kind: Kind, bits: u64) -> Option<Reading>
        requires { bits < 256 ^ size_of kind }
        ensures value { result ≡ valued kind (unpattern kind bits) }
        ensures same_kind { IfSome result (λ v. kind_of v ≡ kind) }
        ensures same_bits { IfSome result (λ v. pattern v ≡ bits) }
    {
        Some(match kind {
            Kind::U8 => Reading::U8(bits as u8),
            Kind::I8 => Reading::I8((bits as u8).cast_signed()),
            Kind::U16 => Reading::U16(bits as u16),
            Kind::I16 => Reading::I16((bits as u16).cast_signed()),
            Kind::U32 => Reading::U32(bits as u32),
            Kind::I32 => Reading::I32((bits as u32).cast_signed()),
            Kind::F32 => Reading::F32(Float::from_bits(bits as u32)?),
            Kind::F64 => Reading::F64(Double::from_bits(bits)?),
        })
    }

    // Writes the type's code and then the value's bytes to the front of the buffer, and tells how
    // many they are; None, and nothing written, if they do not fit.
    pub fn write(self, buffer: &mut [u8]) -> Option<usize>
        ensures written { Writes self buffer.old buffer.new result }
        ensures back { read_from (kind_code (kind_of self)) (bytes_of self) ≡ Ok self }
    {
        let kind = self.kind();
        let bytes = self.pattern().to_le_bytes();
        let len = 1 + kind.size();
        if buffer.len() < len {
            return None;
        }
        buffer[0] = u8::from(kind);
        buffer[1..len].copy_from_slice(&bytes[..kind.size()]);
        Some(len)
    }

    // The value that a type's code and bytes stand for, or why they stand for none.
    pub fn read(code: u8, bytes: &[u8]) -> Result<Reading, Unreadable>
        ensures value { result ≡ read_from code bytes.now }
        ensures back { Reads code bytes.now result }
    {
        let kind = Kind::try_from(code)?;
        if bytes.len() != kind.size() {
            return Err(Unreadable::WrongLength);
        }
        Reading::from_pattern(kind, weigh(bytes)).ok_or(Unreadable::NotANumber)
    }
}

// The number that at most eight bytes stand for, low byte first.
fn weigh(bytes: &[u8]) -> u64
    requires { length bytes.now ≤ 8 }
    ensures value { result ≡ weighed bytes.now }
    ensures bound { result < 256 ^ length bytes.now }
{
    let mut all = [0u8; 8];
    all[..bytes.len()].copy_from_slice(bytes);
    u64::from_le_bytes(all)
}
