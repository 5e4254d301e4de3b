ghost use Rattle.std.specs.Prelude.{◌≡◌, ◌<◌, ◌^◌, ℕ, T, Float, from_bits, is_nan, refl, to_bits};
ghost use Rattle.std.specs.Float.{Format, binary32, binary64};
ghost use Rattle.std.specs.Float.Ieee.{fits};
ghost use Rattle.readings.specs.Codes.{kind_for, size_of};
ghost use Rattle.readings.specs.declared.kind.Kind.{Kind};
ghost use Rattle.readings.specs.declared.kind.Kind.TheVariants.{F32, F64};

use crate::kind::Kind;
use std::num::{
    f32_from_bits_with_nan, f32_to_bits_with_nan, f64_from_bits_with_nan, f64_to_bits_with_nan,
};

// A type of floats: those of one format of IEEE 754.
pub trait Ieee: Copy {
    // An integer of as many bits as a float has.
    type Bits: Copy;

    // The type of a value that is such a float.
    const KIND: Kind;

    ghost KIND: { Kind };

    ghost format: { Format };

    ghost float: { Self → Float };

    ghost number: { Self.Bits → ℕ };

    // Every float of the type is a value of its format; the second clause tells that to the specs.
    fn is_nan(self) -> bool
        ensures nan { result ≡ is_nan (float self) }
        ensures held { T (fits format (float self)) };

    fn from_bits(bits: Self::Bits) -> Self
        ensures { float result ≡ from_bits format (number bits) };

    fn to_bits(self) -> Self::Bits
        ensures { number result ≡ to_bits format (float self) };

    fn widen(bits: Self::Bits) -> u64
        ensures value { result ≡ number bits }
        ensures bound { result < 256 ^ size_of KIND };

    ghost of_format: { KIND ≡ kind_for format };
}

impl Ieee for f32 {
    type Bits = u32;

    const KIND: Kind = Kind::F32;

    ghost KIND = { F32 };

    ghost format = { binary32 };

    ghost float = { λ x. x };

    ghost number = { λ bits. bits };

    fn is_nan(self) -> bool {
        f32::is_nan(self)
    }

    fn from_bits(bits: u32) -> f32 {
        f32_from_bits_with_nan(bits)
    }

    fn to_bits(self) -> u32 {
        f32_to_bits_with_nan(self)
    }

    fn widen(bits: u32) -> u64 {
        u64::from(bits)
    }

    ghost of_format = { refl };
}

impl Ieee for f64 {
    type Bits = u64;

    const KIND: Kind = Kind::F64;

    ghost KIND = { F64 };

    ghost format = { binary64 };

    ghost float = { λ x. x };

    ghost number = { λ bits. bits };

    fn is_nan(self) -> bool {
        f64::is_nan(self)
    }

    fn from_bits(bits: u64) -> f64 {
        f64_from_bits_with_nan(bits)
    }

    fn to_bits(self) -> u64 {
        f64_to_bits_with_nan(self)
    }

    fn widen(bits: u64) -> u64 {
        bits
    }

    ghost of_format = { refl };
}
