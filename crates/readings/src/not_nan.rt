ghost use Rattle.std.specs.Prelude.{◌≡◌, ⊤, not, T, MatchOption, from_bits, is_nan, to_bits};
ghost use Rattle.std.specs.Float.Ieee.{fits};

use crate::ieee::Ieee;
use std::alloc::AllocError;

// A float that is a number or an infinity, never a NaN: no value of this type holds one.
pub struct NotNan<F: Ieee> {
    value: F,
    ghost number: { T (not (is_nan (F.float value))) },
    // Every float is a value of its format; the field tells that to the specs.
    ghost held: { T (fits F.format (F.float value)) },
}

// A float of 32 bits that is no NaN.
pub type Float = NotNan<f32>;

// A double of 64 bits that is no NaN.
pub type Double = NotNan<f64>;

impl<F: Ieee> NotNan<F> {
    // None for a NaN.
    pub fn new(value: F) -> Option<NotNan<F>>
        ensures { MatchOption result (T (is_nan (F.float value))) (λ x. x.value ≡ value) }
    {
        if value.is_nan() {
            None
        } else {
            Some(NotNan { value })
        }
    }

    // The float with these bits, None if they are a NaN's.
    pub fn from_bits(bits: F::Bits) -> Option<NotNan<F>>
        ensures { MatchOption result (T (is_nan (from_bits F.format (F.number bits)))) (λ x. F.float x.value ≡ from_bits F.format (F.number bits)) }
    {
        NotNan::new(F::from_bits(bits))
    }

    pub fn get(self) -> F
        ensures { result ≡ self.value }
    {
        self.value
    }

    pub fn to_bits(self) -> F::Bits
        ensures { F.number result ≡ to_bits F.format (F.float self.value) }
    {
        self.get().to_bits()
    }
}

// A derive cannot stand over a ghost field that a type parameter's members state.
impl<F: Ieee> Clone for NotNan<F> {
    ghost is_clone = { λ x y. y ≡ x };

    ghost is_infallible = { λ _. ⊤ };

    fn clone(&self) -> Result<NotNan<F>, AllocError> {
        Ok(*self)
    }
}

impl<F: Ieee> Copy for NotNan<F> {}
