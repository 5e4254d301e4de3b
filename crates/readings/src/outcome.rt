ghost use Rattle.std.specs.Prelude.{◌≡◌, List, ◌++◌, ℤ, pos};
ghost use Rattle.readings.specs.Outcomes.{code_of, coded, decoded, from_float, measured};
ghost use Rattle.readings.specs.Codes.{kind_for};

use crate::fault::Fault;
use crate::ieee::Ieee;
use crate::reading::Reading;

// What a channel shows: a value, or the fault for which it has none.
// No outcome holds a float that is not a number: one that is brought counts as fault 56h.
#[derive(Clone, Copy)]
pub enum Outcome {
    Value(Reading),
    Fault(Fault),
}

impl Outcome {
    // What a float brings: its value, or fault 56h if it is a NaN.
    pub fn from_float<F: Ieee>(x: F) -> Outcome
        ensures { result ≡ from_float F.format (F.float x) }
    {
        if x.is_nan() {
            Outcome::Fault(Fault::CalcError)
        } else {
            Outcome::from_float_bits::<F>(x.to_bits())
        }
    }

    // What the float with these bits brings.
    pub fn from_float_bits<F: Ieee>(bits: F::Bits) -> Outcome
        ensures { result ≡ measured (kind_for F.format) (pos (F.number bits)) }
    {
        let value = Reading::from_pattern(F::KIND, F::widen(bits));
        value.map_or(Outcome::Fault(Fault::CalcError), Outcome::Value)
    }

    // The code of the value's type, or of the fault: the first of the two whole numbers that the
    // outcome is written as, from which it comes back whatever follows them.
    pub fn code(self) -> u8
        ensures value { result ≡ code_of self }
        ensures back { (rest : List ℤ) → decoded (coded self ++ rest) ≡ self }
    {
        match self {
            Outcome::Value(value) => u8::from(value.kind()),
            Outcome::Fault(fault) => u8::from(fault),
        }
    }
}
