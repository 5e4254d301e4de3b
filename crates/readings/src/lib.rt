// What a cabinet measures: an outcome is a value of one of eight types, or a fault.
// The specs give every type and fault its code, a value its bytes, and an outcome its whole numbers.
#![tactic(auto)]

pub mod code;
pub mod fault;
pub mod ieee;
pub mod kind;
pub mod not_nan;
pub mod outcome;
pub mod reading;
pub mod value;

// The paths of the two types of floats, each by its format.
pub mod float32 {
    pub use crate::not_nan::Float;
}

pub mod float64 {
    pub use crate::not_nan::Double;
}

pub use code::UnknownCode;
pub use fault::Fault;
pub use ieee::Ieee;
pub use kind::Kind;
pub use not_nan::{Double, Float, NotNan};
pub use outcome::Outcome;
pub use reading::Reading;
pub use value::Unreadable;
