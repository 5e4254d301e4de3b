// The interface between the head and the boards of readings.
#![tactic(auto)]

pub mod interface;
pub mod refusal;

pub use interface::Board;
pub use refusal::PutRefusal;
