// Captures of the bus: what a line spells, and how often what was seen.
#![tactic(auto)]

mod hex;
mod tally;

pub use hex::{HexFault, Kind, classify, decode};
pub use tally::{Seen, Tally};
