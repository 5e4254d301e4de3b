// What arrives between two silences: which telegram stands in it, or what is wrong with it.
#![tactic(auto)]

mod fault;
mod repeater;
mod search;

pub use fault::{Layer, LineFault, Place, ReadFault};
pub use repeater::{RelayFault, relay};
pub use search::{find, read};
