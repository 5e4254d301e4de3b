// What a station answers.
#![tactic(auto)]

mod broadcast;
mod command;
mod no_slot;
mod online;
mod record;
mod responder;
mod settings;
mod status;

pub use broadcast::overhear;
pub use no_slot::NoSlot;
pub use record::{Record, StationLine};
pub use responder::respond;
