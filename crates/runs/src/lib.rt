// Lists of calls run on one head, and what they draw.
#![tactic(auto)]

mod call;
mod runner;

pub use call::{Call, CallFault, Drawn, Entry, Reply};
pub use runner::{ReplayRefusal, replay};
