// The head that answers for 1 to 32 stations.
#![tactic(auto)]

mod answer;
mod arrival;
mod calls;
mod line;
mod questions;
mod refusal;
mod start;
mod state;

pub use arrival::Answered;
pub use line::{LineRecord, Talk};
pub use refusal::{BurstFault, ConditionFault, PutFault};
pub use state::Head;
