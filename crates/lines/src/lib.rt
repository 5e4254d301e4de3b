// The station lines of a head: which lists of them may stand behind one connection.
#![tactic(auto)]

mod making;
mod refusal;
mod rules;
mod table;

pub use refusal::StartRefusal;
pub use table::Lines;
