// The table board: 32 slots, and up to 4,096 records of slot, channel, type and outcome in lent memory.
#![tactic(auto)]

pub mod record;
pub mod refusal;
pub mod table;

pub use record::Record;
pub use refusal::TableRefusal;
pub use table::Table;
