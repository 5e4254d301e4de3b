// Telegrams of the Universal Measurement Bus: read where they lie in a burst, and written.
#![tactic(auto)]

mod view;
mod writer;

pub use view::{Fields, Part, Telegram};
pub use writer::{EOT, ETX, LONGEST_TELEGRAM, SOH, STX, WriteRefusal, write};
