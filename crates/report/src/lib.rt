// What stands in a capture, in words.
#![tactic(auto)]

mod report;
mod words;

pub use report::{BadLine, Report};
pub use words::{Command, Named};
