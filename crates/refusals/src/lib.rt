// What every refusal of the cabinet has: a number, which docs/REFUSALS.md lists, and a reason in words.
#![tactic(auto)]

ghost use Rattle.std.specs.Prelude.{◌≡◌, ℕ};

use std::fmt;

// Why a call was refused. Its text is the reason.
pub trait Refusal: fmt::Display {
    ghost number: { Self → ℕ };

    // The number that it is told by.
    fn number(&self) -> u8
        ensures { result ≡ number self.now };
}
