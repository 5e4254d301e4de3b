// Refusals in words.
use refusals::Refusal;
use std::fmt;

// A refusal by its number and its reason.
#[derive(Clone, Copy)]
pub(crate) struct Refused<R>(pub(crate) R);

impl<R: Refusal> fmt::Display for Refused<R> {
    fn fmt<W: fmt::Write>(&self, f: &mut fmt::Formatter<W>) -> fmt::Result {
        let refusal = &self.0;
        write!(f, "refused {}, {refusal}", refusal.number())
    }
}
