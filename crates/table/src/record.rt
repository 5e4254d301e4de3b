ghost use Rattle.std.specs.Prelude.{◌≡◌};
ghost use Rattle.table.specs.Records.{in_range, is_absent, is_of_type, present, typed};
ghost use Rattle.readings.specs.Codes.{kind_code};

use readings::{Fault, Kind, Outcome};

// What a channel of a slot shows.
#[derive(Clone, Copy)]
pub struct Record {
    pub slot: u8,
    pub channel: u16,
    pub kind: Kind,
    pub outcome: Outcome,
}

impl Record {
    // The slot is one of the 32, and the channel is not 65535.
    pub(crate) fn is_in_range(&self) -> bool
        ensures { result ≡ in_range self.now }
    {
        self.slot < 32 && self.channel < 65535
    }

    // The outcome is not fault 24h.
    pub(crate) fn is_present(&self) -> bool
        ensures { result ≡ present self.now }
    {
        !is_absent(self.outcome)
    }

    // A value is of the record's type.
    pub(crate) fn is_typed(&self) -> bool
        ensures { result ≡ typed self.now }
    {
        is_of_type(self.outcome, self.kind)
    }
}

// The outcome says that there is no such channel.
pub(crate) fn is_absent(outcome: Outcome) -> bool
    ensures { result ≡ is_absent outcome }
{
    matches!(outcome, Outcome::Fault(Fault::InvalidChannel))
}

// A value is of the type; a fault is of every type.
pub(crate) fn is_of_type(outcome: Outcome, kind: Kind) -> bool
    ensures { result ≡ is_of_type (kind_code kind) outcome }
{
    match outcome {
        Outcome::Value(value) => value.kind() == kind,
        Outcome::Fault(_) => true,
    }
}
