// How often a capture showed what.
ghost use Rattle.std.specs.Prelude.{◌≡◌};
ghost use Rattle.capture.specs.Tallies.{more, none, noted, seen_of};

use burst::ReadFault;
use std::fmt;
use telegram::Telegram;

// What was on a line of a capture.
#[derive(Clone, Copy, Debug, PartialEq, Eq)]
pub enum Seen {
    // Nothing, or only a comment.
    Blank,
    Telegram,
    Fault,
    TooLong,
    NotHex,
}

// What reading a burst found.
impl From<&Result<Telegram<'_>, ReadFault>> for Seen {
    ghost from_gives = { λ finding seen. seen ≡ seen_of finding.now };

    fn from(finding: &Result<Telegram<'_>, ReadFault>) -> Seen {
        match finding {
            Ok(_) => Seen::Telegram,
            Err(ReadFault::AtLine(_)) => Seen::Fault,
            Err(ReadFault::TooLong) => Seen::TooLong,
        }
    }
}

// How many lines there were of each sort. A count stops at the greatest number that it can hold.
#[derive(Clone, Copy, Debug, PartialEq, Eq)]
pub struct Tally {
    pub blank: u64,
    pub telegrams: u64,
    pub faults: u64,
    pub too_long: u64,
    pub not_hex: u64,
}

fn count_one(count: &mut u64)
    ensures { count.new ≡ more count.old }
{
    *count = count.saturating_add(1);
}

impl Tally {
    pub fn new() -> Tally
        ensures { result ≡ none }
    {
        Tally {
            blank: 0,
            telegrams: 0,
            faults: 0,
            too_long: 0,
            not_hex: 0,
        }
    }

    pub fn note(&mut self, seen: Seen)
        ensures { self.new ≡ noted self.old seen }
    {
        match seen {
            Seen::Blank => count_one(&mut self.blank),
            Seen::Telegram => count_one(&mut self.telegrams),
            Seen::Fault => count_one(&mut self.faults),
            Seen::TooLong => count_one(&mut self.too_long),
            Seen::NotHex => count_one(&mut self.not_hex),
        }
    }
}

impl fmt::Display for Tally {
    fn fmt<W: fmt::Write>(&self, f: &mut fmt::Formatter<W>) -> fmt::Result {
        let Tally {
            telegrams,
            faults,
            too_long,
            not_hex,
            ..
        } = self;
        write!(
            f,
            "telegrams {telegrams}, faults {faults}, too long {too_long}, no hex {not_hex}"
        )
    }
}
