// The words of a line, each with its place, and numbers.
ghost use Rattle.std.specs.Prelude.{◌≡◌, ◌≤◌, min, length, take, drop, IfOk};
ghost use Rattle.std.specs.Str.Parse.{IsNumeral, without_leading_plus, digits_value};

use crate::wrong::{Item, Place, Reason, Wrong};
use std::num::{IntErrorKind, TryFromIntError};
use std::str::from_utf8;

// Some bytes of a line, mostly a word, and where they begin.
#[derive(Clone, Copy)]
pub(crate) struct Word<'a> {
    pub(crate) text: &'a [u8],
    pub(crate) place: Place,
}

// What is left to read.
#[derive(Clone, Copy)]
pub(crate) struct Words<'a> {
    rest: Word<'a>,
}

fn is_blank(byte: u8) -> bool {
    matches!(byte, b' ' | b'\t' | b'\r')
}

impl<'a> Words<'a> {
    pub(crate) fn of(rest: Word<'a>) -> Words<'a> {
        Words { rest }
    }

    // Where reading goes on: right behind what was read last.
    pub(crate) fn place(&self) -> Place {
        self.rest.place
    }

    // All that is left.
    pub(crate) fn take_rest(&mut self) -> Word<'a> {
        let rest = self.rest;
        self.rest = rest.split(rest.text.len()).1;
        rest
    }

    pub(crate) fn next_word(&mut self) -> Option<Word<'a>> {
        let blanks = self.rest.text.iter().position(|&byte| !is_blank(byte))?;
        let (_, rest) = self.rest.split(blanks);
        let end = rest.text.iter().position(|&byte| is_blank(byte));
        let (word, rest) = rest.split(end.unwrap_or(rest.text.len()));
        self.rest = rest;
        Some(word)
    }

    pub(crate) fn need(&mut self, item: Item) -> Result<Word<'a>, Wrong> {
        let missing = self.place().wrong(Reason::Missing(item));
        self.next_word().ok_or(missing)
    }

    // A number of this type.
    pub(crate) fn number<N: Number>(&mut self, item: Item) -> Result<N, Wrong> {
        self.need(item)?.number(item)
    }

    // A length or a place that is at most `most`.
    pub(crate) fn number_up_to(&mut self, item: Item, most: u64) -> Result<usize, Wrong>
        ensures { IfOk result (λ n. n ≤ most) }
    {
        self.need(item)?.number_up_to(item, most)
    }

    // Nothing may be left.
    pub(crate) fn end(&mut self) -> Result<(), Wrong> {
        match self.next_word() {
            Some(word) => Err(word.wrong(Reason::WordTooMany)),
            None => Ok(()),
        }
    }
}

// A type of numbers without a sign, as a script gives them, by its largest number.
pub(crate) trait Number: TryFrom<u64, Error = TryFromIntError> {
    const MAX: u64;
}

impl Number for u8 {
    const MAX: u64 = u8::MAX as u64;
}

impl Number for u16 {
    const MAX: u64 = u16::MAX as u64;
}

impl Number for u32 {
    const MAX: u64 = u32::MAX as u64;
}

impl Number for u64 {
    const MAX: u64 = u64::MAX;
}

impl Number for usize {
    const MAX: u64 = usize::MAX as u64;
}

// Why a word is no number.
#[derive(Clone, Copy)]
enum NumberFault {
    NotOne,
    TooLarge,
}

fn digits(text: &[u8], radix: u32) -> Result<u64, NumberFault>
    requires low { 2 ≤ radix }
    requires high { radix ≤ 36 }
    ensures numeral { IfOk result (λ _. IsNumeral radix (without_leading_plus text.now)) }
    ensures value { IfOk result (λ n. n ≡ digits_value radix (without_leading_plus text.now)) }
{
    if text.starts_with(b"+") {
        return Err(NumberFault::NotOne);
    }
    let Ok(text) = from_utf8(text) else {
        return Err(NumberFault::NotOne);
    };
    u64::from_str_radix(text, radix).map_err(|error| match error.kind() {
        IntErrorKind::PosOverflow => NumberFault::TooLarge,
        _ => NumberFault::NotOne,
    })
}

// Decimal, or hexadecimal with `0x` before it or `h` behind it.
fn number_of(text: &[u8]) -> Result<u64, NumberFault> {
    match text.strip_prefix(b"0x").or(text.strip_suffix(b"h")) {
        Some(hex) => digits(hex, 16),
        None => digits(text, 10),
    }
}

// The same with a `-` before it if it is negative.
fn whole_of(text: &[u8]) -> Result<i64, NumberFault> {
    let size = number_of(text.strip_prefix(b"-").unwrap_or(text))?;
    let value = i64::try_from(size).map_err(|_| NumberFault::TooLarge)?;
    Ok(if text.starts_with(b"-") {
        value.wrapping_neg()
    } else {
        value
    })
}

impl<'a> Word<'a> {
    // A line up to its comment.
    pub(crate) fn line(number: u64, text: &'a [u8]) -> Word<'a> {
        let comment = text.iter().position(|&byte| byte == b'#');
        Word {
            text: &text[..comment.unwrap_or(text.len())],
            place: Place {
                line: number,
                column: 1,
            },
        }
    }

    // The first so many bytes, and those behind them.
    pub(crate) fn split(self, count: usize) -> (Word<'a>, Word<'a>)
        ensures front { result.0.text.now ≡ take (min count (length self.entry.text.now)) self.entry.text.now }
        ensures back { result.1.text.now ≡ drop (min count (length self.entry.text.now)) self.entry.text.now }
    {
        let count = count.min(self.text.len());
        let (text, rest) = self.text.split_at(count);
        let place = Place {
            line: self.place.line,
            column: self.place.column.saturating_add(count),
        };
        let front = Word {
            text,
            place: self.place,
        };
        (front, Word { text: rest, place })
    }

    pub(crate) fn wrong(self, reason: Reason) -> Wrong {
        self.place.wrong(reason)
    }

    // A number of this type.
    pub(crate) fn number<N: Number>(self, item: Item) -> Result<N, Wrong> {
        let number = self.at_most(item, N::MAX)?;
        N::try_from(number).map_err(|_| self.wrong(Reason::Above(item, N::MAX)))
    }

    // A length or a place that is at most `most`.
    pub(crate) fn number_up_to(self, item: Item, most: u64) -> Result<usize, Wrong>
        ensures { IfOk result (λ n. n ≤ most) }
    {
        Ok(self.at_most(item, most)? as usize)
    }

    fn at_most(self, item: Item, most: u64) -> Result<u64, Wrong>
        ensures { IfOk result (λ n. n ≤ most) }
    {
        match number_of(self.text) {
            Ok(number) if number <= most => Ok(number),
            Ok(_) | Err(NumberFault::TooLarge) => Err(self.wrong(Reason::Above(item, most))),
            Err(NumberFault::NotOne) => Err(self.wrong(Reason::NoNumber(item))),
        }
    }

    // The value of an integer type.
    pub(crate) fn whole(self) -> Result<i64, Wrong> {
        whole_of(self.text).map_err(|fault| {
            self.wrong(match fault {
                NumberFault::TooLarge => Reason::Unfit,
                NumberFault::NotOne => Reason::NoNumber(Item::Value),
            })
        })
    }
}
