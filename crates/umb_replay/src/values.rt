// Types, values and outcomes as a script writes them.
ghost use Rattle.std.specs.Prelude.{◌≡◌, IfSome};
ghost use Rattle.readings.specs.Values.{kind_of, number};

use crate::words::{Number, Word, Words};
use crate::wrong::{Item, Reason, Wrong};
use readings::{Fault, Ieee, Kind, Outcome, Reading};
use std::num::ParseFloatError;
use std::str::{FromStr, from_utf8};

fn kind_named(text: &[u8]) -> Option<Kind> {
    match text {
        b"u8" => Some(Kind::U8),
        b"i8" => Some(Kind::I8),
        b"u16" => Some(Kind::U16),
        b"i16" => Some(Kind::I16),
        b"u32" => Some(Kind::U32),
        b"i32" => Some(Kind::I32),
        b"f32" => Some(Kind::F32),
        b"f64" => Some(Kind::F64),
        _ => None,
    }
}

// The value of an integer type, None where it does not fit.
fn integer(kind: Kind, value: i64) -> Option<Reading>
    ensures kind { IfSome result (λ v. kind_of v ≡ kind) }
    ensures value { IfSome result (λ v. number v ≡ value) }
{
    Some(match kind {
        Kind::U8 => Reading::U8(u8::try_from(value).ok()?),
        Kind::I8 => Reading::I8(i8::try_from(value).ok()?),
        Kind::U16 => Reading::U16(u16::try_from(value).ok()?),
        Kind::I16 => Reading::I16(i16::try_from(value).ok()?),
        Kind::U32 => Reading::U32(u32::try_from(value).ok()?),
        Kind::I32 => Reading::I32(i32::try_from(value).ok()?),
        Kind::F32 | Kind::F64 => return None,
    })
}

fn is_special(text: &str) -> bool {
    matches!(text, "inf" | "-inf" | "nan")
}

// Whether a byte may stand in a decimal number.
fn is_of_float(byte: u8) -> bool {
    matches!(byte, b'0'..=b'9' | b'.' | b'-' | b'+' | b'e')
}

// The text of a float. Only what the format names: the library reads more, as "+1" and "Infinity".
fn float_text<'a>(word: Word<'a>) -> Result<&'a str, Wrong> {
    let no_float = word.wrong(Reason::NoFloat);
    let text = from_utf8(word.text).map_err(|_| no_float)?;
    let is_decimal = !text.starts_with("+") && text.bytes().all(is_of_float);
    if is_special(text) || is_decimal {
        Ok(text)
    } else {
        Err(no_float)
    }
}

// A value of a float type whose first word is `first`: a decimal number, or the bits.
fn read_float<F>(first: Word<'_>, words: &mut Words<'_>) -> Result<Outcome, Wrong>
where
    F: Ieee + FromStr<Err = ParseFloatError> + Into<f64>,
    F::Bits: Number,
{
    if matches!(first.text, b"bits") {
        return Ok(Outcome::from_float_bits::<F>(words.number(Item::Bits)?));
    }
    let text = float_text(first)?;
    let x: F = text.parse().map_err(|_| first.wrong(Reason::NoFloat))?;
    let wide: f64 = x.into();
    if wide.is_infinite() && !is_special(text) {
        return Err(first.wrong(Reason::Unfit));
    }
    Ok(Outcome::from_float(x))
}

// A value of this type whose first word is `first`.
fn read_value(kind: Kind, first: Word<'_>, words: &mut Words<'_>) -> Result<Outcome, Wrong> {
    match kind {
        Kind::F32 => read_float::<f32>(first, words),
        Kind::F64 => read_float::<f64>(first, words),
        _ => {
            let reading = integer(kind, first.whole()?).ok_or(first.wrong(Reason::Unfit))?;
            Ok(Outcome::Value(reading))
        }
    }
}

fn read_fault(words: &mut Words<'_>) -> Result<Outcome, Wrong> {
    let word = words.need(Item::FaultCode)?;
    let code: u8 = word.number(Item::FaultCode)?;
    let fault = Fault::try_from(code).map_err(|_| word.wrong(Reason::NoFault))?;
    Ok(Outcome::Fault(fault))
}

pub(crate) fn read_outcome(words: &mut Words<'_>) -> Result<Outcome, Wrong> {
    let first = words.need(Item::Outcome)?;
    if matches!(first.text, b"fault") {
        return read_fault(words);
    }
    let kind = kind_named(first.text).ok_or(first.wrong(Reason::NoOutcome))?;
    let word = words.need(Item::Value)?;
    read_value(kind, word, words)
}

// A type, and an outcome that may leave its own type out where it is this one.
pub(crate) fn read_typed_outcome(words: &mut Words<'_>) -> Result<(Kind, Outcome), Wrong> {
    let word = words.need(Item::Type)?;
    let kind = kind_named(word.text).ok_or(word.wrong(Reason::NoType))?;
    let mut ahead = *words;
    let first = ahead.need(Item::Outcome)?;
    if matches!(first.text, b"fault") || kind_named(first.text).is_some() {
        return Ok((kind, read_outcome(words)?));
    }
    *words = ahead;
    Ok((kind, read_value(kind, first, words)?))
}
