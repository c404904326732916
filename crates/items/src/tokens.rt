//! Words, temperatures and the names of kinds as they are typed.
ghost use Rattle.std.specs.Prelude.{◌≡◌, ◌≢◌, ℤ, pos, ◌≤ℤ◌, IfOk, MatchResult};
ghost use Rattle.std.specs.Str.Parse.{digits_value};
ghost use Rattle.items.specs.Tokens.{WordText, kind_text};

use crate::kinds::KindName;
use std::num::ParseIntError;
use std::str::FromStr;

/// A token that is not of the kind that is read.
#[derive(Clone, Copy)]
pub struct Unreadable;

impl From<ParseIntError> for Unreadable {
    fn from(_e: ParseIntError) -> Unreadable {
        Unreadable
    }
}

/// A word of 16 hexadecimal digits.
#[derive(Clone, Copy)]
pub struct Word(pub u64);

impl FromStr for Word {
    type Err = Unreadable;

    ghost from_str_gives = { λ text r. MatchResult r (λ w. WordText text × (w.0 ≡ digits_value 16 text)) (λ _. WordText text → ⊥) };

    fn from_str(text: &str) -> Result<Word, Unreadable> {
        if text.len() != 16 || text.starts_with("+") {
            return Err(Unreadable);
        }
        Ok(Word(u64::from_str_radix(text, 16)?))
    }
}

/// A probe's temperature in tenths of °C, none where it is open: degrees with at most one place.
// any number that can be typed; only a reading has one in range
#[derive(Clone, Copy)]
pub struct Temperature(pub Option<i64>);

impl FromStr for Temperature {
    type Err = Unreadable;

    fn from_str(text: &str) -> Result<Temperature, Unreadable> {
        if text == "open" {
            return Ok(Temperature(None));
        }
        let tenths = match text.strip_prefix("-") {
            Some(size) => -read_size(size)?,
            None => read_size(text)?,
        };
        Ok(Temperature(Some(tenths)))
    }
}

// Degrees from zero up, in tenths.
fn read_size(text: &str) -> Result<i64, Unreadable>
    ensures { IfOk result (λ n. pos 0 ≤ℤ n) }
{
    let (whole, place) = text.split_once(".").unwrap_or((text, "0"));
    if whole.starts_with("+") || place.len() != 1 {
        return Err(Unreadable);
    }
    let whole: u32 = whole.parse()?;
    let place: u32 = place.parse()?;
    Ok(i64::from(whole) * 10 + i64::from(place))
}

impl FromStr for KindName {
    type Err = Unreadable;

    ghost from_str_gives = { λ text r. MatchResult r (λ k. kind_text k ≡ text) (λ _. (k : _) → kind_text k ≢ text) };

    fn from_str(text: &str) -> Result<KindName, Unreadable> {
        match text {
            "edit" => Ok(KindName::Edit),
            "reading" => Ok(KindName::Reading),
            "ring" => Ok(KindName::Ring),
            _ => Err(Unreadable),
        }
    }
}
