//! A line of input, and its answer.
use crate::kinds::{Item, KindName};
use crate::tokens::{Temperature, Word};
use std::str::{FromStr, SplitWhitespace};
use thiserror::Error;
use words::{Edit, ItemFault, Part, Reading, RingNumber, Setting};

/// What a line that cannot be read should have had.
#[derive(Clone, Copy, Debug, Error)]
pub enum Expected {
    #[error("edit, reading, ring or word")]
    Request,
    #[error("a setting: top-heat, bottom-heat, steam, damper or stage-time")]
    Setting,
    #[error("a whole number: {0}")]
    Number(Part),
    #[error("degrees such as 21.5, or open")]
    Temperature,
    #[error("a kind: edit, reading or ring")]
    Kind,
    #[error("a word of 16 hexadecimal digits")]
    Word,
    #[error("the end of the line")]
    End,
}

/// Why a line has no answer.
#[derive(Clone, Copy, Debug, Error)]
pub enum LineFault {
    #[error("malformed: expected {0}")]
    Malformed(#[from] Expected),
    #[error("refusal {}: {}", .0.number(), .0)]
    Refused(#[from] ItemFault),
}

/// What a line is answered with.
#[derive(Clone, Copy)]
pub enum Answer {
    Word(u64),
    Item(Item),
}

/// The next token, as a `T`.
fn next<T: FromStr>(tokens: &mut SplitWhitespace<'_>, expected: Expected) -> Result<T, Expected>
where
    T::Err: Drop,
{
    tokens
        .next()
        .and_then(|text| text.parse().ok())
        .ok_or(expected)
}

fn end(tokens: &mut SplitWhitespace<'_>) -> Result<(), Expected> {
    match tokens.next() {
        Some(_) => Err(Expected::End),
        None => Ok(()),
    }
}

fn edit(tokens: &mut SplitWhitespace<'_>) -> Result<Edit, LineFault> {
    let setting = next(tokens, Expected::Setting)?;
    let deck = next(tokens, Expected::Number(Part::Deck))?;
    let stage = next(tokens, Expected::Number(Part::Stage))?;
    let value = next(tokens, Expected::Number(Part::Value(setting)))?;
    end(tokens)?;
    Ok(Edit::new(setting, deck, stage, value)?)
}

fn reading(tokens: &mut SplitWhitespace<'_>) -> Result<Reading, LineFault> {
    let deck = next(tokens, Expected::Number(Part::Deck))?;
    let probe = next(tokens, Expected::Number(Part::Probe))?;
    let tick = next(tokens, Expected::Number(Part::Tick))?;
    let Temperature(tenths) = next(tokens, Expected::Temperature)?;
    end(tokens)?;
    Ok(Reading::new(deck, probe, tick, tenths)?)
}

fn ring(tokens: &mut SplitWhitespace<'_>) -> Result<RingNumber, LineFault> {
    let number = next(tokens, Expected::Number(Part::Ring))?;
    end(tokens)?;
    Ok(RingNumber::new(number)?)
}

fn item(kind: KindName, tokens: &mut SplitWhitespace<'_>) -> Result<Item, LineFault> {
    match kind {
        KindName::Edit => edit(tokens).map(Item::Edit),
        KindName::Reading => reading(tokens).map(Item::Reading),
        KindName::Ring => ring(tokens).map(Item::Ring),
    }
}

fn item_of_word(tokens: &mut SplitWhitespace<'_>) -> Result<Item, LineFault> {
    let kind = next(tokens, Expected::Kind)?;
    let Word(word) = next(tokens, Expected::Word)?;
    end(tokens)?;
    Ok(Item::read(kind, word)?)
}

/// The answer to a line, up to a `#`; none where it is blank.
pub(crate) fn answer_line(line: &str) -> Result<Option<Answer>, LineFault> {
    let asked = line.split_once("#").map_or(line, |(asked, _)| asked);
    let mut tokens = asked.split_whitespace();
    let answer = match tokens.next() {
        None => return Ok(None),
        Some("word") => Answer::Item(item_of_word(&mut tokens)?),
        Some(name) => {
            let kind = name.parse().map_err(|_| Expected::Request)?;
            Answer::Word(item(kind, &mut tokens)?.to_word())
        }
    };
    Ok(Some(answer))
}
