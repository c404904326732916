//! How answers read.
use crate::kinds::Item;
use crate::lines::Answer;
use std::fmt;

// The line that asks for its word, and behind it what that means.
impl fmt::Display for Item {
    fn fmt<W: fmt::Write>(&self, f: &mut fmt::Formatter<W>) -> fmt::Result {
        match self {
            Item::Edit(edit) => write!(
                f,
                "{edit} # deck {}, stage {}: {} {}",
                edit.deck,
                edit.stage,
                edit.value,
                edit.setting.unit()
            ),
            Item::Reading(reading) => write!(
                f,
                "{reading} # deck {}, probe {}, tick {}",
                reading.deck, reading.probe, reading.tick
            ),
            Item::Ring(ring) => write!(f, "{ring}"),
        }
    }
}

impl fmt::Display for Answer {
    fn fmt<W: fmt::Write>(&self, f: &mut fmt::Formatter<W>) -> fmt::Result {
        match self {
            Answer::Word(word) => write!(f, "{word:016X}"),
            Answer::Item(item) => write!(f, "{item}"),
        }
    }
}
