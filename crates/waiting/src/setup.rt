//! The memory that a line of a script names.
use crate::line::Unread;
use std::str::FromStr;

// `book` has the same two under codes, but this program stands on the memories alone
#[derive(Clone, Copy)]
pub enum Kind {
    Prompt,
    Loose,
}

impl FromStr for Kind {
    type Err = Unread;

    fn from_str(word: &str) -> Result<Kind, Unread> {
        match word {
            "prompt" => Ok(Kind::Prompt),
            "loose" => Ok(Kind::Loose),
            _ => Err(Unread),
        }
    }
}

#[derive(Clone, Copy)]
pub enum Stack {
    Plain(Kind),
    Buffered { depth: usize, kind: Kind },
    Pile,
}

/// A memory of `size` addresses.
#[derive(Clone, Copy)]
pub struct Setup {
    pub stack: Stack,
    pub size: usize,
}
