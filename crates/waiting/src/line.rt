//! The lines of a script, and what they say.
use crate::request::Request;
use crate::setup::{Kind, Setup, Stack};
use memory::Side;
use std::str::{FromStr, SplitWhitespace};

/// What a line says.
#[derive(Clone, Copy)]
pub enum Says {
    // a comment, or nothing: a line like the others, which is printed as it stands
    Nothing,
    Memory(Setup),
    Call(Request),
}

/// A line that says nothing a script can say.
#[derive(Clone, Copy, Debug)]
pub struct Unread;

impl FromStr for Says {
    type Err = Unread;

    fn from_str(line: &str) -> Result<Says, Unread> {
        let mut words = line.split_whitespace();
        let Some(first) = words.next() else {
            return Ok(Says::Nothing);
        };
        if first.starts_with('#') {
            return Ok(Says::Nothing);
        }
        let says = read_rest(first, &mut words).ok_or(Unread)?;
        match words.next() {
            None => Ok(says),
            Some(_) => Err(Unread),
        }
    }
}

// what a line says that begins with this word
fn read_rest(first: &str, words: &mut SplitWhitespace<'_>) -> Option<Says> {
    let says = match first {
        "prompt" => Says::Memory(read_setup(Stack::Plain(Kind::Prompt), words)?),
        "loose" => Says::Memory(read_setup(Stack::Plain(Kind::Loose), words)?),
        "pile" => Says::Memory(read_setup(Stack::Pile, words)?),
        "buffer" => {
            let depth = read(words)?;
            let kind = read(words)?;
            Says::Memory(read_setup(Stack::Buffered { depth, kind }, words)?)
        }
        "size" => Says::Call(Request::Size),
        "drain" => Says::Call(Request::Drain),
        "feeder" => Says::Call(read_call(Side::Feeder, words)?),
        "drawer" => Says::Call(read_call(Side::Drawer, words)?),
        _ => return None,
    };
    Some(says)
}

// the next word, read as what is wanted there
fn read<T: FromStr>(words: &mut SplitWhitespace<'_>) -> Option<T>
where
    T::Err: Drop,
{
    words.next()?.parse().ok()
}

fn read_setup(stack: Stack, words: &mut SplitWhitespace<'_>) -> Option<Setup> {
    let size = read(words)?;
    Some(Setup { stack, size })
}

// the call of a side: what follows `feeder` or `drawer` on a line
fn read_call(side: Side, words: &mut SplitWhitespace<'_>) -> Option<Request> {
    let call = match words.next()? {
        "look" => Request::Look(side, read(words)?),
        "count" => Request::Count(side),
        "store" => {
            let address = read(words)?;
            let word = read(words)?;
            Request::Store(side, address, word)
        }
        "bar" => Request::Bar(side),
        "land" => Request::Land(side, read(words)?),
        _ => return None,
    };
    Some(call)
}
