//! One memory call of a script, and its answer.
ghost use Rattle.waiting.specs.Answers.{Answered};

use memory::{Memory, NoAddress, Side};
use std::fmt;

#[derive(Clone, Copy)]
pub enum Request {
    Size,
    Look(Side, usize),
    Count(Side),
    Store(Side, usize, u64),
    Bar(Side),
    Land(Side, usize),
    Drain,
}

#[derive(Clone, Copy)]
pub enum Answer {
    Number(usize),
    Word(u64),
    Done,
}

impl fmt::Display for Answer {
    fn fmt<W: fmt::Write>(&self, f: &mut fmt::Formatter<W>) -> fmt::Result {
        match self {
            Answer::Number(number) => write!(f, "{number}"),
            Answer::Word(word) => write!(f, "{word}"),
            Answer::Done => write!(f, "done"),
        }
    }
}

// makes exactly the call that is asked for
pub(crate) fn make<M: Memory>(memory: &mut M, request: Request) -> Result<Answer, NoAddress>
    ensures { Answered M.Memory request result memory.old memory.new }
{
    let answer = match request {
        Request::Size => Answer::Number(memory.size()),
        Request::Look(side, address) => Answer::Word(memory.look(side, address)?),
        Request::Count(side) => Answer::Number(memory.count(side)),
        Request::Store(side, address, word) => {
            memory.store(side, address, word)?;
            Answer::Done
        }
        Request::Bar(side) => {
            memory.bar(side);
            Answer::Done
        }
        Request::Land(side, pick) => {
            memory.land(side, pick);
            Answer::Done
        }
        Request::Drain => {
            memory.drain();
            Answer::Done
        }
    };
    Ok(answer)
}
