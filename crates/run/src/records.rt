//! The log of a run: a record of each call that ended.

/// How a call ended, with its item's word.
#[derive(Clone, Copy, Debug, PartialEq, Eq)]
pub enum Answer {
    Accepted(u64),
    NoRing(u64),
    Taken(u64),
    Empty,
}

/// A call that ended: the move that ended it, its answer and the number of its own steps.
#[derive(Clone, Copy, Debug, PartialEq, Eq)]
pub struct Record {
    pub index: usize,
    pub answer: Answer,
    pub steps: u8,
}
