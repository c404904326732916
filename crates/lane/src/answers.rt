//! How calls end.
ghost use Rattle.std.specs.Prelude.{◌≡◌};
ghost use Rattle.lane.specs.Refusals.{put_number, take_number};

use std::fmt;
use words::Kind;

/// The answer of a call, with the number of its own steps.
#[derive(Clone, Copy, Debug, PartialEq, Eq)]
pub struct Ended<A> {
    pub answer: A,
    pub steps: u8,
}

#[derive(Clone, Copy, Debug, PartialEq, Eq)]
pub enum PutAnswer<K> {
    Accepted,
    /// No ring is free; the item comes back.
    NoRing(K),
    /// A word of the lane is none that a lane writes there.
    Damaged,
}

#[derive(Clone, Copy, Debug, PartialEq, Eq)]
pub enum TakeAnswer<K> {
    Taken(K),
    Empty,
    /// A word of the lane is none that a lane writes there.
    Damaged,
}

impl<K: Kind> PutAnswer<K> {
    /// The number that a baker sees, where the put was refused.
    pub fn number(self) -> Option<u8>
        ensures { result ≡ put_number self }
    {
        match self {
            PutAnswer::Accepted => None,
            PutAnswer::NoRing(_) => Some(7),
            PutAnswer::Damaged => Some(9),
        }
    }
}

impl<K: Kind> TakeAnswer<K> {
    /// The number that a baker sees, where the take was refused.
    pub fn number(self) -> Option<u8>
        ensures { result ≡ take_number self }
    {
        match self {
            TakeAnswer::Taken(_) => None,
            TakeAnswer::Empty => Some(8),
            TakeAnswer::Damaged => Some(9),
        }
    }
}

// by hand, as an answer is no error that `thiserror` could derive
impl<K> fmt::Display for PutAnswer<K> {
    fn fmt<W: fmt::Write>(&self, f: &mut fmt::Formatter<W>) -> fmt::Result {
        match self {
            PutAnswer::Accepted => f.write_str("the item is accepted"),
            PutAnswer::NoRing(_) => f.write_str(
                "no ring is free: take an item first, then put this one again",
            ),
            PutAnswer::Damaged => f.write_str("the lane is damaged: open it again"),
        }
    }
}

impl<K> fmt::Display for TakeAnswer<K> {
    fn fmt<W: fmt::Write>(&self, f: &mut fmt::Formatter<W>) -> fmt::Result {
        match self {
            TakeAnswer::Taken(_) => f.write_str("an item is taken"),
            TakeAnswer::Empty => f.write_str("no item has arrived yet: take again later"),
            TakeAnswer::Damaged => f.write_str("the lane is damaged: open it again"),
        }
    }
}
