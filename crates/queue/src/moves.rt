//! Moves on a lane, and what they answer.
use lane::{Ended, PutAnswer, TakeAnswer};
use memory::Side;

#[derive(Clone, Copy, Debug, PartialEq, Eq)]
pub enum Move<K> {
    /// A step of the put under way, or the first of one that offers this item.
    Feed(K),
    /// A step of the take under way, or the first of one that begins.
    Draw,
    Drain,
    /// A landing for a side, with its pick.
    Land(Side, u8),
}

/// What a move answers: nothing, or how the call came out that it ended.
// no `Option` of the other two, which would only nest each pattern on it
#[derive(Clone, Copy, Debug, PartialEq, Eq)]
pub enum Said<K> {
    Nothing,
    Put(Ended<PutAnswer<K>>),
    Take(Ended<TakeAnswer<K>>),
}
