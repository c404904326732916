//! The controller's own pile of memories.
ghost use Rattle.memory.specs.Pile.{Piled};

use crate::buffer::Buffer;
use crate::loose::Loose;

const DEPTH: usize = 8;

impl<'a> Buffer<Loose<'a>> {
    /// The controller's own pile over these words: a buffer of depth 8 over the loose memory.
    pub fn pile(words: &'a mut [u64]) -> Buffer<Loose<'a>>
        ensures { Piled words.entry result }
    {
        Buffer::empty(Loose::new(words), DEPTH)
    }
}
