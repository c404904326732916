//! How many rings a lane has, and where its lists lie.
ghost use Rattle.std.specs.Prelude.{◌≡◌, ℕ, ◌+◌, ◌*◌, ◌≤◌, MatchResult};
ghost use Rattle.lane.specs.Layout.{Shaped, words_of, mark_cell};
ghost use Rattle.lane.specs.declared.refusals.OpenRefusal.TheVariants.{OutOfRange};

use crate::refusals::OpenRefusal;

/// A number of rings and a number of cells that a lane can have.
#[derive(Clone, Copy)]
pub struct Shape {
    pub(crate) rings: u8,
    pub(crate) cells: u8,
    ghost shaped: { Shaped rings cells },
}

impl Shape {
    pub(crate) fn new(rings: u8, cells: u8) -> Result<Shape, OpenRefusal>
        ensures { MatchResult result
            (λ s. (s.rings ≡ rings) × (s.cells ≡ cells))
            (λ why. (why ≡ OutOfRange) × (Shaped rings cells → ⊥)) }
    {
        if !(2..=8).contains(&rings) || !(1..=64).contains(&cells) {
            return Err(OpenRefusal::OutOfRange);
        }
        Ok(Shape { rings, cells })
    }

    // the cells of all rings come first, then the next list
    pub(crate) fn next_list(self) -> usize
        ensures { result ≡ self.rings * self.cells }
    {
        self.rings as usize * self.cells as usize
    }

    // then the free list
    pub(crate) fn free_list(self) -> usize
        ensures { result ≡ self.rings * self.cells + self.rings }
    {
        self.next_list() + self.rings as usize
    }

    // then the mark
    pub(crate) fn mark(self) -> usize
        ensures { result ≡ mark_cell self.rings self.cells }
    {
        self.free_list() + self.rings as usize
    }

    /// How many words a lane needs.
    pub(crate) fn words(self) -> usize
        ensures { result ≡ words_of self.rings self.cells }
    {
        self.mark() + 1
    }
}
