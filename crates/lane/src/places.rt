//! Addresses, and how a side moves on.
ghost use Rattle.std.specs.Prelude.{◌≡◌, ℕ, ◌+◌, ◌*◌, ◌<◌, ◌≤◌};
ghost use Rattle.lane.specs.Layout.{Within, words_of, advanced, spot_cell, moved_on};

use crate::shapes::Shape;
use crate::sides::{Places, Spot};

fn advance(i: u8, n: u8) -> u8
    requires { i < n }
    ensures { (result ≡ advanced n i) × (result < n) }
{
    if i + 1 == n { 0 } else { i + 1 }
}

// `Within` is asked for, and no ghost field: it needs the shape, which would then stand in every side and in each definition
// that moves one on
impl Places {
    /// The address of the cell.
    pub(crate) fn cell(&self, shape: Shape, spot: Spot) -> usize
        requires { Within shape.rings shape.cells self.now }
        ensures is { result ≡ spot_cell shape.rings shape.cells self.now spot }
        ensures inside { result < words_of shape.rings shape.cells }
    {
        match spot {
            Spot::Own => {
                self.ring as usize * shape.cells as usize + self.at[self.ring as usize] as usize
            }
            Spot::Next => shape.next_list() + self.next as usize,
            Spot::Free => shape.free_list() + self.free as usize,
            Spot::Mark => shape.mark(),
        }
    }

    /// The positions once the side has stored in the cell; the mark has none.
    pub(crate) fn moved_on(self, shape: Shape, spot: Spot) -> Places
        requires { Within shape.rings shape.cells self }
        ensures { (result ≡ moved_on shape.rings shape.cells self spot) × Within shape.rings shape.cells result }
    {
        let mut places = self;
        match spot {
            Spot::Own => {
                let ring = self.ring as usize;
                places.at[ring] = advance(self.at[ring], shape.cells);
            }
            Spot::Next => places.next = advance(self.next, shape.rings),
            Spot::Free => places.free = advance(self.free, shape.rings),
            Spot::Mark => {}
        }
        places
    }
}
