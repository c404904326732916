//! Words that name a ring.
ghost use Rattle.std.specs.Prelude.{◌≡◌, ◌+◌, ◌≤◌};
ghost use Rattle.lane.specs.Layout.{ring_word, RingRead};

use crate::shapes::Shape;
use words::{Kind, RingNumber};

/// The ring that a word names, if it is one of the lane's.
pub(crate) fn ring_of(word: u64, shape: Shape) -> Option<u8>
    ensures { RingRead shape.rings word result }
{
    match RingNumber::read(word) {
        Ok(ring) if ring.number < shape.rings => Some(ring.number),
        Ok(_) => None,
        Err(_) => None,
    }
}

// inside a lane rings are plain numbers, which index and are counted with; only the words of its memory name them
pub(crate) fn word_of(ring: u8) -> u64
    ensures { result ≡ ring_word ring }
{
    u64::from(ring) + 1
}
