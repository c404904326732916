//! A lane over a memory.
ghost use Rattle.std.specs.Prelude.{◌≡◌, ℕ, ◌+◌, ◌*◌, ◌<◌, ◌≤◌, length, get_or};
ghost use Rattle.lane.specs.Layout.{Within, words_of};
ghost use Rattle.lane.specs.Stages.{put_ring, take_ring, put_steps, take_steps};

use crate::shapes::Shape;
use crate::sides::{Drawer, Feeder};
use memory::Memory;
use words::Kind;

/// A lane with the memory that it owns, which has all the words that the lane needs.
pub struct Lane<K: Kind, M: Memory> {
    pub(crate) memory: M,
    pub(crate) number: u32,
    pub(crate) shape: Shape,
    pub(crate) feeder: Feeder<K>,
    pub(crate) drawer: Drawer<K>,
    ghost roomy: { words_of shape.rings shape.cells ≤ length (M.Memory.meaning memory).landed },
    ghost feeder_places: { Within shape.rings shape.cells feeder.places },
    ghost drawer_places: { Within shape.rings shape.cells drawer.places },
    ghost feeder_hand: { (put_ring feeder.stage < shape.rings) × (feeder.steps ≤ put_steps feeder.stage) },
    ghost drawer_hand: { (take_ring drawer.stage < shape.rings) × (drawer.steps ≤ take_steps drawer.stage) },
}
