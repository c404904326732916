//! Opening a lane.
ghost use Rattle.std.specs.Prelude.{◌≡◌, ℕ, ◌+◌, ◌-◌, ◌*◌, ◌<◌, ◌≤◌, length, MatchResult};
ghost use Rattle.lane.specs.Layout.{Shaped, words_of};
ghost use Rattle.lane.specs.Openings.{first_word, Filled, Openable, Unopened, OpenedOver};

use crate::ends::{DrawerIdle, FeederIdle, Idle};
use crate::lanes::Lane;
use crate::memory_calls::store;
use crate::refusals::OpenRefusal;
use crate::shapes::Shape;
use crate::sides::Hand;
use memory::{Memory, Side};
use words::Kind;

/// A lane just opened, with its two ends.
pub struct Opened<K: Kind, M: Memory> {
    pub lane: Lane<K, M>,
    pub feeder: FeederIdle,
    pub drawer: DrawerIdle,
}

/// A lane that was not opened: the memory comes back as given, and why.
#[derive(Drop)]
pub struct NoLane<M> {
    pub memory: M,
    pub why: OpenRefusal,
}

// the word that an address has at first
fn first_word(shape: Shape, a: usize) -> u64
    requires { a < words_of shape.rings shape.cells }
    ensures { result ≡ first_word shape.rings shape.cells a }
{
    let free = shape.free_list();
    if a < free {
        0
    } else if a < shape.mark() - 1 {
        (a - free + 2) as u64
    } else if a == shape.mark() {
        1
    } else {
        0
    }
}

// The shape of a lane that can be opened in the memory: the ranges of its numbers first, then the memory's size.
fn openable<M: Memory>(memory: &mut M, rings: u8, cells: u8) -> Result<Shape, OpenRefusal>
    ensures { MatchResult result
        (λ s. (s.rings ≡ rings) × (s.cells ≡ cells) × Openable M.Memory rings cells memory.old memory.new)
        (λ why. Unopened M.Memory rings cells why memory.old memory.new) }
{
    let shape = Shape::new(rings, cells)?;
    if memory.size() < shape.words() {
        return Err(OpenRefusal::TooSmall);
    }
    Ok(shape)
}

/// Whether a lane of this many rings and cells can be opened in the memory: their ranges first, then the memory's size.
// plain numbers and no `Shape`, since those out of range are refused here
pub fn check_opening<M: Memory>(memory: &mut M, rings: u8, cells: u8) -> Result<(), OpenRefusal>
    ensures { MatchResult result
        (λ _. Openable M.Memory rings cells memory.old memory.new)
        (λ why. Unopened M.Memory rings cells why memory.old memory.new) }
{
    openable(memory, rings, cells)?;
    Ok(())
}

// Stores every word of the lane, upwards; `a` is an address, so there is nothing to iterate over but the numbers.
fn fill<M: Memory>(memory: &mut M, shape: Shape)
    requires { words_of shape.rings shape.cells ≤ length (M.Memory.meaning memory.old).landed }
    ensures { Filled M.Memory shape.rings shape.cells memory.old (words_of shape.rings shape.cells) memory.new }
{
    for a in 0..shape.words() {
        store(memory, Side::Feeder, a, first_word(shape, a));
    }
}

impl<K: Kind, M: Memory> Lane<K, M> {
    /// Opens a lane of this many rings and cells in the memory, with a number that the caller chose.
    pub fn open(memory: M, rings: u8, cells: u8, number: u32) -> Result<Opened<K, M>, NoLane<M>>
        ensures { MatchResult result
            (λ o. OpenedOver M.Memory rings cells number memory o)
            (λ e. Unopened M.Memory rings cells e.why memory e.memory) }
    {
        let mut memory = memory;
        let shape = match openable(&mut memory, rings, cells) {
            Ok(shape) => shape,
            Err(why) => return Err(NoLane { memory, why }),
        };
        memory.drain();
        fill(&mut memory, shape);
        memory.drain();
        Ok(Opened {
            lane: Lane {
                memory,
                number,
                shape,
                feeder: Hand::new(0),
                drawer: Hand::new(shape.rings - 1),
            },
            feeder: Idle::new(number),
            drawer: Idle::new(number),
        })
    }
}
