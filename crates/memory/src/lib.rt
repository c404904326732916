//! Memories whose stores wait: what a memory means, the calls that it takes, and three memories that keep its rules.
#![tactic(auto)]

ghost use Rattle.std.specs.Prelude.{◌≡◌, ◌<◌, ◌≤◌, MatchResult};
ghost use Rattle.memory.specs.declared.Side.{Side};
ghost use Rattle.memory.specs.Meaning.{Meaning, Call, Size, Look, Count, Store, Bar, Land, Drain, Made, NoPlace};
ghost use Rattle.memory.specs.Refusals.{number_of, no_such_address};

use thiserror::Error;

mod buffer;
mod entry;
mod laws;
mod line;
mod loose;
mod pile;
mod prompt;
mod sides;

pub use buffer::{BadDepth, Buffer};
pub use entry::Entry;
pub use laws::{laws_stand, lend_and_read};
pub use line::{Waiting, Waits};
pub use loose::Loose;
pub use prompt::Prompt;

// how many stores or entries of a side a memory keeps at most
const PLACES: usize = 16;

/// The two ends of a lane: the feeder puts items in, the drawer takes them out.
#[derive(Clone, Copy, Debug, PartialEq, Eq)]
pub enum Side {
    Feeder,
    Drawer,
}

/// Refusal of a look or a store: the memory has no such address.
#[derive(Clone, Copy, Debug, PartialEq, Eq, Error)]
#[error("the memory has no address {address}")]
pub struct NoAddress {
    pub address: usize,
}

impl NoAddress {
    // refuses an address that a memory of this size lacks
    fn check(address: usize, size: usize) -> Result<(), NoAddress>
        ensures { MatchResult result (λ _. address < size) (λ e. (size ≤ address) × (e.address ≡ address)) }
    {
        if address < size {
            Ok(())
        } else {
            Err(NoAddress { address })
        }
    }

    /// The number by which a baker knows this refusal.
    pub fn number(&self) -> u8
        ensures { result ≡ number_of no_such_address }
    {
        6
    }
}

/// A memory of words whose stores may wait before they land.
///
/// Each side has a line of waiting stores and bars, oldest first. A bar keeps the stores behind it from
/// landing before those in front of it.
pub trait Memory {
    // the landed words and both lines
    ghost meaning: { Self → Meaning };

    // exactly this call with this answer, from one value of the memory to the next
    ghost calls: { Call → Self → Self → Type 0 };

    /// How many addresses there are.
    fn size(&mut self) -> usize
        ensures { Made meaning calls (Size result) self.old self.new };

    /// What the side sees at the address: its own youngest waiting store, otherwise the landed word.
    fn look(&mut self, side: Side, address: usize) -> Result<u64, NoAddress>
        ensures { MatchResult result
            (λ w. Made meaning calls (Look side address w) self.old self.new)
            (λ e. NoPlace meaning address e.address self.old self.new) };

    /// How many stores of the side wait.
    fn count(&mut self, side: Side) -> usize
        ensures { Made meaning calls (Count side result) self.old self.new };

    /// The store joins the end of the side's line.
    fn store(&mut self, side: Side, address: usize, word: u64) -> Result<(), NoAddress>
        ensures { MatchResult result
            (λ _. Made meaning calls (Store side address word) self.old self.new)
            (λ e. NoPlace meaning address e.address self.old self.new) };

    /// A bar joins the end of the side's line.
    fn bar(&mut self, side: Side)
        ensures { Made meaning calls (Bar side) self.old self.new };

    /// If a store of the side waits, at least one of that side lands; `pick` chooses among them.
    fn land(&mut self, side: Side, pick: usize)
        ensures { Made meaning calls (Land side pick) self.old self.new };

    /// Everything lands.
    fn drain(&mut self)
        ensures { Made meaning calls Drain self.old self.new };
}
