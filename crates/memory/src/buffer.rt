//! The store buffer above any memory.
ghost use Rattle.std.specs.Prelude.{◌≡◌, ◌<◌, ◌≤◌, [], length, ℕ, MatchBool, MatchResult};
ghost use Rattle.memory.specs.Refusals.{number_of, depth_out_of_range};

use crate::entry::{Entry, append, count_stores, find_newest};
use crate::sides::Sides;
use crate::{Memory, NoAddress, PLACES, Side};
use arrayvec::ArrayVec;
use thiserror::Error;

/// Keeps the last stores and bars of each side before they go to the memory below.
#[derive(Drop)]
pub struct Buffer<M> {
    below: M,
    depth: usize,
    kept: Sides<ArrayVec<Entry, PLACES>>,
    ghost fits: { (1 ≤ depth) × (depth ≤ 16) },
}

/// Refusal of a buffer whose depth is not 1 to 16; the memory is handed back.
#[derive(Drop, Error)]
#[error("a buffer has a depth of 1 to 16, not {depth}")]
pub struct BadDepth<M> {
    pub depth: usize,
    pub memory: M,
}

impl<M> BadDepth<M> {
    /// The number by which a baker knows this refusal.
    pub fn number(&self) -> u8
        ensures { result ≡ number_of depth_out_of_range }
    {
        3
    }
}

impl<M: Memory> Buffer<M> {
    ghost use Rattle.memory.specs.Buffer.{parts, mine, Sent, SendsOne, Sends, Room, Joins, Counts, Through, LandsBelow, DrainsBelow, Opened, Refused};

    pub(crate) fn empty(below: M, depth: usize) -> Buffer<M>
        requires { (1 ≤ depth) × (depth ≤ 16) }
        ensures { parts result ≡ record { below = below; depth = depth; feeder = []; drawer = [] } }
    {
        Buffer {
            below,
            depth,
            kept: Sides {
                feeder: ArrayVec::new(),
                drawer: ArrayVec::new(),
            },
        }
    }

    /// A buffer of this depth over a memory, which comes back where the depth is not 1 to 16.
    pub fn new(below: M, depth: usize) -> Result<Buffer<M>, BadDepth<M>>
        ensures { MatchResult result (λ b. Opened below depth b) (λ e. Refused below depth e.depth e.memory) }
    {
        if !(1..=PLACES).contains(&depth) {
            return Err(BadDepth {
                depth,
                memory: below,
            });
        }
        Ok(Buffer::empty(below, depth))
    }

    /// The memory below.
    pub fn below(&self) -> &M
        ensures { result.now ≡ (parts self.now).below }
    {
        &self.below
    }

    /// Hands the memory below back; entries that have not gone below are lost.
    pub fn into_below(self) -> M
        ensures { result ≡ (parts self).below }
    {
        let Buffer { below, .. } = self;
        below
    }

    /// The entries of a side that have not gone below, oldest first.
    pub fn entries(&self, side: Side) -> &[Entry]
        ensures kept { result.now ≡ mine side (parts self.now) }
        ensures few { length result.now ≤ 16 }
    {
        self.kept.of(side).as_slice()
    }

    // one entry goes below
    fn send(below: &mut M, side: Side, entry: Entry)
        ensures { Sent M.Memory side entry below.old below.new }
    {
        match entry {
            Entry::Store { address, word } => {
                let _ = below.store(side, address, word);
            }
            Entry::Bar => below.bar(side),
        }
    }

    fn send_one(&mut self, side: Side)
        requires { 0 < length (mine side (parts self.old)) }
        ensures { SendsOne M.Memory side (parts self.old) (parts self.new) }
    {
        let oldest = self.kept.of_mut(side).remove(0);
        Self::send(&mut self.below, side, oldest);
    }

    fn send_many(&mut self, side: Side, n: usize)
        requires { n ≤ length (mine side (parts self.old)) }
        ensures { Sends M.Memory side (parts self.old) n (parts self.new) }
    {
        for _ in 0..n {
            self.send_one(side);
        }
    }

    // one entry too many first sends the oldest below
    fn make_room(&mut self, side: Side)
        ensures means { Room M.Memory side (parts self.old) (parts self.new) }
        ensures free { length (mine side (parts self.new)) < 16 }
    {
        if self.entries(side).len() >= self.depth {
            self.send_one(side);
        }
    }

    fn join(&mut self, side: Side, entry: Entry)
        ensures { Joins M.Memory side entry (parts self.old) (parts self.new) }
    {
        self.make_room(side);
        append(self.kept.of_mut(side), entry);
    }

    fn count_all(&mut self, side: Side) -> usize
        ensures { Counts M.Memory side result (parts self.old) (parts self.new) }
    {
        let size = self.below.size();
        let waiting = self.below.count(side);
        let kept = count_stores(self.entries(side), size);
        waiting.saturating_add(kept)
    }

    // sends the oldest entries below through the first store, and says whether there is one
    fn send_through(&mut self, side: Side) -> bool
        ensures { MatchBool result
            ((t : ℕ) × (0 < t) × Through M.Memory side t (parts self.old) (parts self.new))
            (Through M.Memory side 0 (parts self.old) (parts self.new)) }
    {
        let size = self.below.size();
        let Some(first) = self
            .entries(side)
            .iter()
            .position(|kept| kept.stores_below(size))
        else {
            return false;
        };
        self.send_many(side, first + 1);
        true
    }

    fn land_below(&mut self, side: Side, pick: usize)
        ensures { LandsBelow M.Memory side pick (parts self.old) (parts self.new) }
    {
        if self.below.count(side) > 0 || self.send_through(side) {
            self.below.land(side, pick);
        }
    }

    fn send_all(&mut self, side: Side)
        ensures { Sends M.Memory side (parts self.old) (length (mine side (parts self.old))) (parts self.new) }
    {
        let n = self.entries(side).len();
        self.send_many(side, n);
    }

    fn drain_below(&mut self)
        ensures { DrainsBelow M.Memory (parts self.old) (parts self.new) }
    {
        self.send_all(Side::Feeder);
        self.send_all(Side::Drawer);
        self.below.drain();
    }
}

impl<M: Memory> Memory for Buffer<M> {
    ghost use Rattle.memory.specs.Buffer.{parts, BufferCall, above};

    ghost meaning = { λ x. above M.Memory (parts x) };

    ghost calls = { λ k x y. BufferCall M.Memory k (parts x) (parts y) };

    fn size(&mut self) -> usize {
        self.below.size()
    }

    fn look(&mut self, side: Side, address: usize) -> Result<u64, NoAddress> {
        NoAddress::check(address, self.below.size())?;
        match find_newest(self.entries(side), address) {
            Some(word) => Ok(word),
            None => self.below.look(side, address),
        }
    }

    fn count(&mut self, side: Side) -> usize {
        self.count_all(side)
    }

    fn store(&mut self, side: Side, address: usize, word: u64) -> Result<(), NoAddress> {
        NoAddress::check(address, self.below.size())?;
        self.join(side, Entry::Store { address, word });
        Ok(())
    }

    fn bar(&mut self, side: Side) {
        self.join(side, Entry::Bar);
    }

    fn land(&mut self, side: Side, pick: usize) {
        self.land_below(side, pick);
    }

    fn drain(&mut self) {
        self.drain_below();
    }
}
