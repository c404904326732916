//! The loose memory: up to sixteen stores of each side wait.
ghost use Rattle.std.specs.Prelude.{◌≡◌, ◌+◌, ◌<◌, ◌≤◌};
ghost use Rattle.memory.specs.Meaning.{line, with_word, stores};
ghost use Rattle.memory.specs.Owner.{SameWords};
ghost use Rattle.memory.specs.Prompt.{quiet};
ghost use Rattle.memory.specs.Loose.{loose_meaning, Becomes, Landed, Oldest, Room, Stored, all_landed, drained, LooseCall};
ghost use Rattle.memory.specs.Line.{line_of};

use crate::line::{Line, Waiting, Waits};
use crate::sides::Sides;
use crate::{Memory, NoAddress, PLACES, Side};

/// Up to sixteen stores of each side wait, over words that their owner lends.
#[derive(Drop)]
pub struct Loose<'a> {
    words: &'a mut [u64],
    lines: Sides<Line>,
}

impl<'a> Loose<'a> {
    /// A memory of these words, in which nothing waits.
    pub fn new(words: &'a mut [u64]) -> Loose<'a>
        ensures means { loose_meaning result ≡ quiet words.old }
        ensures owner { SameWords words.entry result.words }
    {
        Loose {
            words,
            lines: Sides {
                feeder: Line::new(),
                drawer: Line::new(),
            },
        }
    }

    // both memories hand out their words by a line each, which a shared holder of the words would only pass on
    /// The words, as they landed.
    pub fn words(&self) -> &[u64]
        ensures { result.now ≡ self.now.words.now }
    {
        self.words
    }

    /// Hands the words back, as they landed; what still waits is lost.
    pub fn into_words(self) -> &'a mut [u64]
        ensures { result.now ≡ self.entry.words.now }
    {
        let Loose { words, .. } = self;
        words
    }

    /// What of the side waits.
    pub fn waiting(&self, side: Side) -> Waits<'_>
        ensures { line_of result.stores.now result.fenced ≡ line side (loose_meaning self.now) }
    {
        self.lines.of(side).waiting()
    }

    // how many stores of the side wait
    fn waits(&self, side: Side) -> usize
        ensures count { result ≡ stores (line side (loose_meaning self.now)) }
        ensures few { result ≤ 16 }
    {
        self.lines.of(side).count()
    }

    // makes the store's word the landed one; no store to an address beyond the last joins a line, so none is passed over here
    fn write(&mut self, store: Waiting)
        ensures { Becomes (λ m n. n ≡ with_word store.address store.word m) self.old self.new }
    {
        // not `get_mut`: a write through what it lends of `words` is not known of `self`
        if store.address < self.words.len() {
            self.words[store.address] = store.word;
        }
    }

    fn land_one(&mut self, side: Side, pick: usize)
        ensures { Becomes (Landed side pick) self.old self.new }
    {
        if let Some(store) = self.lines.of_mut(side).pick(pick) {
            self.write(store);
        }
    }

    fn land_oldest(&mut self, side: Side)
        requires { 0 < stores (line side (loose_meaning self.old)) }
        ensures lands { Becomes (Oldest side) self.old self.new }
        ensures fewer { stores (line side (loose_meaning self.new)) + 1 ≡ stores (line side (loose_meaning self.old)) }
    {
        self.land_one(side, 0);
    }

    // a store that finds sixteen of its side waiting first lands the oldest
    fn make_room(&mut self, side: Side)
        ensures makes { Becomes (Room side) self.old self.new }
        ensures free { stores (line side (loose_meaning self.new)) < 16 }
    {
        if self.waits(side) == PLACES {
            self.land_oldest(side);
        }
    }

    fn accept(&mut self, side: Side, address: usize, word: u64)
        ensures { Becomes (Stored side address word) self.old self.new }
    {
        self.make_room(side);
        self.lines.of_mut(side).store(address, word);
    }

    // lands all stores of the side, oldest first
    fn land_all(&mut self, side: Side)
        ensures { Becomes (λ m n. n ≡ all_landed side m) self.old self.new }
    {
        while self.waits(side) > 0 {
            self.land_oldest(side);
        }
    }

    fn land_both(&mut self)
        ensures { Becomes (λ m n. n ≡ drained m) self.old self.new }
    {
        self.land_all(Side::Feeder);
        self.land_all(Side::Drawer);
    }
}

impl Memory for Loose<'_> {
    ghost meaning = { loose_meaning };

    ghost calls = { λ k x y. LooseCall k (loose_meaning x) (loose_meaning y) × SameWords x.words y.words };

    fn size(&mut self) -> usize {
        self.words.len()
    }

    fn look(&mut self, side: Side, address: usize) -> Result<u64, NoAddress> {
        NoAddress::check(address, self.words.len())?;
        Ok(
            self.lines
                .of(side)
                .look(address)
                .unwrap_or(self.words[address]),
        )
    }

    fn count(&mut self, side: Side) -> usize {
        self.waits(side)
    }

    fn store(&mut self, side: Side, address: usize, word: u64) -> Result<(), NoAddress> {
        NoAddress::check(address, self.words.len())?;
        self.accept(side, address, word);
        Ok(())
    }

    fn bar(&mut self, side: Side) {
        self.lines.of_mut(side).bar();
    }

    fn land(&mut self, side: Side, pick: usize) {
        self.land_one(side, pick);
    }

    fn drain(&mut self) {
        self.land_both();
    }
}
