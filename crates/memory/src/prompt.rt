//! The prompt memory: each store lands in the call that makes it.
ghost use Rattle.std.specs.Prelude.{◌≡◌, ◌<◌, length, slice_set};
ghost use Rattle.memory.specs.Owner.{SameWords};
ghost use Rattle.memory.specs.Prompt.{quiet, PromptCall};

use crate::{Memory, NoAddress, Side};

/// Each store lands in the call that makes it, in words that its owner lends.
#[derive(Drop)]
pub struct Prompt<'a> {
    words: &'a mut [u64],
}

impl<'a> Prompt<'a> {
    /// A memory of these words.
    pub fn new(words: &'a mut [u64]) -> Prompt<'a>
        ensures means { result.words.now ≡ words.old }
        ensures owner { SameWords words.entry result.words }
    {
        Prompt { words }
    }

    /// The words, as they landed.
    pub fn words(&self) -> &[u64]
        ensures { result.now ≡ self.now.words.now }
    {
        self.words
    }

    /// Hands the words back, as they landed.
    pub fn into_words(self) -> &'a mut [u64]
        ensures { result.now ≡ self.entry.words.now }
    {
        let Prompt { words } = self;
        words
    }

    fn write(&mut self, address: usize, word: u64)
        requires { address < length self.old.words.now }
        ensures means { self.new.words.now ≡ slice_set self.old.words.now address word }
        ensures owner { SameWords self.old.words self.new.words }
    {
        self.words[address] = word;
    }
}

impl Memory for Prompt<'_> {
    ghost meaning = { λ p. quiet p.words.now };

    ghost calls = { λ k x y. PromptCall k x.words.now y.words.now × SameWords x.words y.words };

    fn size(&mut self) -> usize {
        self.words.len()
    }

    fn look(&mut self, _side: Side, address: usize) -> Result<u64, NoAddress> {
        NoAddress::check(address, self.words.len())?;
        Ok(self.words[address])
    }

    fn count(&mut self, _side: Side) -> usize {
        0
    }

    fn store(&mut self, _side: Side, address: usize, word: u64) -> Result<(), NoAddress> {
        NoAddress::check(address, self.words.len())?;
        self.write(address, word);
        Ok(())
    }

    fn bar(&mut self, _side: Side) {}

    fn land(&mut self, _side: Side, _pick: usize) {}

    fn drain(&mut self) {}
}
