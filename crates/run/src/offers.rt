//! The words that a run offers.
ghost use Rattle.std.specs.Prelude.{◌≡◌, ◌<◌, ◌≤◌, length, slice_index, MatchResult, MatchOption};
ghost use Rattle.run.specs.Spelling.{Spelled, AllRead, FirstOdd};

use crate::faults::WordFault;
use std::marker::PhantomData;
use words::Kind;

/// The words of the items that a run offers, in order.
#[derive(Drop)]
pub(crate) struct Offer<'a, K: Kind> {
    pub(crate) words: &'a [u64],
    kind: PhantomData<K>,
    ghost all_read: { AllRead K.Kind words.now },
}

impl<'a, K: Kind> Offer<'a, K> {
    /// Refuses the first word that is no item's.
    pub(crate) fn new(words: &'a [u64]) -> Result<Offer<'a, K>, WordFault>
        ensures { MatchResult result (λ o. (o.words.now ≡ words.now) × Spelled K.Kind words.now) (λ f. FirstOdd K.Kind words.now f) }
    {
        for (index, word) in words.iter().enumerate() {
            if let Err(fault) = K::read(*word) {
                return Err(WordFault { index, fault });
            }
        }
        Ok(Offer {
            words,
            kind: PhantomData,
        })
    }

    /// The item with this index, if there is one.
    pub(crate) fn item(&self, index: usize) -> Option<K>
        ensures { MatchOption result
            (length self.now.words.now ≤ index)
            (λ i. (index < length self.now.words.now) × (K.Kind.word i ≡ slice_index self.now.words.now index)) }
    {
        let word = self.words.get(index)?;
        K::read(*word).ok()
    }
}
