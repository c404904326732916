//! Items of every kind, to words and back.
ghost use Rattle.std.specs.Prelude.{◌≡◌, MatchResult};
ghost use Rattle.words.specs.declared.faults.ItemFault.TheVariants.{NoItem};
ghost use Rattle.items.specs.Items.{item_word, kind_of, NoItemOf};

use words::{Edit, ItemFault, Kind, Reading, RingNumber};

// The kind is known only once a line is read, so these are enums and no type parameter.

/// A kind of item, as it is named in text.
#[derive(Clone, Copy)]
pub enum KindName {
    Edit,
    Reading,
    Ring,
}

/// An item of any kind.
#[derive(Clone, Copy)]
pub enum Item {
    Edit(Edit),
    Reading(Reading),
    Ring(RingNumber),
}

impl Item {
    pub(crate) fn to_word(self) -> u64
        ensures { result ≡ item_word self }
    {
        match self {
            Item::Edit(edit) => edit.to_word(),
            Item::Reading(reading) => reading.to_word(),
            Item::Ring(ring) => ring.to_word(),
        }
    }

    /// The item of this kind whose word this is.
    pub(crate) fn read(kind: KindName, word: u64) -> Result<Item, ItemFault>
        ensures { MatchResult result (λ i. (kind_of i ≡ kind) × (item_word i ≡ word)) (λ f. (f ≡ NoItem word) × NoItemOf kind word) }
    {
        match kind {
            KindName::Edit => Edit::read(word).map(Item::Edit),
            KindName::Reading => Reading::read(word).map(Item::Reading),
            KindName::Ring => RingNumber::read(word).map(Item::Ring),
        }
    }
}
