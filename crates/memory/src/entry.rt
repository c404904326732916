//! The stores and bars that a store buffer keeps.
ghost use Rattle.std.specs.Prelude.{◌≡◌, ◌<◌, ◌≤◌, [], ◌∷◌, ◌++◌, length};
ghost use Rattle.memory.specs.Meaning.{stores};
ghost use Rattle.memory.specs.Entries.{own, newer, newest, is_store, word_to};

use crate::PLACES;
use arrayvec::ArrayVec;

/// A store or a bar that was called and has not gone below yet.
#[derive(Clone, Copy, Debug, Default, PartialEq, Eq)]
pub enum Entry {
    Store { address: usize, word: u64 },
    #[default]
    Bar,
}

impl Entry {
    // the word of a store to the address
    pub(crate) fn word_to(self, address: usize) -> Option<u64>
        ensures { result ≡ word_to address self }
    {
        match self {
            Entry::Store { address: at, word } if at == address => Some(word),
            _ => None,
        }
    }

    // whether it is a store to an address below `size`
    pub(crate) fn stores_below(self, size: usize) -> bool
        ensures { result ≡ is_store size self }
    {
        matches!(self, Entry::Store { address, .. } if address < size)
    }
}

// what is found once this entry is seen too
fn find_newer(kept: Entry, address: usize, found: Option<u64>) -> Option<u64>
    ensures { result ≡ newer address kept found }
{
    kept.word_to(address).or(found)
}

// the word of the youngest store to the address
pub(crate) fn find_newest(entries: &[Entry], address: usize) -> Option<u64>
    ensures { result ≡ newest address entries.now }
{
    let mut found = None;
    for kept in entries {
        found = find_newer(*kept, address, found);
    }
    found
}

// how many stores there are to addresses below `size`
pub(crate) fn count_stores(entries: &[Entry], size: usize) -> usize
    ensures count { result ≡ stores (own size entries.now) }
    ensures few { result ≤ length entries.now }
{
    entries
        .iter()
        .filter(|kept| kept.stores_below(size))
        .count()
}

// fills the entry that it is lent
fn fill(place: &mut Entry, entry: Entry)
    ensures { place.new ≡ entry }
{
    *place = entry;
}

// a further entry, the youngest: its place at the end is lent to `fill`
pub(crate) fn append(kept: &mut ArrayVec<Entry, PLACES>, entry: Entry)
    requires { length kept.old.items < 16 }
    ensures { kept.new.items ≡ kept.old.items ++ (entry ∷ []) }
{
    let last = kept.len();
    kept.push(Entry::default());
    fill(&mut kept.as_mut_slice()[last], entry);
}
