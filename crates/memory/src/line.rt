//! The stores of one side that wait, at most sixteen, and the bars between them.
ghost use Rattle.std.specs.Prelude.{◌≡◌, ℕ, ◌-◌, ◌%◌, ◌<◌, ◌≤◌, Bool, true, [], ◌∷◌, ◌++◌, length, take, MatchOption, slice_index_or};
ghost use Rattle.memory.specs.Meaning.{store, bar, tidy, words_to, last_or, stores};
ghost use Rattle.memory.specs.Line.{line_of, line_in, older_than, free, ready, blank, holds_back, Numbered, TakenOut};
ghost use Rattle.std.specs.List.{remove};
ghost use Rattle.std.specs.Option.{unwrap_or};

use crate::PLACES;
use arrayvec::ArrayVec;

/// A store that waits; `barred` says that a bar stands before it.
#[derive(Clone, Copy, Debug, Default, PartialEq, Eq)]
pub struct Waiting {
    pub address: usize,
    pub word: u64,
    pub barred: bool,
}

/// The waiting stores of a side, oldest first; `fenced` says that a bar stands behind the last.
#[derive(Clone, Copy)]
pub struct Waits<'a> {
    pub stores: &'a [Waiting],
    pub fenced: bool,
}

// a bar takes no place: it is a mark on the store behind it, or at the end
#[derive(Drop)]
pub(crate) struct Line {
    waiting: ArrayVec<Waiting, PLACES>,
    fenced: bool,
}

// the word of the youngest store to the address
fn youngest(waiting: &[Waiting], address: usize) -> Option<u64>
    ensures { (f : Bool) (w : ℕ) → unwrap_or result w ≡ last_or (words_to address (line_of waiting.now f)) w }
{
    waiting
        .iter()
        .rev()
        .find(|store| store.address == address)
        .map(|store| store.word)
}

// whether a store, with the store that follows it, holds back a later one to the address
fn holds_back(older: &Waiting, follower: &Waiting, address: usize) -> bool
    ensures { result ≡ holds_back older.now follower.now address }
{
    older.address == address || follower.barred
}

// whether nothing holds back store number `at`
fn can_land(waiting: &[Waiting], at: usize) -> bool
    requires { at < length waiting.now }
    ensures { result ≡ free (slice_index_or waiting.now at blank).address (older_than waiting.now at) }
{
    let address = waiting[at].address;
    let followers = &waiting[1..];
    !waiting[..at]
        .iter()
        .zip(followers)
        .any(|(older, follower)| holds_back(older, follower, address))
}

// how many stores can land
fn count_ready(waiting: &[Waiting]) -> usize
    ensures { (f : Bool) → result ≡ ready [] (line_of waiting.now f) }
{
    (0..waiting.len())
        .filter(|at| can_land(waiting, *at))
        .count()
}

// the place of number `k` of the stores that can land
fn place_of(waiting: &[Waiting], k: usize) -> Option<usize>
    ensures { MatchOption result (ready [] (line_of waiting.now true) ≤ k) (Numbered k waiting.now) }
{
    (0..waiting.len())
        .filter(|at| can_land(waiting, *at))
        .nth(k)
}

// closes the gap at `at`: each store behind it moves up by one, and the last place is left over
fn close(waiting: &mut [Waiting], at: usize)
    requires { at < length waiting.old }
    ensures { take (length waiting.old - 1) waiting.new ≡ remove waiting.old at }
{
    for i in at + 1..waiting.len() {
        waiting[i - 1] = waiting[i];
    }
}

// takes out store number `at`; for a vector's `remove` the compiler would ask the host for `memmove`
fn take_out(waiting: &mut ArrayVec<Waiting, PLACES>, at: usize) -> Waiting
    requires { at < length waiting.old.items }
    ensures value { result ≡ slice_index_or waiting.old.items at result }
    ensures items { waiting.new.items ≡ remove waiting.old.items at }
{
    let gone = waiting.as_slice()[at];
    close(waiting.as_mut_slice(), at);
    waiting.pop();
    gone
}

impl Line {
    pub(crate) fn new() -> Line
        ensures { line_in result ≡ [] }
    {
        Line {
            waiting: ArrayVec::new(),
            fenced: false,
        }
    }

    // how many stores wait
    pub(crate) fn count(&self) -> usize
        ensures count { result ≡ stores (line_in self.now) }
        ensures few { result ≤ 16 }
    {
        self.waiting.len()
    }

    pub(crate) fn waiting(&self) -> Waits<'_>
        ensures { line_of result.stores.now result.fenced ≡ line_in self.now }
    {
        Waits {
            stores: self.waiting.as_slice(),
            fenced: self.fenced,
        }
    }

    pub(crate) fn look(&self, address: usize) -> Option<u64>
        ensures { (w : ℕ) → unwrap_or result w ≡ last_or (words_to address (line_in self.now)) w }
    {
        youngest(self.waiting.as_slice(), address)
    }

    pub(crate) fn store(&mut self, address: usize, word: u64)
        requires { stores (line_in self.old) < 16 }
        ensures { line_in self.new ≡ tidy (line_in self.old ++ (store address word ∷ [])) }
    {
        self.waiting.push(Waiting {
            address,
            word,
            barred: self.fenced,
        });
        self.fenced = false;
    }

    pub(crate) fn bar(&mut self)
        ensures { line_in self.new ≡ tidy (line_in self.old ++ (bar ∷ [])) }
    {
        self.fenced = true;
    }

    // takes out number `pick`, modulo their count, of the stores that can land
    pub(crate) fn pick(&mut self, pick: usize) -> Option<Waiting>
        ensures { MatchOption result
            ((ready [] (line_in self.old) ≡ 0) × (line_in self.new ≡ line_in self.old))
            (λ w. (0 < ready [] (line_in self.old)) × TakenOut (pick % ready [] (line_in self.old)) (line_in self.old) w.address w.word (line_in self.new)) }
    {
        let waiting = self.waiting.as_slice();
        let ready = count_ready(waiting);
        if ready == 0 {
            return None;
        }
        let at = place_of(waiting, pick % ready)?;
        Some(take_out(&mut self.waiting, at))
    }
}
