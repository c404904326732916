//! What a run comes to.
ghost use Rattle.std.specs.Prelude.{◌≡◌};
ghost use Rattle.run.specs.declared.faults.RunFault.TheVariants.{Opening};

use crate::faults::{RunFault, Stop};
use lane::NoLane;

/// How many calls ended, how many moves were made, and what stopped the run before its last move, if anything.
#[derive(Clone, Copy, Debug, PartialEq, Eq)]
pub struct Tally {
    pub calls: usize,
    pub moves: usize,
    pub stop: Option<Stop>,
}

/// The memory as a run leaves it, and what the run came to.
#[derive(Drop)]
pub struct Ran<M> {
    pub memory: M,
    pub tally: Tally,
}

/// A run that did not begin: the memory as the checks leave it, and why.
#[derive(Drop)]
pub struct NotRun<M> {
    pub memory: M,
    pub why: RunFault,
}

// by hand, as a derive neither carries two fields over nor says what it gives
impl<M> From<NoLane<M>> for NotRun<M> {
    ghost from_gives = { λ e r. (r.memory ≡ e.memory) × (r.why ≡ Opening e.why) };

    fn from(e: NoLane<M>) -> NotRun<M> {
        let NoLane { memory, why } = e;
        NotRun {
            memory,
            why: RunFault::Opening(why),
        }
    }
}

impl<M: Drop> From<NotRun<M>> for RunFault {
    ghost from_gives = { λ e r. r ≡ e.why };

    fn from(e: NotRun<M>) -> RunFault {
        let NotRun { memory: _, why } = e;
        why
    }
}

/// How many items were accepted so far, and how many calls have ended.
#[derive(Clone, Copy)]
pub(crate) struct Counts {
    pub(crate) accepted: usize,
    pub(crate) calls: usize,
}
