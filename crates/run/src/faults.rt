//! What stands against a run, and what stops one.
ghost use Rattle.std.specs.Prelude.{◌≡◌};
ghost use Rattle.run.specs.declared.faults.RunFault.TheVariants.{Opening, Word};
ghost use Rattle.run.specs.Refusals.{run_number, stop_number, stop_index};

use lane::OpenRefusal;
use words::ItemFault;

/// The word at this index is no item of the kind.
#[derive(Clone, Copy, Debug, PartialEq, Eq)]
pub struct WordFault {
    pub index: usize,
    pub fault: ItemFault,
}

/// Why a run does not begin.
#[derive(Clone, Copy, Debug, PartialEq, Eq)]
pub enum RunFault {
    Opening(OpenRefusal),
    Word(WordFault),
}

/// Why a run stops before its last move, with the index of the move that it stops at.
#[derive(Clone, Copy, Debug, PartialEq, Eq)]
pub enum Stop {
    /// The move met a damaged word.
    Damaged { index: usize },
    UnknownMove { index: usize },
    /// The log has no place for a record of the call that this move steps.
    LogFull { index: usize },
}

// by hand, since a derived `From` does not say which fault it makes
impl From<OpenRefusal> for RunFault {
    ghost from_gives = { λ e r. r ≡ Opening e };

    fn from(e: OpenRefusal) -> RunFault {
        RunFault::Opening(e)
    }
}

impl From<WordFault> for RunFault {
    ghost from_gives = { λ e r. r ≡ Word e };

    fn from(e: WordFault) -> RunFault {
        RunFault::Word(e)
    }
}

impl RunFault {
    /// The number that a baker sees.
    pub fn number(self) -> u8
        ensures { result ≡ run_number self }
    {
        match self {
            RunFault::Opening(e) => e.number(),
            RunFault::Word(e) => e.fault.number(),
        }
    }
}

impl Stop {
    /// The number that a baker sees.
    pub fn number(self) -> u8
        ensures { result ≡ stop_number self }
    {
        match self {
            Stop::Damaged { index: _ } => 9,
            Stop::UnknownMove { index: _ } => 11,
            Stop::LogFull { index: _ } => 12,
        }
    }

    /// The move that the run stops at.
    pub fn index(self) -> usize
        ensures { result ≡ stop_index self }
    {
        match self {
            Stop::Damaged { index } | Stop::UnknownMove { index } | Stop::LogFull { index } =>
                index,
        }
    }
}
