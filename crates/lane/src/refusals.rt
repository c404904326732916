//! Why a lane is not opened, and why a call does not begin or a step is not made.
ghost use Rattle.std.specs.Prelude.{◌≡◌};
ghost use Rattle.lane.specs.Refusals.{open_number, step_number};

use thiserror::Error;

#[derive(Clone, Copy, Debug, PartialEq, Eq, Error)]
pub enum OpenRefusal {
    #[error("a lane has 2 to 8 rings of 1 to 64 cells")]
    OutOfRange,
    #[error("the memory is too small for this lane")]
    TooSmall,
}

// one case, as a lane's memory has all its words; an enum like the other refusals, which match on it
#[derive(Clone, Copy, Debug, PartialEq, Eq, Error)]
pub enum Refusal {
    #[error("this end belongs to another lane or another call")]
    WrongEnd,
}

impl OpenRefusal {
    /// The number that a baker sees.
    pub fn number(self) -> u8
        ensures { result ≡ open_number self }
    {
        match self {
            OpenRefusal::OutOfRange => 3,
            OpenRefusal::TooSmall => 4,
        }
    }
}

impl Refusal {
    /// The number that a baker sees.
    pub fn number(self) -> u8
        ensures { result ≡ step_number self }
    {
        match self {
            Refusal::WrongEnd => 5,
        }
    }
}
