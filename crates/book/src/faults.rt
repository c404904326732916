//! Why a book is refused, and what a baker is told of it.
ghost use Rattle.std.specs.Prelude.{◌≡◌, ◌+◌, ◌≤◌};
ghost use Rattle.run.specs.Refusals.{stop_index};
ghost use Rattle.book.specs.declared.faults.BookFault.TheVariants.{Layout as InLayout, Setting as InSetting, Run as InRun};
ghost use Rattle.book.specs.Faults.{book_number, fault_byte, book_refusal, run_byte, stop_refusal, WithinBook};

use crate::header::{BadLayout, Layout};
use crate::settings::BadSetting;
use listing::Refusal;
use run::{RunFault, Stop, WordFault};

/// A run that does not begin, and the byte of the book that it is refused for.
#[derive(Clone, Copy, Debug, PartialEq, Eq)]
pub struct BadRun {
    pub fault: RunFault,
    pub byte: usize,
}

/// Why a book is not run.
#[derive(Clone, Copy, Debug, PartialEq, Eq)]
pub enum BookFault {
    Layout(BadLayout),
    Setting(BadSetting),
    Run(BadRun),
}

// By hand, since a derived `From` does not say which fault it makes.
impl From<BadLayout> for BookFault {
    ghost from_gives = { λ e r. r ≡ InLayout e };

    fn from(e: BadLayout) -> BookFault {
        BookFault::Layout(e)
    }
}

impl From<BadSetting> for BookFault {
    ghost from_gives = { λ e r. r ≡ InSetting e };

    fn from(e: BadSetting) -> BookFault {
        BookFault::Setting(e)
    }
}

impl From<BadRun> for BookFault {
    ghost from_gives = { λ e r. r ≡ InRun e };

    fn from(e: BadRun) -> BookFault {
        BookFault::Run(e)
    }
}

impl BookFault {
    /// The number that a baker sees.
    pub fn number(self) -> u8
        ensures { result ≡ book_number self }
    {
        match self {
            BookFault::Layout(_) | BookFault::Setting(BadSetting::Unknown { byte: _ }) => 10,
            BookFault::Setting(BadSetting::OutOfRange { byte: _ }) => 3,
            BookFault::Run(BadRun { fault, byte: _ }) => fault.number(),
        }
    }

    /// The byte of the book that it names.
    pub(crate) fn byte(self) -> usize
        ensures { result ≡ fault_byte self }
    {
        match self {
            BookFault::Layout(BadLayout { byte })
            | BookFault::Setting(BadSetting::Unknown { byte } | BadSetting::OutOfRange { byte })
            | BookFault::Run(BadRun { fault: _, byte }) => byte,
        }
    }

    pub(crate) fn refusal(self) -> Refusal
        ensures { result ≡ book_refusal self }
    {
        Refusal {
            number: self.number(),
            byte: self.byte(),
        }
    }
}

/// A run that does not begin, in a book of this layout.
pub(crate) fn bad_run(layout: &Layout, fault: RunFault) -> BadRun
    requires { WithinBook fault }
    ensures fault { result.fault ≡ fault }
    ensures byte { result.byte ≡ run_byte layout.now fault }
{
    let byte = match fault {
        RunFault::Opening(_) => layout.settings.offset as usize,
        RunFault::Word(WordFault { index, fault: _ }) => layout.words.offset as usize + 8 * index,
    };
    BadRun { fault, byte }
}

/// What stopped a run, with the byte of the move that it stopped at.
pub(crate) fn stop_refusal(layout: &Layout, stop: Stop) -> Refusal
    requires { stop_index stop ≤ 65536 }
    ensures { result ≡ stop_refusal layout.now stop }
{
    Refusal {
        number: stop.number(),
        byte: layout.moves.offset as usize + stop.index(),
    }
}
