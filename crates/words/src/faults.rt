//! Why there is no item.
ghost use Rattle.std.specs.Prelude.{◌≡◌};
ghost use Rattle.words.specs.Refusals.{refusal};

use crate::parts::Part;

/// Why there is no item.
#[derive(Clone, Copy, Debug, PartialEq, Eq)]
pub enum ItemFault {
    /// This number of the item is out of its range.
    OutOfRange(Part),
    /// This word is that of no item of the kind asked for.
    NoItem(u64),
}

impl ItemFault {
    /// The number that a baker sees.
    pub fn number(self) -> u8
        ensures { result ≡ refusal self }
    {
        match self {
            ItemFault::OutOfRange(_) => 1,
            ItemFault::NoItem(_) => 2,
        }
    }
}
