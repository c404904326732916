//! A ring's number.
ghost use Rattle.std.specs.Prelude.{◌≡◌, pos, MatchResult};
ghost use Rattle.words.specs.Ranges.{InRange, FirstOut, ring_numbers};
ghost use Rattle.words.specs.declared.parts.Part.TheVariants.{Ring};

use crate::faults::ItemFault;
use crate::parts::Part;

/// The number of a ring: the two sides of a lane hand rings to each other by it.
#[derive(Clone, Copy, Debug, PartialEq, Eq)]
pub struct RingNumber {
    pub number: u8,
    ghost in_range: { InRange Ring (pos number) },
}

impl RingNumber {
    /// The ring of this number; one out of range is refused.
    pub fn new(number: i64) -> Result<RingNumber, ItemFault>
        ensures { MatchResult result (λ x. pos x.number ≡ number) (λ f. FirstOut (ring_numbers number) f) }
    {
        Ok(RingNumber {
            number: Part::Ring.narrow(number)?,
        })
    }
}
