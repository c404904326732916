//! What is checked before a run's first move.
ghost use Rattle.std.specs.Prelude.{◌≡◌, MatchResult};
ghost use Rattle.lane.specs.Openings.{Openable};
ghost use Rattle.run.specs.Promised.{Unbegun};
ghost use Rattle.run.specs.Spelling.{Spelled};

use crate::faults::RunFault;
use crate::offers::Offer;
use lane::check_opening;
use memory::Memory;
use words::Kind;

// The opening first, then the words.
pub(crate) fn check_run<'a, K: Kind, M: Memory>(
    memory: &mut M,
    rings: u8,
    cells: u8,
    words: &'a [u64],
) -> Result<Offer<'a, K>, RunFault>
    ensures { MatchResult result
        (λ o. Openable M.Memory rings cells memory.old memory.new × (o.words.now ≡ words.now) × Spelled K.Kind words.now)
        (λ why. Unbegun M.Memory K.Kind rings cells words.now why memory.old memory.new) }
{
    check_opening(memory, rings, cells)?;
    Ok(Offer::new(words)?)
}
