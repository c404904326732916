//! What the rules come to, as facts that a caller can name.
ghost use Rattle.std.specs.Prelude.{◌≡◌};
ghost use Rattle.memory.specs.Laws.{NoStoreLost, LoosePicks};

use crate::prompt::Prompt;
use crate::{Memory, Side};

/// No store is lost, whatever memory keeps the rules; and the loose memory's picks on two waiting stores.
pub fn laws_stand()
    ensures lost { NoStoreLost }
    ensures picks { LoosePicks }
{}

/// Stores a word through a memory, lets the memory go, and reads the word where its owner lent it.
pub fn lend_and_read(word: u64) -> u64
    ensures { result ≡ word }
{
    let mut words = [0u64; 2];
    {
        let mut memory = Prompt::new(&mut words);
        let _ = memory.store(Side::Feeder, 1, word);
    }
    words[1]
}
