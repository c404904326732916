//! The memory calls of a lane: its memory has every address that they name.
//! Memory and shape are no struct of their own: each outcome of the tables would have to show that the shape stays.
ghost use Rattle.std.specs.Prelude.{◌≡◌, ◌<◌, length};
ghost use Rattle.memory.specs.Meaning.{Look, Store, Bar};
ghost use Rattle.lane.specs.Calls.{Called};

use memory::{Memory, Side};

pub(crate) fn look<M: Memory>(memory: &mut M, side: Side, address: usize) -> u64
    requires { address < length (M.Memory.meaning memory.old).landed }
    ensures { Called M.Memory (Look side address result) memory.old memory.new }
{
    match memory.look(side, address) {
        Ok(word) => word,
        Err(_) => unreachable!(),
    }
}

pub(crate) fn store<M: Memory>(memory: &mut M, side: Side, address: usize, word: u64)
    requires { address < length (M.Memory.meaning memory.old).landed }
    ensures { Called M.Memory (Store side address word) memory.old memory.new }
{
    match memory.store(side, address, word) {
        Ok(()) => {}
        Err(_) => unreachable!(),
    }
}

pub(crate) fn bar<M: Memory>(memory: &mut M, side: Side)
    ensures { Called M.Memory (Bar side) memory.old memory.new }
{
    memory.bar(side);
}
