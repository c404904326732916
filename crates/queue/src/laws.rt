//! The laws of waiting lines, and the promise over all use of a lane.
ghost use Rattle.queue.specs.Examples.{Excluded, ReadAsCalls};
ghost use Rattle.queue.specs.LineLaws.{LineLaws};
ghost use Rattle.queue.specs.Promise.{PromiseKept};

use memory::Memory;
use words::Kind;

/// Whatever side and address, landings, stores, bars and drains change what waits by these laws.
pub fn line_laws()
    ensures { LineLaws }
{}

/// Every history of an opened lane keeps the promise, however its ends are used.
pub fn promise_kept<K: Kind, M: Memory>()
    ensures { PromiseKept M.Memory K.Kind }
{}

/// How a history is read as calls, and histories that the promise excludes.
pub fn promise_examples()
    ensures reads { ReadAsCalls }
    ensures excludes { Excluded }
{}
