//! What holds of a lane in all its use.
ghost use Rattle.lane.specs.Owning.{OwnEndsFit};

use memory::Memory;
use words::Kind;

/// While only ends from its own opening and calls are brought to it, a lane refuses none.
pub fn own_ends_fit<K: Kind, M: Memory>()
    ensures { OwnEndsFit M.Memory K.Kind }
{}
