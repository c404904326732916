//! A lane in play, with its ends.
ghost use Rattle.std.specs.Prelude.{◌≡◌};
ghost use Rattle.lane.specs.Ends.{lane_of};
ghost use Rattle.lane.specs.Stages.{putting, taking};
ghost use Rattle.queue.specs.Busy.{is_busy};

use crate::moves::Said;
use lane::{DrawerEnd, FeederEnd, Lane};
use memory::Memory;
use words::Kind;

/// A lane in play, with its own two ends.
pub struct Play<K: Kind, M: Memory> {
    pub(crate) lane: Lane<K, M>,
    pub(crate) feeder: FeederEnd,
    pub(crate) drawer: DrawerEnd,
    ghost feeder_fits: { (lane_of feeder ≡ lane.number) × (is_busy feeder ≡ putting lane.feeder.stage) },
    ghost drawer_fits: { (lane_of drawer ≡ lane.number) × (is_busy drawer ≡ taking lane.drawer.stage) },
}

/// A lane after a move, and what the move answers.
pub struct Told<K: Kind, M: Memory> {
    pub play: Play<K, M>,
    pub said: Said<K>,
}
