//! A lane: rings of cells in a memory, and the steps by which its feeder and its drawer hand items over.
#![tactic(auto)]

mod answers;
mod calls;
mod ends;
mod lanes;
mod laws;
mod memory_calls;
mod openings;
mod places;
mod puts;
mod refusals;
mod rings;
mod shapes;
mod sides;
mod stands;
mod takes;

pub use answers::{Ended, PutAnswer, TakeAnswer};
pub use ends::{
    Busy, DrawerBusy, DrawerEnd, DrawerIdle, Draws, End, FeederBusy, FeederEnd, FeederIdle, Feeds,
    Idle, NoPut, NoPutStep, NoStep, NoTake, NoTakeStep, PutStepped, Stepped, TakeStepped, Unbegun,
};
pub use lanes::Lane;
pub use laws::own_ends_fit;
pub use openings::{NoLane, Opened, check_opening};
pub use refusals::{OpenRefusal, Refusal};
