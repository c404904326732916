//! The queue: any list of moves on a lane, with what is promised of it.
#![tactic(auto)]

mod laws;
mod moves;
mod plays;
mod states;
mod turns;

pub use laws::{line_laws, promise_examples, promise_kept};
pub use moves::{Move, Said};
pub use plays::play;
pub use states::{Play, Told};
