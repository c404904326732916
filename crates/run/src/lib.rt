//! A run: moves given as bytes, made on a lane, with a log of the calls that ended.
#![tactic(auto)]

mod checks;
pub mod faults;
mod notes;
mod offers;
pub mod orders;
pub mod records;
mod running;
mod runs;
pub mod tallies;

pub use faults::{RunFault, Stop, WordFault};
pub use orders::{Order, UnknownByte};
pub use records::{Answer, Record};
pub use runs::run;
pub use tallies::{NotRun, Ran, Tally};
