//! The listing of a run: a line for each call that ended, and a last line that says how the run stopped.
#![tactic(auto)]

mod lines;
mod listings;
mod texts;

pub use lines::{End, Refusal};
pub use listings::put_listing;
