//! Items and their words: what a feeder hands to a drawer, as one 64-bit word each.
#![tactic(auto)]

pub mod display;
pub mod edits;
pub mod faults;
pub mod items;
pub mod kinds;
pub mod parts;
pub mod readings;
pub mod rings;
pub mod settings;

pub use edits::Edit;
pub use faults::ItemFault;
pub use kinds::Kind;
pub use parts::Part;
pub use readings::Reading;
pub use rings::RingNumber;
pub use settings::{Setting, UnknownSetting};
