//! A run book: read, checked, run and listed.
#![tactic(auto)]

mod books;
mod choices;
mod codes;
mod depths;
mod faults;
mod header;
mod item_words;
mod plans;
mod reading;
mod settings;

pub use books::{LISTING_ROOM, bench_listing};
pub use header::LONGEST_BOOK;
