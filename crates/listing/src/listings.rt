//! The whole listing: each line behind the one before it, and the end line last.
ghost use Rattle.std.specs.Prelude.{◌^◌, ◌<◌, ◌≤◌, ◌↔◌, length, IsSome, IfSome, MatchOption, unwrap_or};
ghost use Rattle.std.specs.Option.{SomeIff};
ghost use Rattle.listing.specs.Bounds.{Early, room_for};
ghost use Rattle.listing.specs.Listing.{listing};
ghost use Rattle.listing.specs.Places.{Written, Placed};

use crate::lines::{End, end_line_of, line_length, line_of};
use run::Record;

// The listing's length, where a number of 64 bits can hold it.
fn listing_length(records: &[Record], end: &End) -> Option<usize>
    ensures counted { SomeIff result (length (listing records.now end.now) < 2 ^ 64) (length (listing records.now end.now)) }
    ensures short { Early records.now → MatchOption result (2 ^ 64 ≤ room_for records.now) (λ t. t ≤ room_for records.now) }
{
    let mut total = 0usize;
    for call in records {
        total = total.checked_add(line_length(call))?;
    }
    total.checked_add(end_line_of(end).len())
}

fn put_text(text: &[u8], place: &mut [u8]) -> usize
    requires { length text.now ≤ length place.old }
    ensures { Written text.now place.old place.new result }
{
    place[..text.len()].copy_from_slice(text);
    text.len()
}

fn put_lines(records: &[Record], end: &End, place: &mut [u8]) -> usize
    requires { length (listing records.now end.now) ≤ length place.old }
    ensures { Written (listing records.now end.now) place.old place.new result }
{
    let mut at = 0;
    for call in records {
        at += put_text(line_of(call).as_slice(), &mut place[at..]);
    }
    at + put_text(end_line_of(end).as_slice(), &mut place[at..])
}

/// Writes the listing to the start of the place and answers its length; a place too short is left unwritten, and has none.
/// For the run of a book, 37 bytes for each record and 50 for the end always suffice.
pub fn put_listing(records: &[Record], end: &End, place: &mut [u8]) -> Option<usize>
    ensures placed { Placed (listing records.now end.now) place.old place.new (unwrap_or result 0) }
    ensures fits { IsSome result ↔ (length (listing records.now end.now) ≤ length place.old) }
    ensures within { IfSome result (λ n. (0 < n) × (n ≤ length place.old)) }
    ensures room { Early records.now → room_for records.now ≤ length place.old → length (listing records.now end.now) ≤ length place.old }
{
    let total = listing_length(records, end)?;
    if total <= place.len() {
        Some(put_lines(records, end, place))
    } else {
        None
    }
}
