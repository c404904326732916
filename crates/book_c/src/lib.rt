//! The bench for hosts in C and Rust: the one function that the static library exports.
#![tactic(auto)]

ghost use Rattle.book.specs.Books.{Listed};

/// Runs the book and writes the listing of its run to the start of the place; answers the listing's length.
/// A place too short is left unwritten, and 0 answered; 37,938 bytes always suffice.
#[unsafe(no_mangle)]
pub extern "C" fn bench_listing(book: &[u8], place: &mut [u8]) -> usize
    ensures { Listed book.now place.old place.new result }
{
    // C has no Option, and no listing is empty
    book::bench_listing(book, place).unwrap_or(0)
}
