//! The item words of a book.
ghost use Rattle.std.specs.Prelude.{◌≡◌, ◌/◌, ◌≤◌, length};
ghost use Rattle.book.specs.ItemWords.{words_in};

/// A place for the words of any book: 65,536 bytes, less header and settings, have room for no more.
/// An array, since there is no heap here.
pub(crate) type Words = [u64; 8188];

/// Copies the words of the part to the start of the place.
pub(crate) fn read_words<'a>(part: &[u8], place: &'a mut Words) -> &'a [u64]
    requires { length part.now / 8 ≤ 8188 }
    ensures { result.now ≡ words_in part.now }
{
    let (chunks, _) = part.as_chunks::<8>();
    // by index, since nothing is known of what is written through a `zip` of `iter_mut`
    for (i, bytes) in chunks.iter().enumerate() {
        place[i] = u64::from_le_bytes(*bytes);
    }
    &place[..chunks.len()]
}
