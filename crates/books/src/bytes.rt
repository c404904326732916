//! The bytes of a book as they are typed: pairs of hexadecimal digits, and behind a `*` how often they stand.
ghost use Rattle.std.specs.Prelude.{◌<◌, IfOk};

use crate::faults::Expected;
use std::alloc::Global;
use std::str::SplitWhitespace;

// std and the crate hex read lower-case digits too, which a book is not typed in
fn digit(letter: u8) -> Result<u8, Expected>
    ensures { IfOk result (λ d. d < 16) }
{
    match letter {
        b'0'..=b'9' => Ok(letter - b'0'),
        b'A'..=b'F' => Ok(letter - b'A' + 10),
        _ => Err(Expected::Bytes),
    }
}

fn push_pairs(book: &mut Vec<u8>, pairs: &str) -> anyhow::Result<()> {
    for pair in pairs.as_bytes().chunks(2) {
        let [high, low] = pair else {
            return Err(Expected::Bytes.into());
        };
        book.push(digit(*high)? * 16 + digit(*low)?)?;
    }
    Ok(())
}

fn push_part(book: &mut Vec<u8>, part: &str) -> anyhow::Result<()> {
    let (pairs, count) = match part.split_once("*") {
        Some((pairs, count)) => {
            let count = count.parse::<usize>().map_err(|_| Expected::Bytes)?;
            (pairs, count)
        }
        None => (part, 1),
    };
    if pairs.is_empty() {
        return Err(Expected::Bytes.into());
    }
    for _ in 0..count {
        push_pairs(book, pairs)?;
    }
    Ok(())
}

/// The bytes that the rest of a line holds.
pub(crate) fn read_bytes(heap: Global, parts: &mut SplitWhitespace<'_>) -> anyhow::Result<Vec<u8>> {
    let mut book = Vec::new(heap);
    for part in parts {
        push_part(&mut book, part)?;
    }
    Ok(book)
}
