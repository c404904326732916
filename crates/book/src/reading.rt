//! The header taken apart and checked.
ghost use Rattle.std.specs.Prelude.{◌≡◌, ◌<◌, ◌≤◌, [], ◌∷◌, length, drop, IfOk, MatchOption};
ghost use Rattle.book.specs.Checks.{Judged, check as check_of};
ghost use Rattle.book.specs.Layout.{field, part_at, stop, layout_of, header_of, part_checks, pair_checks, header_checks, layout_refusal};

use crate::header::{BadLayout, Header, LONGEST_BOOK, Layout, Part};

// A part, from the fields of its pair: offset, then length, each with the low byte first.
fn part(offset: [u8; 4], size: [u8; 4]) -> Part
    ensures offset { result.offset ≡ field offset 0 }
    ensures size { result.size ≡ field size 0 }
{
    Part {
        offset: u32::from_le_bytes(offset),
        size: u32::from_le_bytes(size),
    }
}

// The pair at the start of the fields, and what follows it.
fn take_pair(fields: &[u8]) -> Option<(Part, &[u8])>
    ensures { MatchOption result
        (length fields.now < 8)
        (λ p. (p.0 ≡ part_at fields.now 0) × (p.1.now ≡ drop 8 fields.now) × (8 ≤ length fields.now)) }
{
    let [o0, o1, o2, o3, l0, l1, l2, l3, rest @ ..] = fields else {
        return None;
    };
    Some((part([*o0, *o1, *o2, *o3], [*l0, *l1, *l2, *l3]), rest))
}

// The first byte and the three pairs.
fn take_header(book: &[u8]) -> Option<Header>
    ensures { MatchOption result
        (length book.now < 25)
        (λ h. (h ≡ header_of book.now) × (25 ≤ length book.now)) }
{
    let [first, fields @ ..] = book else {
        return None;
    };
    let (settings, fields) = take_pair(fields)?;
    let (words, fields) = take_pair(fields)?;
    let (moves, _) = take_pair(fields)?;
    Some(Header {
        first: *first,
        layout: Layout {
            settings,
            words,
            moves,
        },
    })
}

fn check(holds: bool, byte: usize) -> Result<(), BadLayout>
    ensures { Judged layout_refusal (check_of holds 10 byte ∷ []) result }
{
    if holds {
        Ok(())
    } else {
        Err(BadLayout { byte })
    }
}

// Where the part ends, in a book of this size; its pair stands at `at`.
fn part_end(part: Part, from: usize, size: usize, at: usize) -> Result<usize, BadLayout>
    requires { at < 25 }
    ensures judged { Judged layout_refusal (part_checks size from at part) result }
    ensures end { IfOk result (λ e. e ≡ stop part) }
{
    let end = part.offset as usize + part.size as usize;
    check(from <= part.offset as usize, at)?;
    check(end <= size, at + 4)?;
    Ok(end)
}

fn check_pairs(header: &Header, size: usize) -> Result<(), BadLayout>
    ensures { Judged layout_refusal (pair_checks size header.now) result }
{
    let layout = header.layout;
    check(header.first == 3, 0)?;
    let end = part_end(layout.settings, 25, size, 1)?;
    check(layout.settings.size == 5, 5)?;
    let end = part_end(layout.words, end, size, 9)?;
    check(layout.words.size % 8 == 0, 13)?;
    let _ = part_end(layout.moves, end, size, 17)?;
    Ok(())
}

/// Where the parts of the book lie, if its header is good.
pub(crate) fn read_layout(book: &[u8]) -> Result<Layout, BadLayout>
    ensures judged { Judged layout_refusal (header_checks book.now) result }
    ensures layout { IfOk result (λ l. l ≡ layout_of book.now) }
{
    check(book.len() <= LONGEST_BOOK, LONGEST_BOOK)?;
    let Some(header) = take_header(book) else {
        return Err(BadLayout { byte: book.len() });
    };
    check_pairs(&header, book.len())?;
    Ok(header.layout)
}
