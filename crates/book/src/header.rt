//! The header of a run book.

/// How many bytes a book may have.
pub const LONGEST_BOOK: usize = 65536;

/// A part of the book: where it starts, and how many bytes it has.
#[derive(Clone, Copy, Debug, PartialEq, Eq)]
pub struct Part {
    pub offset: u32,
    pub size: u32,
}

/// Where the parts of the book lie.
#[derive(Clone, Copy, Debug, PartialEq, Eq)]
pub struct Layout {
    pub settings: Part,
    pub words: Part,
    pub moves: Part,
}

/// The first byte and the three pairs, as they stand in the book.
#[derive(Clone, Copy)]
pub(crate) struct Header {
    pub(crate) first: u8,
    pub(crate) layout: Layout,
}

/// The book is badly laid out, as this byte shows.
#[derive(Clone, Copy, Debug, PartialEq, Eq)]
pub struct BadLayout {
    pub byte: usize,
}
