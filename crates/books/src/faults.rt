//! Why a line of the table cannot be read.
use thiserror::Error;

/// What a line should have had where it went wrong.
#[derive(Clone, Copy, Debug, Error)]
pub enum Expected {
    #[error("expected book, place or #")]
    Request,
    #[error("expected the book's name")]
    Name,
    #[error("expected bytes as pairs of hexadecimal digits, with *COUNT to repeat them")]
    Bytes,
    #[error("expected the place's length")]
    Length,
    #[error("expected the end of the line")]
    End,
}
