//! Pieces of a text.

/// A piece of a text, from the byte offset `start` up to the byte offset `end`. The `b` in `abc` is from 1 up to 2.
#[derive(Clone, Copy, Debug, PartialEq, Eq)]
pub struct Piece {
    /// The offset where it starts.
    pub start: usize,
    /// The offset where it ends, after its last byte.
    pub end: usize,
}
