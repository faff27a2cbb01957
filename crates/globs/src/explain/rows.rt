//! Lines of two columns.
use crate::visible::Visible;
use glob_captures::Piece;
use std::alloc::{AllocError, Allocator};

/// The piece of a text, or an empty text if it is out of range.
pub fn part_of(text: &str, piece: Piece) -> &str {
    text.get(piece.start..piece.end).unwrap_or("")
}

/// Adds a line: a token as written, a tab and some words.
pub fn add_row<A: Allocator>(
    lines: &mut String<A>,
    token: &str,
    words: &str,
) -> Result<(), AllocError> {
    let token = Visible { text: token };
    let words = Visible { text: words };
    writeln!(lines, "{token}\t{words}")
}
