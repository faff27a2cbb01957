//! Where the tokens are in a pattern's text.
ghost use Rattle.std.specs.Prelude.{◌≡◌, ◌+◌, ◌<◌, ◌≤◌, ◌↔◌, ℕ, length, map, IsTrue, IfOk, chars};
ghost use Rattle.glob_text.specs.Text.{Has};
ghost use Rattle.glob_pattern.specs.Grammar.Characters.{star};
ghost use Rattle.glob_pattern.specs.Grammar.Units.{ClosesBefore};
ghost use Rattle.glob_pattern.specs.Computing.Tokens.{tokens_of, kind_of};
ghost use Rattle.glob_captures.specs.Writing.{AreAdjacent, AreWritten};
ghost use Rattle.glob_captures.specs.Private.Written.{IsAfterStars, IsTokenEnd};

use crate::piece::Piece;
use crate::steps::bytes_of;
use glob_pattern::{Pattern, TokenKind, characters_of, token_kind, tokens_len};
use std::alloc::{AllocError, Allocator};

/// A token of a pattern: its kind, and where it is in the pattern's text, in bytes.
#[derive(Clone, Copy, Debug, PartialEq, Eq)]
pub struct Written {
    /// Its kind.
    pub kind: TokenKind,
    /// Where it is in the pattern's text.
    pub piece: Piece,
}

/// The tokens of a pattern, in order. Those of `a[bc]*` are a `Literal` from 0 up to 1, a `OneOf` from 1 up to 5, and
/// an `AnySequence` from 5 up to 6: each begins where the one before it ends. Neighbouring `**/` are one token. Fails
/// only if an allocation fails.
pub fn tokens<A: Allocator + Copy, B: Allocator>(
    alloc: A,
    pattern: &Pattern<B>,
) -> Result<Vec<Written, A>, AllocError>
    ensures many { IfOk result
        (λ list. length list.items ≡ length (tokens_of (chars pattern.now))) }
    ensures kinds { IfOk result (λ list.
        map (λ token. token.kind) list.items ≡ map kind_of (tokens_of (chars pattern.now))) }
    ensures adjacent { IfOk result (λ list. (end : ℕ) × AreAdjacent 0 list.items end) }
    ensures written { IfOk result (λ list. AreWritten (chars pattern.now)
        0 (tokens_of (chars pattern.now)) list.items (length (chars pattern.now))) }
{
    let characters = characters_of(alloc, pattern.as_str())?;
    let text = characters.as_slice();
    let mut list = Vec::new(alloc);
    let mut place = 0;
    let mut start = 0;
    for token in 0..tokens_len(pattern) {
        let kind = token_kind(pattern, token);
        let after = token_end(text, place, kind);
        let end = start + bytes_of(&text[place..after]);
        list.push(Written {
            kind,
            piece: Piece { start, end },
        })?;
        place = after;
        start = end;
    }
    Ok(list)
}

/// The place after the token of this kind that begins at `place`.
fn token_end(text: &[char], place: usize, kind: TokenKind) -> usize
    requires { place ≤ length text.now }
    ensures low { place ≤ result }
    ensures high { result ≤ length text.now }
    ensures end { IsTokenEnd text.now place kind result }
{
    match kind {
        TokenKind::Literal | TokenKind::AnyChar | TokenKind::AnySequence => {
            text.len().min(place + 1)
        }
        TokenKind::Recursive => recursive_end(text, place),
        TokenKind::OneOf => bracket_end(text, place, 2),
        TokenKind::NoneOf => bracket_end(text, place, 3),
    }
}

/// The place after the neighbouring `**` that begin at `place`, each with the `/` after it, if there is one.
fn recursive_end(text: &[char], place: usize) -> usize
    requires { place ≤ length text.now }
    ensures low { place ≤ result }
    ensures high { result ≤ length text.now }
    ensures end { IsTokenEnd text.now place TokenKind.Recursive result }
{
    let mut end = place;
    while has_stars(text, end) {
        end = after_stars(text, end);
    }
    end
}

/// Whether there are two stars at `place`.
fn has_stars(text: &[char], place: usize) -> bool
    requires { place ≤ length text.now }
    ensures { IsTrue result ↔ (Has text.now place star × Has text.now (place + 1) star) }
{
    text.len() - place >= 2 && text[place] == '*' && text[place + 1] == '*'
}

/// The place after the two stars at `place`, and after a `/` that follows them.
fn after_stars(text: &[char], place: usize) -> usize
    requires { Has text.now (place + 1) star }
    ensures after { IsAfterStars text.now place result }
    ensures low { place < result }
    ensures high { result ≤ length text.now }
{
    match text.get(place + 2) {
        Some('/') => place + 3,
        _ => place + 2,
    }
}

/// The place after the `]` that closes the bracket at `place`. A `]` among its first `skipped` characters does not
/// close it.
fn bracket_end(text: &[char], place: usize, skipped: usize) -> usize
    requires within { place ≤ length text.now }
    requires few { skipped ≤ 3 }
    ensures low { place ≤ result }
    ensures high { result ≤ length text.now }
    ensures closes { (e : ℕ) → ClosesBefore text.now (place + skipped) e → result ≡ e }
{
    for end in place..text.len() {
        if place + skipped <= end && text[end] == ']' {
            return end + 1;
        }
    }
    text.len()
}
