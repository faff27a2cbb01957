//! What captures and reach share: the bound on the work, what a token's piece may be, and places in bytes.
ghost use Rattle.std.specs.Prelude.{◌≡◌, ◌+◌, ◌*◌, ◌<◌, ◌≤◌, ◌↔◌, ◌&&◌, length, IsTrue, chars};
ghost use Rattle.std.specs.Prelude.{encode_utf8_all, ◌^◌};
ghost use Rattle.glob_text.specs.Text.{opens};
ghost use Rattle.glob_pattern.specs.Computing.Tokens.{tokens_of};
ghost use Rattle.glob_pattern.specs.Private.TextTable.{table_of};
ghost use Rattle.glob_captures.specs.Private.Rests.{IsFormAt};

use glob_pattern::{MatchOptions, Pattern, TokenKind, opens, token_kind, token_takes, tokens_len};
use std::alloc::Allocator;

/// The greatest product of pattern tokens and text bytes that a call accepts. A pattern of 8 tokens may have a text of
/// 8 MiB.
pub const MOST_STEPS: usize = 1 << 26;

/// Whether the tokens times the bytes are more than [`MOST_STEPS`].
pub fn is_too_large<A: Allocator>(pattern: &Pattern<A>, text: &str) -> bool
    ensures { IsTrue result
        ↔ (MOST_STEPS < length (tokens_of (chars pattern.now)) * length text.now) }
{
    match tokens_len(pattern).checked_mul(text.len()) {
        Some(steps) => steps > MOST_STEPS,
        None => true,
    }
}

/// Which pieces a token may have.
#[derive(Clone, Copy)]
pub struct Form {
    /// They may have any number of characters, rather than exactly one.
    pub grows: bool,
    /// A nonempty one ends in `/`.
    pub closes: bool,
}

/// Which pieces token `token` may have.
pub fn form_of<A: Allocator>(pattern: &Pattern<A>, token: usize) -> Form
    requires { token < length (tokens_of (chars pattern.now)) }
    ensures { IsFormAt (tokens_of (chars pattern.now)) token result }
{
    match token_kind(pattern, token) {
        TokenKind::AnySequence => Form {
            grows: true,
            closes: false,
        },
        TokenKind::Recursive => Form {
            grows: true,
            closes: token < tokens_len(pattern) - 1,
        },
        TokenKind::Literal | TokenKind::AnyChar | TokenKind::OneOf | TokenKind::NoneOf => Form {
            grows: false,
            closes: false,
        },
    }
}

/// Whether token `token` takes the character at `place`. `may`: whether it may take one there at all.
#[inline(always)]
#[tactic(auto, unfolding(glob_pattern::specs::Private::TextTable::table_of))]
pub fn takes_if<A: Allocator>(
    pattern: &Pattern<A>,
    token: usize,
    options: MatchOptions,
    text: &[char],
    place: usize,
    may: bool,
) -> bool
    requires token { token < length (tokens_of (chars pattern.now)) }
    requires place { place < length text.now }
    ensures { result ≡ (may
        && (table_of options (tokens_of (chars pattern.now)) text.now).takes token place) }
{
    may && token_takes(pattern, token, options, opens(text, place), text[place])
}

/// The length of the characters, in bytes.
pub fn bytes_of(characters: &[char]) -> usize
    requires { length (encode_utf8_all characters.now) < 2 ^ 64 }
    ensures { result ≡ length (encode_utf8_all characters.now) }
{
    let mut bytes = 0;
    for c in characters {
        bytes += c.len_utf8();
    }
    bytes
}
