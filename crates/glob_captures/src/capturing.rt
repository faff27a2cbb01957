//! The piece of a text that each token of a pattern takes.
ghost use Rattle.std.specs.Prelude.{◌≡◌, ◌+◌, ◌-◌, ◌<◌, ◌≤◌, length, IfOk, chars, ◌*◌, ◌^◌, ◌↔◌, IsTrue, IsSome, IfSome, encode_utf8_all};
ghost use Rattle.glob_pattern.specs.Computing.Tokens.{tokens_of};
ghost use Rattle.glob_pattern.specs.Matching.Texts.{Matches};
ghost use Rattle.glob_pattern.specs.Private.TextTable.{table_of};
ghost use Rattle.glob_captures.specs.Captures.{AreCaptures};
ghost use Rattle.glob_captures.specs.Private.Rests.{shape_at, shapes_from, TakesRest, AreInnerRests, IsSpan};
ghost use Rattle.glob_captures.specs.Private.Ends.{may_end, IsFirstEnd, IsShortestEnd, HasShortestEnds};

use crate::error::CapturesError;
use crate::piece::Piece;
use crate::rests::{Rests, rests_of};
use crate::span::{WildcardSpan, span_of};
use crate::steps::{MOST_STEPS, bytes_of, form_of, is_too_large};
use glob_pattern::{MatchOptions, Pattern, characters_of, opens, tokens_len};
use std::alloc::{AllocError, Allocator};

/// Splits the text into the pieces that the pattern's tokens take, and returns where they are, in bytes and in order;
/// `None` exactly when the pattern does not match the text. If there are several splits, the first piece is as short as
/// possible, then the second, and so on.
///
/// For example, `*.*` splits `a.b.rs` into `a`, `.` and `b.rs`: from 0 up to 1, from 1 up to 2, and from 2 up to 6.
///
/// Time and memory are at most proportional to (tokens + 1) × (bytes of the text + 1). The errors are:
///
/// - [`CapturesError::TooLarge`]: tokens × bytes is more than [`MOST_STEPS`](crate::MOST_STEPS). Nothing was done.
/// - [`CapturesError::Memory`]: an allocation failed.
pub fn captures<A: Allocator + Copy, B: Allocator + Copy>(
    alloc: A,
    pattern: &Pattern<B>,
    text: &str,
    options: MatchOptions,
) -> Result<Option<Vec<Piece, A>>, CapturesError>
    ensures answer { IfOk result
        (λ found. IsSome found ↔ Matches options (chars pattern.now) (chars text.now)) }
    ensures pieces { IfOk result (λ found. IfSome found (λ pieces.
        AreCaptures options (tokens_of (chars pattern.now)) (chars text.now) pieces.items)) }
    ensures large { (result ≡ Err CapturesError.TooLarge)
        ↔ (MOST_STEPS < length (tokens_of (chars pattern.now)) * length text.now) }
{
    if is_too_large(pattern, text) {
        return Err(CapturesError::TooLarge);
    }
    if !pattern.matches_with(text, options)? {
        return Ok(None);
    }
    let characters = characters_of(alloc, text)?;
    let span = span_of(pattern);
    let rests = rests_of(alloc, pattern, options, characters.as_slice(), span)?;
    let pieces = shortest_pieces(
        alloc,
        pattern,
        options,
        characters.as_slice(),
        span,
        rests.as_slice(),
    )?;
    Ok(Some(pieces))
}

/// The places of the pieces, each as short as the tokens after it allow.
fn shortest_pieces<A: Allocator + Copy, B: Allocator>(
    alloc: A,
    pattern: &Pattern<B>,
    options: MatchOptions,
    text: &[char],
    span: WildcardSpan,
    rests: &[Rests<A>],
) -> Result<Vec<Piece, A>, AllocError>
    requires bytes { length (encode_utf8_all text.now) < 2 ^ 64 }
    requires span { IsSpan (tokens_of (chars pattern.now)) span }
    requires rests { AreInnerRests options (tokens_of (chars pattern.now)) text.now span rests.now }
    requires taken { TakesRest options (tokens_of (chars pattern.now)) text.now 0 0 }
    ensures { IfOk result (λ pieces.
        HasShortestEnds options (tokens_of (chars pattern.now)) text.now pieces.items) }
{
    let tokens = tokens_len(pattern);
    let mut pieces = Vec::with_capacity(alloc, tokens)?;
    let mut place = 0;
    let mut start = 0;
    for token in 0..tokens {
        let after = shortest_end(pattern, token, options, text, place, span, rests);
        let end = start + bytes_of(&text[place..after]);
        pieces.push(Piece { start, end })?;
        place = after;
        start = end;
    }
    Ok(pieces)
}

/// The end of the shortest piece of `token` that begins at `place`. `rests` was made with the same options.
fn shortest_end<A: Allocator, B: Allocator>(
    pattern: &Pattern<B>,
    token: usize,
    options: MatchOptions,
    text: &[char],
    place: usize,
    span: WildcardSpan,
    rests: &[Rests<A>],
) -> usize
    requires token { token < length (tokens_of (chars pattern.now)) }
    requires place { place ≤ length text.now }
    requires span { IsSpan (tokens_of (chars pattern.now)) span }
    requires rests { AreInnerRests options (tokens_of (chars pattern.now)) text.now span rests.now }
    requires taken { TakesRest options (tokens_of (chars pattern.now)) text.now token place }
    ensures low { place ≤ result }
    ensures high { result ≤ length text.now }
    ensures end { IsShortestEnd (table_of options (tokens_of (chars pattern.now)) text.now) token
        (shape_at (tokens_of (chars pattern.now)) token)
        (shapes_from (tokens_of (chars pattern.now)) (token + 1)) place result }
{
    let _options = options;
    let form = form_of(pattern, token);
    if !form.grows {
        place + 1
    } else if token == span.last {
        text.len() - (tokens_len(pattern) - 1 - token)
    } else {
        let next = rests[span.last - 1 - token].as_slice();
        first_end(form.closes, text, place, next)
    }
}

/// The first place where a piece that begins at `place` may end, or the end of the text.
fn first_end(closes: bool, text: &[char], place: usize, next: &[bool]) -> usize
    requires within { place ≤ length text.now }
    requires many { length next.now ≡ length text.now + 1 }
    ensures { IsFirstEnd closes text.now next.now place result }
{
    let mut end = place;
    while end < text.len() && !may_end(closes, text, next, place, end) {
        end += 1;
    }
    end
}

/// Whether a piece from `place` may end at `end`. `next` says from which places the tokens after it take the rest.
#[inline(always)]
fn may_end(closes: bool, text: &[char], next: &[bool], place: usize, end: usize) -> bool
    requires within { end ≤ length text.now }
    requires many { length next.now ≡ length text.now + 1 }
    ensures { result ≡ may_end closes text.now next.now place end }
{
    next[end] && (end == place || !closes || opens(text, end))
}
