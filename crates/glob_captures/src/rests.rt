//! For the last tokens of a pattern: the places from which they match all that is left of a text.
ghost use Rattle.std.specs.Prelude.{◌≡◌, ◌+◌, ◌-◌, ◌<◌, ◌≤◌, length, IfOk, chars, List, ◌&&◌, ◌||◌, not};
ghost use Rattle.glob_pattern.specs.Computing.Tokens.{tokens_of};
ghost use Rattle.glob_text.specs.Text.{opens};
ghost use Rattle.std.specs.Prelude.{IsTrue};
ghost use Rattle.glob_captures.specs.Private.Rests.{AreRests, AreInnerRests, IsSpan, TakesRest, grows, shape_at};

use crate::span::WildcardSpan;
use crate::steps::{Form, form_of, takes_if};
use glob_pattern::{MatchOptions, Pattern, opens, tokens_len};
use std::alloc::{AllocError, Allocator};
use std::marker::Model;

/// For each place of a text, whether certain last tokens take the rest from there on.
#[derive(Drop)]
pub struct Rests<A: Allocator> {
    places: Vec<bool, A>,
}

impl<A: Allocator> Model for Rests<A> {
    ghost use Rattle.std.specs.Prelude.{List, Bool};

    ghost Value = { List Bool };

    ghost view = { λ r. r.places.items };
}

impl<A: Allocator> Rests<A> {
    /// One answer per place.
    #[inline(always)]
    pub fn as_slice(&self) -> &[bool]
        ensures { result.now ≡ self.now }
    {
        self.places.as_slice()
    }
}

/// Row `i` says from which places the tokens from number `span.last - i` on take the rest. It is empty if the token
/// before them is not a wildcard.
pub fn rests_of<A: Allocator + Copy, B: Allocator>(
    alloc: A,
    pattern: &Pattern<B>,
    options: MatchOptions,
    text: &[char],
    span: WildcardSpan,
) -> Result<Vec<Rests<A>, A>, AllocError>
    requires span { IsSpan (tokens_of (chars pattern.now)) span }
    requires taken { TakesRest options (tokens_of (chars pattern.now)) text.now 0 0 }
    ensures { IfOk result (λ rows.
        AreInnerRests options (tokens_of (chars pattern.now)) text.now span rows.items) }
{
    let mut rows = Vec::with_capacity(alloc, span.last - span.first)?;
    if span.first == span.last {
        return Ok(rows);
    }
    let mut row = rests_after_span(alloc, pattern, options, text, span)?;
    for done in 0..span.last - span.first {
        let token = span.last - done;
        add_token(pattern, token, options, text, row.as_mut_slice());
        let kept = row_after(alloc, pattern, token - 1, row.as_slice())?;
        rows.push(kept)?;
    }
    Ok(rows)
}

/// A copy of the row, if `token` is a wildcard. Otherwise nothing reads it, and it is empty.
fn row_after<A: Allocator + Copy, B: Allocator>(
    alloc: A,
    pattern: &Pattern<B>,
    token: usize,
    row: &[bool],
) -> Result<Rests<A>, AllocError>
    requires { token < length (tokens_of (chars pattern.now)) }
    ensures { IfOk result (λ kept.
        IsTrue (grows (shape_at (tokens_of (chars pattern.now)) token)) → kept ≡ row.now) }
{
    let places = if form_of(pattern, token).grows {
        Vec::from_slice(alloc, row)?
    } else {
        Vec::new(alloc)
    };
    Ok(Rests { places })
}

/// The row of the tokens after the last wildcard. Each of them takes one character, so they take the rest from exactly
/// one place.
fn rests_after_span<A: Allocator + Copy, B: Allocator>(
    alloc: A,
    pattern: &Pattern<B>,
    options: MatchOptions,
    text: &[char],
    span: WildcardSpan,
) -> Result<Vec<bool, A>, AllocError>
    requires span { IsSpan (tokens_of (chars pattern.now)) span }
    requires some { span.first < span.last }
    requires taken { TakesRest options (tokens_of (chars pattern.now)) text.now 0 0 }
    ensures { IfOk result (λ row. AreRests options (tokens_of (chars pattern.now)) text.now
        (span.last + 1) 0 row.items) }
{
    let _options = options;
    let mut row = vec![in alloc; false; text.len() + 1]?;
    row[text.len() - (tokens_len(pattern) - 1 - span.last)] = true;
    Ok(row)
}

/// Updates the row of the tokens after `token` to include it.
fn add_token<A: Allocator>(
    pattern: &Pattern<A>,
    token: usize,
    options: MatchOptions,
    text: &[char],
    row: &mut [bool],
)
    requires token { token < length (tokens_of (chars pattern.now)) }
    requires next { AreRests options (tokens_of (chars pattern.now)) text.now (token + 1) 0 row.old }
    ensures { AreRests options (tokens_of (chars pattern.now)) text.now token 0 row.new }
{
    let form = form_of(pattern, token);
    let mut more = false;
    let mut rest = row[text.len()];
    row[text.len()] = is_taken(form, rest, false);
    for done in 0..text.len() {
        let place = text.len() - 1 - done;
        let here = row[place];
        let may = may_take(form, text, place, rest, more);
        more = takes_if(pattern, token, options, text, place, may);
        row[place] = is_taken(form, here, more);
        rest = here;
    }
}

/// Whether the token may take the character at `place`: either its piece may end there, since the tokens after it take
/// the rest from the next place on (`rest`), or it goes on, since it takes more from there (`more`).
#[inline(always)]
fn may_take(form: Form, text: &[char], place: usize, rest: bool, more: bool) -> bool
    requires { place < length text.now }
    ensures { result
        ≡ ((rest && (not form.closes || opens text.now (place + 1))) || (form.grows && more)) }
{
    (rest && (!form.closes || opens(text, place + 1))) || (form.grows && more)
}

/// Whether a token and the tokens after it take the rest from a place: the token takes a character there (`more`), or
/// its piece may be empty.
#[inline(always)]
fn is_taken(form: Form, rest: bool, more: bool) -> bool
    ensures { result ≡ (more || (form.grows && rest)) }
{
    more || (form.grows && rest)
}
