//! How far a pattern gets in a text, and which tokens wait there.
ghost use Rattle.std.specs.Prelude.{◌≡◌, ◌+◌, ◌-◌, ◌<◌, ◌≤◌, length, chars};
ghost use Rattle.std.specs.Prelude.{ℕ, Bool, ◌&&◌, ◌||◌, not, List, false, IsTrue, slice_index_or, IfOk, ◌↔◌, ◌*◌, AllPairs};
ghost use Rattle.glob_text.specs.Text.{opens};
ghost use Rattle.glob_pattern.specs.Grammar.Tokens.{Token};
ghost use Rattle.glob_pattern.specs.declared.options.MatchOptions.{MatchOptions as Options};
ghost use Rattle.glob_pattern.specs.Computing.Tokens.{tokens_of};
ghost use Rattle.glob_captures.specs.Reaching.{IsFarthest, AreWaiting, IsReached};
ghost use Rattle.glob_captures.specs.Private.Fronts.{AreFronts, AreWaits};

use crate::error::CapturesError;
use crate::steps::{Form, MOST_STEPS, bytes_of, form_of, is_too_large, takes_if};
use glob_pattern::{MatchOptions, Pattern, characters_of, opens, tokens_len};
use std::alloc::{AllocError, Allocator, Global};

/// How far a pattern got in a text.
#[derive(Debug, Drop)]
pub struct Reached<A: Allocator = Global> {
    /// The farthest place, in bytes, that some number of first tokens reaches.
    pub place: usize,
    /// The numbers of the tokens that wait there for a character, ascending, counted from 0.
    pub waiting: Vec<usize, A>,
}

/// How far the pattern gets in the text: the farthest place, in bytes, that its first tokens can reach, however many of
/// them that takes, and the numbers of all tokens that wait for a character there. If the text does not match, this is
/// where it fails, and what the pattern expected there.
///
/// For `*.rs` and `a.rc` the place is the end: `*` took all, and `*` and `.` wait. For `a[0-9]b` and `a1c` the place is
/// 2, where token 2, the `b`, waits.
///
/// Time and memory are at most proportional to (tokens + 1) × (bytes of the text + 1). The errors are:
///
/// - [`CapturesError::TooLarge`]: tokens × bytes is more than [`MOST_STEPS`](crate::MOST_STEPS). Nothing was done.
/// - [`CapturesError::Memory`]: an allocation failed.
pub fn reach<A: Allocator + Copy, B: Allocator>(
    alloc: A,
    pattern: &Pattern<B>,
    text: &str,
    options: MatchOptions,
) -> Result<Reached<A>, CapturesError>
    ensures reached { IfOk result (λ reached. IsReached options (tokens_of (chars pattern.now))
        (chars text.now) reached.place reached.waiting.items) }
    ensures ascending { IfOk result
        (λ reached. AllPairs (λ number later. number < later) reached.waiting.items) }
    ensures large { (result ≡ Err CapturesError.TooLarge)
        ↔ (MOST_STEPS < length (tokens_of (chars pattern.now)) * length text.now) }
{
    if is_too_large(pattern, text) {
        return Err(CapturesError::TooLarge);
    }
    let characters = characters_of(alloc, text)?;
    let place = farthest(alloc, pattern, options, characters.as_slice())?;
    let waiting = waiting_at(alloc, pattern, options, characters.as_slice(), place)?;
    Ok(Reached {
        place: bytes_of(&characters[..place]),
        waiting,
    })
}

/// The farthest place that some number of first tokens reaches.
fn farthest<A: Allocator + Copy, B: Allocator>(
    alloc: A,
    pattern: &Pattern<B>,
    options: MatchOptions,
    text: &[char],
) -> Result<usize, AllocError>
    ensures { IfOk result (λ place.
        IsFarthest options (tokens_of (chars pattern.now)) text.now place) }
{
    let mut whole = fronts_at_start(alloc, text)?;
    let mut alive = fronts_at_start(alloc, text)?;
    let mut place = 0;
    for token in 0..tokens_len(pattern) {
        step(
            pattern,
            token,
            options,
            text,
            whole.as_mut_slice(),
            alive.as_mut_slice(),
        );
        let last = last_place(whole.as_slice());
        if place < last {
            place = last;
        }
    }
    Ok(place)
}

/// The numbers of the tokens that wait at a place, ascending.
fn waiting_at<A: Allocator + Copy, B: Allocator>(
    alloc: A,
    pattern: &Pattern<B>,
    options: MatchOptions,
    text: &[char],
    place: usize,
) -> Result<Vec<usize, A>, AllocError>
    requires { place ≤ length text.now }
    ensures waiting { IfOk result (λ waiting.
        AreWaiting options (tokens_of (chars pattern.now)) text.now place waiting.items) }
    ensures ascending { IfOk result
        (λ waiting. AllPairs (λ number later. number < later) waiting.items) }
{
    let mut whole = fronts_at_start(alloc, text)?;
    let mut alive = fronts_at_start(alloc, text)?;
    let mut waiting = Vec::new(alloc);
    for token in 0..tokens_len(pattern) {
        step(
            pattern,
            token,
            options,
            text,
            whole.as_mut_slice(),
            alive.as_mut_slice(),
        );
        if alive[place] {
            waiting.push(token)?;
        }
    }
    Ok(waiting)
}

/// The row for zero tokens, which reach only the start of the text.
fn fronts_at_start<A: Allocator>(alloc: A, text: &[char]) -> Result<Vec<bool, A>, AllocError>
    ensures { IfOk result (λ places. (o : Options) (tokens : List Token)
        → AreFronts o tokens text.now 0 places.items) }
{
    let mut places = vec![in alloc; false; text.len() + 1]?;
    places[0] = true;
    Ok(places)
}

/// Updates `whole`, the places up to which the first tokens take the text, to include this token. Sets `alive` to the
/// places where this token waits.
fn step<A: Allocator>(
    pattern: &Pattern<A>,
    token: usize,
    options: MatchOptions,
    text: &[char],
    whole: &mut [bool],
    alive: &mut [bool],
)
    requires token { token < length (tokens_of (chars pattern.now)) }
    requires fronts { AreFronts options (tokens_of (chars pattern.now)) text.now token whole.old }
    requires room { length alive.old ≡ length text.now + 1 }
    ensures fronts { AreFronts options (tokens_of (chars pattern.now)) text.now (token + 1) whole.new }
    ensures waits { AreWaits options (tokens_of (chars pattern.now)) text.now token alive.new }
{
    let form = form_of(pattern, token);
    let mut took = false;
    for place in 0..whole.len() {
        let was = whole[place];
        let waits = may_wait(form, was, took);
        alive[place] = waits;
        whole[place] = may_end(form, text, place, was, took);
        took = place < text.len() && takes_if(pattern, token, options, text, place, waits);
    }
}

/// Whether a token waits at a place: `was` says that the tokens before it take the text up to there, `took` that it
/// took the character before it.
#[inline(always)]
fn may_wait(form: Form, was: bool, took: bool) -> bool
    ensures { result ≡ (was || (took && form.grows)) }
{
    was || (took && form.grows)
}

/// Whether the token's piece may end at the place.
#[inline(always)]
fn may_end(form: Form, text: &[char], place: usize, was: bool, took: bool) -> bool
    requires { place ≤ length text.now }
    ensures { result ≡ ((was && form.grows) || (took && (not form.closes || opens text.now place))) }
{
    (was && form.grows) || (took && (!form.closes || opens(text, place)))
}

/// The last place whose entry is true, or 0 if all are false.
fn last_place(places: &[bool]) -> usize
    requires { 0 < length places.now }
    ensures within { result < length places.now }
    ensures last { (k : ℕ) → k < length places.now → IsTrue (slice_index_or places.now k false)
        → k ≤ result }
    ensures here { 0 < result → IsTrue (slice_index_or places.now result false) }
{
    let mut last = 0;
    for place in 0..places.len() {
        if places[place] {
            last = place;
        }
    }
    last
}
