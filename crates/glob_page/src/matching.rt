ghost use Rattle.std.specs.Prelude.{◌≡◌, ◌↔◌, ◌∷◌, ◌*◌, ◌<◌, ◌≤◌, ◌⊎◌, IsTrue, IfOk, Err, true, false, chars, length, take};
ghost use Rattle.glob_pattern.specs.Computing.Tokens.{tokens_of};
ghost use Rattle.glob_pattern.specs.Matching.Options.{options_of_bits};
ghost use Rattle.glob_pattern.specs.Matching.Texts.{Matches};
ghost use Rattle.glob_captures.specs.Captures.{AreCaptures};
ghost use Rattle.glob_captures.specs.Reaching.{IsReached};
ghost use Rattle.glob_page.specs.Answers.{ArePieces, Decides, IsStop, no, numbers_of, too_large, yes};

use crate::buffer::{FAULT, NO, NOT_UTF8, OUT_OF_MEMORY, TOO_LARGE, YES, write_numbers};
use glob_captures::{CapturesError, MOST_STEPS, Piece, Reached, captures, reach};
use glob_pattern::{MatchOptions, Pattern, PatternRefusal};
use std::alloc::{AllocError, Global};

/// Whether the pattern matches the text, under the options of the flags: 0 for no, and 1 for yes.
///
/// After 1, `out` begins with where each token's piece starts and ends, in bytes; after 0, with how far the pattern
/// gets in the text, in bytes, and the numbers of the tokens that wait there. `count` is how many numbers these are.
/// Otherwise it returns 2 if the pattern is not valid, 3 if an allocation fails, 4 if some bytes are not UTF-8, and 5
/// if the text is too large or the buffer too short.
#[unsafe(no_mangle)]
#[tactic(auto, using(glob_pattern::proofs::CallerLemmas::no_fault))]
pub extern "C" fn page_match(
    alloc: Global,
    pattern: &[u8],
    text: &[u8],
    flags: u32,
    out: &mut [usize],
    count: &mut usize,
) -> u32
    ensures answer { Decides pattern.now text.now flags result }
    ensures pieces { result ≡ yes
        → ArePieces (options_of_bits flags) pattern.now text.now (take count.new out.new) }
    ensures stop { result ≡ no
        → IsStop (options_of_bits flags) pattern.now text.now (take count.new out.new) }
    ensures fits { result ≤ yes → count.new ≤ length out.old }
    ensures large { result ≡ too_large
        → (MOST_STEPS < length (tokens_of (chars pattern.now)) * length text.now)
        ⊎ (length out.old < count.new) }
{
    let (Ok(pattern), Ok(text)) = (str::from_utf8(pattern), str::from_utf8(text)) else {
        return NOT_UTF8;
    };
    let pattern = match Pattern::new(alloc, pattern) {
        Ok(pattern) => pattern,
        Err(PatternRefusal::Syntax(_)) => return FAULT,
        Err(PatternRefusal::Memory) => return OUT_OF_MEMORY,
    };
    match decided(alloc, &pattern, text, MatchOptions::from_bits(flags)) {
        Ok((matches, numbers)) => {
            if !write_numbers(numbers.as_slice(), out, count) {
                TOO_LARGE
            } else if matches {
                YES
            } else {
                NO
            }
        }
        Err(CapturesError::TooLarge) => TOO_LARGE,
        Err(CapturesError::Memory) => OUT_OF_MEMORY,
    }
}

/// Whether the pattern matches the text, and the numbers to write.
fn decided(
    alloc: Global,
    pattern: &Pattern<Global>,
    text: &str,
    options: MatchOptions,
) -> Result<(bool, Vec<usize, Global>), CapturesError>
    ensures answer { IfOk result
        (λ found. IsTrue found.0 ↔ Matches options (chars pattern.now) (chars text.now)) }
    ensures pieces { IfOk result
        (λ found. found.0 ≡ true → ArePieces options pattern.now text.now found.1.items) }
    ensures stop { IfOk result
        (λ found. found.0 ≡ false → IsStop options pattern.now text.now found.1.items) }
    ensures large { result ≡ Err CapturesError.TooLarge
        → MOST_STEPS < length (tokens_of (chars pattern.now)) * length text.now }
{
    match captures(alloc, pattern, text, options)? {
        Some(pieces) => Ok((true, piece_numbers(alloc, pieces.as_slice())?)),
        None => {
            let reached = reach(alloc, pattern, text, options)?;
            Ok((false, stop_numbers(alloc, &reached)?))
        }
    }
}

/// Where each piece starts and ends.
fn piece_numbers(alloc: Global, pieces: &[Piece]) -> Result<Vec<usize, Global>, AllocError>
    ensures { IfOk result (λ numbers. numbers.items ≡ numbers_of pieces.now) }
{
    let mut numbers = Vec::new(alloc);
    for piece in pieces {
        numbers.push(piece.start)?;
        numbers.push(piece.end)?;
    }
    Ok(numbers)
}

/// How far the pattern gets in the text, and the tokens that wait there.
fn stop_numbers(alloc: Global, reached: &Reached<Global>) -> Result<Vec<usize, Global>, AllocError>
    ensures { IfOk result
        (λ numbers. numbers.items ≡ reached.now.place ∷ reached.now.waiting.items) }
{
    let mut numbers = Vec::new(alloc);
    numbers.push(reached.place)?;
    numbers.extend_from_slice(reached.waiting.as_slice())?;
    Ok(numbers)
}
