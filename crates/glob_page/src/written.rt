ghost use Rattle.std.specs.Prelude.{◌≡◌, ◌*◌, ◌<◌, ◌≤◌, IfOk, IsUtf8, length, chars, take};
ghost use Rattle.glob_pattern.specs.Computing.Tokens.{tokens_of};
ghost use Rattle.glob_pattern.specs.Grammar.Units.{IsAccepted};
ghost use Rattle.glob_page.specs.Answers.{AreTokens, fault, kind_number, no, not_utf8, too_large, yes};

use crate::buffer::{FAULT, NOT_UTF8, OUT_OF_MEMORY, TOO_LARGE, YES, write_numbers};
use glob_captures::{TokenKind, tokens};
use glob_pattern::{Pattern, PatternRefusal};
use std::alloc::{AllocError, Global};

/// The tokens of a pattern, with three numbers each: its kind, and where it starts and ends, in bytes. The kinds are 0
/// for a character, 1 for `?`, 2 for `*`, 3 for `**`, 4 for a bracket, and 5 for a bracket that begins with `!`.
///
/// Returns 1, and then `out` begins with these numbers and `count` is how many they are; 2 if the pattern is not valid;
/// 3 if an allocation fails; 4 if the bytes are not UTF-8; or 5 if `out` is too short.
#[unsafe(no_mangle)]
#[tactic(auto, using(glob_pattern::proofs::CallerLemmas::no_fault))]
pub extern "C" fn page_tokens(
    alloc: Global,
    pattern: &[u8],
    out: &mut [usize],
    count: &mut usize,
) -> u32
    ensures range { result ≤ too_large }
    ensures some { ¬ (result ≡ no) }
    ensures utf8 { ¬ (result ≡ not_utf8) → IsUtf8 pattern.now }
    ensures accepted { result ≡ yes → IsAccepted (chars pattern.now) }
    ensures count { result ≡ yes → count.new ≡ 3 * length (tokens_of (chars pattern.now)) }
    ensures tokens { result ≡ yes → AreTokens pattern.now (take count.new out.new) }
    ensures refused { result ≡ fault → ¬ (IsAccepted (chars pattern.now)) }
    ensures not_utf8 { result ≡ not_utf8 → ¬ (IsUtf8 pattern.now) }
    ensures short { result ≡ too_large → length out.old < count.new }
    ensures needed { result ≡ too_large → count.new ≡ 3 * length (tokens_of (chars pattern.now)) }
{
    let Ok(text) = str::from_utf8(pattern) else {
        return NOT_UTF8;
    };
    let pattern = match Pattern::new(alloc, text) {
        Ok(pattern) => pattern,
        Err(PatternRefusal::Syntax(_)) => return FAULT,
        Err(PatternRefusal::Memory) => return OUT_OF_MEMORY,
    };
    match token_numbers(alloc, &pattern) {
        Ok(numbers) => {
            if write_numbers(numbers.as_slice(), out, count) {
                YES
            } else {
                TOO_LARGE
            }
        }
        Err(_) => OUT_OF_MEMORY,
    }
}

/// Three numbers for each token.
fn token_numbers(alloc: Global, pattern: &Pattern<Global>) -> Result<Vec<usize, Global>, AllocError>
    ensures count { IfOk result
        (λ numbers. length numbers.items ≡ 3 * length (tokens_of (chars pattern.now))) }
    ensures tokens { IfOk result (λ numbers. AreTokens pattern.now numbers.items) }
{
    let list = tokens(alloc, pattern)?;
    let mut numbers = Vec::new(alloc);
    for token in list.as_slice() {
        numbers.push(number_of(token.kind))?;
        numbers.push(token.piece.start)?;
        numbers.push(token.piece.end)?;
    }
    Ok(numbers)
}

/// The number of a kind.
fn number_of(kind: TokenKind) -> usize
    ensures { result ≡ kind_number kind }
{
    match kind {
        TokenKind::Literal => 0,
        TokenKind::AnyChar => 1,
        TokenKind::AnySequence => 2,
        TokenKind::Recursive => 3,
        TokenKind::OneOf => 4,
        TokenKind::NoneOf => 5,
    }
}
