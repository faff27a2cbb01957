//! The number of alternatives of lexemes, and whether their braces are balanced.
ghost use Rattle.std.specs.Prelude.{◌≡◌, List, [], ◌∷◌, ◌++◌, length, reverse, IfOk, IfErr};
ghost use Rattle.glob_set.specs.Braces.{RefusesLexemes};
ghost use Rattle.glob_set.specs.declared.braces.lexemes.Lexeme.{Lexeme as Kept};
ghost use Rattle.glob_set.specs.Private.BraceCounts.{CountsAlternatives, CountsSoFar};

use crate::braces::error::{BraceError, BraceRefusal};
use crate::braces::lexemes::Lexeme;
use std::alloc::Allocator;

/// A `{` that is still open. Numbers of alternatives stop at `usize::MAX`.
#[derive(Clone, Copy)]
pub struct Opened {
    /// Its place, in characters from 0.
    pub place: usize,
    /// The number of alternatives before it.
    pub before: usize,
    /// The number of alternatives between it and its last comma.
    pub found: usize,
}

/// The number of alternatives of the lexemes, which stops at `usize::MAX`. The error is the first unbalanced brace from
/// the left, or a failed allocation.
pub fn count_of<A: Allocator>(alloc: A, lexemes: &[Lexeme]) -> Result<usize, BraceRefusal>
    ensures counted { IfOk result (CountsAlternatives lexemes.now) }
    ensures refused { IfErr result (RefusesLexemes lexemes.now) }
{
    let mut opened = Vec::new(alloc);
    let mut count: usize = 1;
    for (place, lexeme) in lexemes.iter().enumerate() {
        count = count_lexeme(&mut opened, count, place, *lexeme)?;
    }
    match opened.first() {
        Some(first) => Err(BraceRefusal::Syntax(BraceError::Unclosed(first.place))),
        None => Ok(count),
    }
}

/// Reads one more lexeme. `count` is the number of alternatives of the current branch, which began after the innermost
/// open `{` or its last comma. Returns the new count.
fn count_lexeme<A: Allocator>(
    opened: &mut Vec<Opened, A>,
    count: usize,
    place: usize,
    lexeme: Lexeme,
) -> Result<usize, BraceRefusal>
    ensures counted { IfOk result (λ next. (before : List Kept) → length before ≡ place
        → CountsSoFar before count (reverse opened.old.items)
        → CountsSoFar (before ++ lexeme ∷ []) next (reverse opened.new.items)) }
    ensures refused { IfErr result (λ refusal. (before rest : List Kept) → length before ≡ place
        → CountsSoFar before count (reverse opened.old.items)
        → RefusesLexemes (before ++ lexeme ∷ rest) refusal) }
{
    match lexeme {
        Lexeme::Literal(_) => Ok(count),
        Lexeme::Open => {
            opened.push(Opened {
                place,
                before: count,
                found: 0,
            })?;
            Ok(1)
        }
        Lexeme::Comma => match opened.pop() {
            Some(last) => {
                opened.push(Opened {
                    found: last.found.saturating_add(count),
                    ..last
                })?;
                Ok(1)
            }
            None => Ok(count),
        },
        Lexeme::Close => match opened.pop() {
            Some(last) => Ok(last.before.saturating_mul(last.found.saturating_add(count))),
            None => Err(BraceRefusal::Syntax(BraceError::Unmatched(place))),
        },
    }
}
