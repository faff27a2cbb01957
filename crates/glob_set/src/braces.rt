//! Braces in patterns: `src/*.{c,h}` is short for `src/*.c` and `src/*.h`.
//!
//! | Text | Its alternatives |
//! |---|---|
//! | `a.{c,h}` | `a.c`, `a.h` |
//! | `{a,b{1,2}}c` | `ac`, `b1c`, `b2c` |
//! | `{a,b}{1,2}` | `a1`, `a2`, `b1`, `b2` |
//! | `a{,b}`, `{a}` | `a` and `ab`, `a` |
//! | `a,b`, `[{,}]` | themselves: a comma outside braces and any character in a bracket are literal |
//!
//! Brackets are those of patterns: `[`, perhaps `!`, a character, any others up to `]`, and `]`. A `[` that begins no
//! bracket is literal.
ghost use Rattle.std.specs.Prelude.{◌≤◌, ◌↔◌, ℕ, List, IfOk, IfErr, chars, length, map, string_bytes};
ghost use Rattle.glob_set.specs.Braces.{AreAlternatives, IsAlternative, IsAmong, RefusesBraces};

mod counting;
mod error;
mod escaping;
mod expanding;
mod lexemes;

use counting::count_of;
pub use error::{BraceError, BraceRefusal};
pub use escaping::escape;
use expanding::expand_all;
use lexemes::lexemes_of;
use std::alloc::Allocator;

/// The greatest number of alternatives that a text may have.
pub const MOST_ALTERNATIVES: usize = 1000;

/// The alternatives of a text, in the order of its choices from left to right: `a1`, `a2`, `b1` and `b2` for
/// `{a,b}{1,2}`. A text without braces is its only alternative. They are counted before any is made.
///
/// The error is [`Syntax`](BraceRefusal::Syntax) with the first brace from the left that is unbalanced, or with
/// [`TooMany`](BraceError::TooMany) if there are more than [`MOST_ALTERNATIVES`], or [`Memory`](BraceRefusal::Memory)
/// if an allocation fails.
pub fn expand<A: Allocator + Copy>(alloc: A, text: &str) -> Result<Vec<String<A>, A>, BraceRefusal>
    ensures alternatives { IfOk result
        (λ texts. AreAlternatives (chars text.now) (map string_bytes texts.items)) }
    ensures each { IfOk result (λ texts. (alternative : List ℕ)
        → IsAlternative (chars text.now) alternative
        ↔ IsAmong (map string_bytes texts.items) alternative) }
    ensures few { IfOk result (λ texts. length texts.items ≤ 1000) }
    ensures refused { IfErr result (RefusesBraces (chars text.now)) }
{
    let lexemes = lexemes_of(alloc, text)?;
    let lexemes = lexemes.as_slice();
    let count = count_of(alloc, lexemes)?;
    if count > MOST_ALTERNATIVES {
        return Err(BraceRefusal::Syntax(BraceError::TooMany));
    }
    Ok(expand_all(alloc, lexemes)?)
}
