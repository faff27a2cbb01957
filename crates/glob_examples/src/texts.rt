//! Parses a pattern for a single match, and parses a pattern's own text again.
ghost use Rattle.std.specs.Prelude.{◌≡◌, ◌↔◌, IsTrue, IfOk, chars};
ghost use Rattle.glob.specs.Matching.Options.{new_options};
ghost use Rattle.glob.specs.Matching.Texts.{Matches};

use glob::{Pattern, PatternRefusal, laws};
use std::alloc::{AllocError, Allocator};

/// Whether the pattern matches the text, as `*.rs` matches `main.rs`. An invalid pattern matches nothing: `a**` does
/// not even match `a`. The error is a failed allocation.
pub fn matches_text<A: Allocator + Copy>(
    alloc: A,
    pattern: &str,
    text: &str,
) -> Result<bool, AllocError>
    ensures { IfOk result
        (λ yes. IsTrue yes ↔ Matches new_options (chars pattern.now) (chars text.now)) }
{
    match Pattern::new(alloc, pattern) {
        Ok(pattern) => pattern.matches(text),
        Err(PatternRefusal::Syntax(_)) => Ok(false),
        Err(PatternRefusal::Memory) => Err(AllocError),
    }
}

/// Parses a pattern's text again, which gives an equal pattern. The error is a failed allocation.
pub fn reread<A: Allocator + Copy, B: Allocator>(
    alloc: A,
    pattern: &Pattern<B>,
) -> Result<Pattern<A>, AllocError>
    ensures { IfOk result (λ p. p ≡ pattern.now) }
{
    laws::accepted_has_no_fault();
    match Pattern::new(alloc, pattern.as_str()) {
        Ok(again) => Ok(again),
        Err(PatternRefusal::Memory) => Err(AllocError),
        Err(PatternRefusal::Syntax(_)) => unreachable!(),
    }
}
