//! Laws that relate calls of patterns.
ghost use Rattle.std.specs.Prelude.{◌≡◌, IsTrue, IfErr, IfOk};

use crate::laws::patterns::accepted_has_no_fault;
use glob_pattern::{MatchOptions, Pattern, PatternRefusal};
use std::alloc::{AllocError, Allocator};
use std::path::Path;

/// Parses a pattern's text. The result is an equal pattern: `new` of the text of `a*` is `a*` again. The error is a
/// failed allocation.
pub fn text_is_an_equal_pattern<A: Allocator + Copy, B: Allocator>(
    alloc: A,
    pattern: &Pattern<B>,
) -> Result<Pattern<A>, PatternRefusal>
    ensures same { IfOk result (λ p. p ≡ pattern.now) }
    ensures accepted { IfErr result (λ refusal. refusal ≡ PatternRefusal.Memory) }
{
    accepted_has_no_fault();
    Pattern::new(alloc, pattern.as_str())
}

/// Whether `matches_path_with` returns the same for a path as `matches_with` for its text: always true. The error is a
/// failed allocation.
pub fn path_matches_as_its_text<A: Allocator + Copy>(
    pattern: &Pattern<A>,
    path: Path<'_>,
    options: MatchOptions,
) -> Result<bool, AllocError>
    ensures { IfOk result (λ same. IsTrue same) }
{
    let of_path = pattern.matches_path_with(path, options)?;
    let of_text = pattern.matches_with(path.as_str(), options)?;
    Ok(of_path == of_text)
}
