//! The records that a pattern matches.
ghost use Rattle.std.specs.Prelude.{◌≡◌, ◌↔◌, IsTrue, IfOk};
ghost use Rattle.glob_lines.specs.Lines.{RecordMatches, record_matches};

use crate::selection::Selection;
use glob_pattern::{MatchOptions, Pattern, may_match};
use std::alloc::{AllocError, Allocator};
use std::str;

/// Selects the records that are UTF-8 and match the pattern.
#[derive(Drop)]
pub(crate) struct Matching<'p, B: Allocator> {
    pub pattern: &'p Pattern<B>,
    pub options: MatchOptions,
}

impl<B: Allocator + Copy> Selection for Matching<'_, B> {
    ghost selects = { λ m bytes. record_matches m.options m.pattern.now bytes };

    fn selects(&self, bytes: &[u8]) -> Result<bool, AllocError> {
        record_matches(self.pattern, self.options, bytes)
    }
}

/// Whether the record is UTF-8 and matches the pattern.
fn record_matches<B: Allocator + Copy>(
    pattern: &Pattern<B>,
    options: MatchOptions,
    bytes: &[u8],
) -> Result<bool, AllocError>
    ensures { IfOk result (λ yes. IsTrue yes ↔ RecordMatches options pattern.now bytes.now) }
{
    // A prefilter: it rejects most records, and costs less than the UTF-8 check.
    if !may_match(pattern, bytes, options) {
        return Ok(false);
    }
    match str::from_utf8(bytes) {
        Ok(text) => pattern.matches_with(text, options),
        Err(_) => Ok(false),
    }
}
