//! The wildcards `*` and `**` of a pattern: only the pieces between them have to be searched for.
ghost use Rattle.std.specs.Prelude.{chars};
ghost use Rattle.glob_pattern.specs.Computing.Tokens.{tokens_of};
ghost use Rattle.glob_captures.specs.Private.Rests.{IsSpan};

use crate::steps::form_of;
use glob_pattern::{Pattern, tokens_len};
use std::alloc::Allocator;

/// The numbers of the first and the last token that is `*` or `**`. If there is none, both are the number of tokens.
#[derive(Clone, Copy)]
pub struct WildcardSpan {
    /// The number of the first.
    pub first: usize,
    /// The number of the last.
    pub last: usize,
}

/// Where the wildcards are.
pub fn span_of<A: Allocator>(pattern: &Pattern<A>) -> WildcardSpan
    ensures { IsSpan (tokens_of (chars pattern.now)) result }
{
    let tokens = tokens_len(pattern);
    let mut first = tokens;
    let mut last = tokens;
    for token in 0..tokens {
        if form_of(pattern, token).grows {
            last = token;
            if first == tokens {
                first = token;
            }
        }
    }
    WildcardSpan { first, last }
}
