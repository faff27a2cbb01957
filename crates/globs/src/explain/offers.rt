//! What to write instead of a pattern. Each offer is tried against the text.
ghost use Rattle.std.specs.Prelude.{IfOk, IfSome, chars, string_bytes};
ghost use Rattle.glob_pattern.specs.Grammar.Units.{IsAccepted};
ghost use Rattle.glob_pattern.specs.Matching.Texts.{Matches};
ghost use Rattle.globs.specs.Explain.Offers.{IsOffer};

use crate::explain::instead::{is_accepted, is_match};
use crate::visible::is_seen;
use glob_pattern::MatchOptions;
use std::alloc::{AllocError, Allocator};

/// A line with the first of the patterns that matches the text. If none does, it has the first valid pattern, and says
/// so. It is empty if no pattern is valid. Patterns with control characters are not offered.
///
/// For `a*/**` and `a*`, and the text `ab`, it is `"write instead: a*\n"`.
#[tactic(auto, unfolding(crate::specs::Explain::Offers::IsOffer))]
pub fn offer_line<A: Allocator + Copy>(
    alloc: A,
    patterns: &[String<A>],
    text: &str,
    options: MatchOptions,
) -> Result<String<A>, AllocError>
    ensures { IfOk result (λ line. IsOffer options text.now (string_bytes line)) }
{
    if let Some(pattern) = matching(alloc, patterns, text, options)? {
        return format!(in alloc; "write instead: {pattern}\n");
    }
    match accepted(alloc, patterns)? {
        Some(pattern) => {
            format!(in alloc; "write instead: {pattern}, which does not match this text\n")
        }
        None => Ok(String::new(alloc)),
    }
}

/// The first of the patterns that matches the text.
fn matching<'a, A: Allocator + Copy>(
    alloc: A,
    patterns: &'a [String<A>],
    text: &str,
    options: MatchOptions,
) -> Result<Option<&'a str>, AllocError>
    ensures { IfOk result (λ found. IfSome found
        (λ pattern. Matches options (chars pattern.now) (chars text.now))) }
{
    for pattern in patterns {
        let pattern = pattern.as_str();
        if is_seen(pattern) && is_match(alloc, pattern, text, options)? {
            return Ok(Some(pattern));
        }
    }
    Ok(None)
}

/// The first of the texts that is a valid pattern.
fn accepted<A: Allocator + Copy>(alloc: A, texts: &[String<A>]) -> Result<Option<&str>, AllocError>
    ensures { IfOk result (λ found. IfSome found
        (λ pattern. IsAccepted (chars pattern.now))) }
{
    for text in texts {
        let text = text.as_str();
        if is_seen(text) && is_accepted(alloc, text)? {
            return Ok(Some(text));
        }
    }
    Ok(None)
}
