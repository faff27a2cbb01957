//! What to write for `find`, whose wildcards take no `/`.
ghost use Rattle.std.specs.Prelude.{◌≡◌, ◌++◌, IfOk, IfSome, chars, codes, string_bytes};
ghost use Rattle.glob_pattern.specs.Matching.Texts.{Matches};
ghost use Rattle.globs.specs.Explain.Offers.{IsFindOffer};
ghost use Rattle.globs.specs.Explain.Verdict.{by_find};

use crate::explain::instead::is_match;
use crate::explain::verdict::Finding;
use crate::find::leads::split_lead;
use crate::visible::is_seen;
use glob_pattern::MatchOptions;
use std::alloc::{AllocError, Allocator};

/// In front of how many components `**` is tried.
const MOST_PLACES: usize = 16;

/// A line with a pattern that lets `find` find the text, if this pattern does not; both have the same lead. The line is
/// empty if nothing simple works.
///
/// For `src/*.rs` and `src/a/b.rs` it is `"for find write: src/**/*.rs\n"`.
#[tactic(auto, unfolding(crate::specs::Explain::Offers::IsFindOffer))]
pub fn find_line<A: Allocator + Copy>(
    alloc: A,
    finding: Finding,
    pattern: &str,
    text: &str,
    options: MatchOptions,
) -> Result<String<A>, AllocError>
    ensures { IfOk result (λ line.
        IsFindOffer (by_find options) text.now (string_bytes line)) }
{
    let is_missed = matches!(finding, Finding::Misses | Finding::Parts);
    let (front, rest) = split_lead(pattern);
    let (lead, below) = split_lead(text);
    if !is_missed || !is_seen(pattern) || front != lead {
        return Ok(String::new(alloc));
    }
    let options = MatchOptions {
        require_literal_separator: true,
        ..options
    };
    match deeper(alloc, rest, below, options)? {
        Some(deeper) => offer(alloc, lead, deeper.as_str()),
        None => Ok(String::new(alloc)),
    }
}

/// The line that offers a pattern with a lead.
fn offer<A: Allocator + Copy>(alloc: A, lead: &str, pattern: &str) -> Result<String<A>, AllocError>
    ensures { IfOk result (λ line. string_bytes line
        ≡ codes "for find write: " ++ (lead.now ++ (pattern.now ++ codes "\n"))) }
{
    format!(in alloc; "for find write: {lead}{pattern}\n")
}

/// The pattern with `**` as one more component, at the first place where it then matches the text.
fn deeper<A: Allocator + Copy>(
    alloc: A,
    pattern: &str,
    text: &str,
    options: MatchOptions,
) -> Result<Option<String<A>>, AllocError>
    ensures { IfOk result (λ found. IfSome found
        (λ deeper. Matches options (chars (string_bytes deeper)) (chars text.now))) }
{
    let mut rest = pattern;
    for _ in 0..MOST_PLACES {
        let front = front_of(pattern, rest);
        let deeper = format!(in alloc; "{front}**/{rest}")?;
        if is_match(alloc, deeper.as_str(), text, options)? {
            return Ok(Some(deeper));
        }
        let Some((_, after)) = rest.split_once('/') else {
            break;
        };
        rest = after;
    }
    let below = format!(in alloc; "{pattern}/**")?;
    if is_match(alloc, below.as_str(), text, options)? {
        return Ok(Some(below));
    }
    Ok(None)
}

/// What precedes the end of a text.
fn front_of<'a>(text: &'a str, end: &str) -> &'a str {
    text.get(..text.len().saturating_sub(end.len()))
        .unwrap_or("")
}
