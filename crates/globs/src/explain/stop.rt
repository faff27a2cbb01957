//! Where the match of a text stops, and what the pattern wants there.
ghost use Rattle.std.specs.Prelude.{◌≡◌, ◌<◌, ◌*◌, ◌↔◌, length, chars};
ghost use Rattle.glob_pattern.specs.Computing.Tokens.{tokens_of};

mod wanted;

use crate::explain::instead::is_match;
use crate::explain::notes::{add_blank_end, add_forms, add_vain_brackets};
use crate::explain::rows::{add_row, part_of};
use crate::visible::Caret;
use glob_captures::{CapturesError, MOST_STEPS, Piece, Reached, Written, reach, tokens};
use glob_pattern::{MatchOptions, Pattern};
use std::alloc::{AllocError, Allocator};
use wanted::{add_want, grows, run_end};

/// Where a match stops, and why.
#[derive(Clone, Copy)]
struct Stop<'a> {
    /// The text of the pattern.
    pattern: &'a str,
    /// All tokens of the pattern.
    tokens: &'a [Written],
    /// The indices of the tokens that wait there.
    waiting: &'a [usize],
    /// The text up to where the match stops.
    before: &'a str,
    /// The rest of the text.
    rest: &'a str,
    options: MatchOptions,
}

/// The text with a caret where the match stops, and below it what the pattern wants there and what is easily missed.
/// Errors are as for [`reach`].
pub fn stop_lines<A: Allocator + Copy>(
    alloc: A,
    pattern: &Pattern<A>,
    text: &str,
    options: MatchOptions,
) -> Result<String<A>, CapturesError>
    ensures large { (result ≡ Err CapturesError.TooLarge)
        ↔ (MOST_STEPS < length (tokens_of (chars pattern.now)) * length text.now) }
{
    let reached = reach(alloc, pattern, text, options)?;
    Ok(reached_lines(alloc, pattern, text, options, &reached)?)
}

/// The lines for a text that is matched up to `reached.place`.
fn reached_lines<A: Allocator + Copy>(
    alloc: A,
    pattern: &Pattern<A>,
    text: &str,
    options: MatchOptions,
    reached: &Reached<A>,
) -> Result<String<A>, AllocError> {
    let list = tokens(alloc, pattern)?;
    let stop = Stop {
        pattern: pattern.as_str(),
        tokens: list.as_slice(),
        waiting: reached.waiting.as_slice(),
        before: text.get(..reached.place).unwrap_or(text),
        rest: text.get(reached.place..).unwrap_or(""),
        options,
    };
    let caret = Caret {
        text,
        column: stop.before.chars().count(),
    };
    let mut lines = format!(in alloc; "{caret}\n")?;
    add_reason(alloc, &mut lines, pattern, &stop)?;
    add_blank_end(&mut lines, "text", text)?;
    add_blank_end(&mut lines, "pattern", stop.pattern)?;
    let case_sensitive = options.case_sensitive;
    add_vain_brackets(alloc, &mut lines, stop.pattern, stop.tokens, case_sensitive)?;
    add_forms(&mut lines, stop.pattern, stop.tokens)?;
    Ok(lines)
}

/// Adds what the pattern wants where the match stops.
fn add_reason<A: Allocator + Copy>(
    alloc: A,
    lines: &mut String<A>,
    pattern: &Pattern<A>,
    stop: &Stop<'_>,
) -> Result<(), AllocError> {
    match missing_ending(alloc, stop)? {
        Some(ending) => add_row(lines, ending, "is wanted at the end of the text"),
        None => {
            add_waiting(lines, stop)?;
            add_end(lines, pattern, stop)
        }
    }
}

/// The tokens after the last `*` or `**`, as written: if the match got through the whole text and waits for the first
/// of them, but the text does not end in what they match. For `*.rs` and `a.c` they are `.rs`.
fn missing_ending<'a, A: Allocator + Copy>(
    alloc: A,
    stop: &Stop<'a>,
) -> Result<Option<&'a str>, AllocError> {
    match first_of_ending(stop.tokens) {
        Some((number, token)) if stop.rest.is_empty() && stop.waiting.contains(&number) => {
            let ending = stop.pattern.get(token.piece.start..).unwrap_or("");
            let ends = ends_in(alloc, stop.before, ending, stop.options.case_sensitive)?;
            Ok(if ends { None } else { Some(ending) })
        }
        _ => Ok(None),
    }
}

/// The first token after the last `*` or `**`, and its index. `None` if there is no such wildcard, or no token after
/// it.
fn first_of_ending(tokens: &[Written]) -> Option<(usize, Written)> {
    let mut first = None;
    let mut was_wildcard = false;
    for (number, token) in tokens.iter().enumerate() {
        if grows(token.kind) {
            first = None;
            was_wildcard = true;
        } else if was_wildcard {
            first = Some((number, *token));
            was_wildcard = false;
        }
    }
    first
}

/// Whether the text ends in something that `ending`, the last tokens of a pattern, matches.
fn ends_in<A: Allocator + Copy>(
    alloc: A,
    text: &str,
    ending: &str,
    case_sensitive: bool,
) -> Result<bool, AllocError> {
    let written = format!(in alloc; "*{ending}")?;
    let options = MatchOptions {
        case_sensitive,
        ..MatchOptions::new()
    };
    is_match(alloc, written.as_str(), text, options)
}

/// Adds a line for each waiting token: the token as written, a tab, and what it wants. Adjacent characters share a
/// line. At the end of the text, `*` and `**` are left out if a token of another kind waits.
fn add_waiting<A: Allocator>(lines: &mut String<A>, stop: &Stop<'_>) -> Result<(), AllocError> {
    let at_end = stop.rest.is_empty() && waits_for_one(stop);
    for number in stop.waiting {
        let Some([token, after @ ..]) = stop.tokens.get(*number..) else {
            continue;
        };
        if !(at_end && grows(token.kind)) {
            let end = run_end(*token, after);
            let piece = Piece {
                start: token.piece.start,
                end,
            };
            let written = part_of(stop.pattern, piece);
            add_want(
                lines,
                token.kind,
                written,
                after.is_empty(),
                stop.rest,
                stop.options,
            )?;
        }
    }
    Ok(())
}

/// Whether a token waits that matches exactly one character.
fn waits_for_one(stop: &Stop<'_>) -> bool {
    let takes_one = |number: &usize| {
        stop.tokens
            .get(*number)
            .is_some_and(|token| !grows(token.kind))
    };
    stop.waiting.iter().any(takes_one)
}

/// Adds a line if the pattern ends, or may end, where the match stops.
fn add_end<A: Allocator + Copy>(
    lines: &mut String<A>,
    pattern: &Pattern<A>,
    stop: &Stop<'_>,
) -> Result<(), AllocError> {
    if stop.waiting.is_empty() {
        lines.push_str("the pattern ends here\n")
    } else if pattern.matches_with(stop.before, stop.options)? {
        lines.push_str("the pattern may end here\n")
    } else {
        Ok(())
    }
}
