//! Which of several patterns is explained, and how it matches a text or does not.
ghost use Rattle.std.specs.Prelude.{◌≡◌, ◌<◌, ◌*◌, ◌↔◌, length, IfOk, IsTrue, chars};
ghost use Rattle.glob_pattern.specs.Computing.Tokens.{tokens_of};
ghost use Rattle.glob_pattern.specs.Matching.Texts.{Matches};

use crate::explain::explanation::Question;
use crate::explain::rows::{add_row, part_of};
use crate::explain::stop::stop_lines;
use crate::visible::Visible;
use glob_captures::{CapturesError, MOST_STEPS, Piece, captures, reach, tokens};
use glob_pattern::{MatchOptions, Pattern, PatternRefusal};
use std::alloc::{AllocError, Allocator};

/// The pattern to explain: the first that matches the text or, if none does, the first of the patterns whose match gets
/// farthest. It is empty if there are no patterns.
///
/// For `*.c` and `a.c` or `b.c`, and the text `a.h`, it is `*.c`.
pub fn nearest<'a, A: Allocator + Copy>(
    alloc: A,
    question: Question<'a>,
) -> Result<&'a str, CapturesError> {
    let Question { patterns, text, .. } = question;
    if let [only] = patterns {
        return Ok(*only);
    }
    let mut nearest = "";
    let mut farthest = None;
    for pattern in patterns {
        let Some(reached) = reached(alloc, pattern, text, question.options)? else {
            return Ok(*pattern);
        };
        if farthest.is_none_or(|place| place < reached) {
            farthest = Some(reached);
            nearest = *pattern;
        }
    }
    Ok(nearest)
}

/// How far in the text the match of a pattern gets, in bytes. `None` if it matches.
fn reached<A: Allocator + Copy>(
    alloc: A,
    pattern: &str,
    text: &str,
    options: MatchOptions,
) -> Result<Option<usize>, CapturesError> {
    let pattern = parsed(alloc, pattern)?;
    if pattern.matches_with(text, options)? {
        return Ok(None);
    }
    Ok(Some(reach(alloc, &pattern, text, options)?.place))
}

/// The pattern with this text, which is valid.
fn parsed<A: Allocator + Copy>(alloc: A, text: &str) -> Result<Pattern<A>, CapturesError> {
    match Pattern::new(alloc, text) {
        Ok(pattern) => Ok(pattern),
        Err(PatternRefusal::Syntax(_) | PatternRefusal::Memory) => Err(CapturesError::Memory),
    }
}

/// Adds how the pattern matches the text, or does not. If it is one of several, a line says which.
pub fn add_alternative<A: Allocator + Copy>(
    alloc: A,
    lines: &mut String<A>,
    pattern: &str,
    question: Question<'_>,
) -> Result<(), CapturesError> {
    let parsed = parsed(alloc, pattern)?;
    let reasons = reasons_of(alloc, &parsed, question.text, question.options)?;
    if question.patterns.len() > 1 {
        let count = question.patterns.len();
        let what = if reasons.is_match {
            "the first that matches"
        } else {
            "the first that gets farthest"
        };
        let pattern = Visible { text: pattern };
        writeln!(lines, "of {count} alternatives, {what}: {pattern}")?;
    }
    Ok(lines.push_str(reasons.lines.as_str())?)
}

/// Whether a pattern matches a text, and the lines about it.
#[derive(Drop)]
struct Reasons<A: Allocator> {
    is_match: bool,
    lines: String<A>,
}

/// Explains whether the pattern matches the whole text.
///
/// The error is [`CapturesError::TooLarge`] if the tokens times the bytes are more than [`MOST_STEPS`], or
/// [`CapturesError::Memory`] if an allocation fails.
fn reasons_of<A: Allocator + Copy>(
    alloc: A,
    pattern: &Pattern<A>,
    text: &str,
    options: MatchOptions,
) -> Result<Reasons<A>, CapturesError>
    ensures answer { IfOk result (λ reasons. IsTrue reasons.is_match
        ↔ Matches options (chars pattern.now) (chars text.now)) }
    ensures large { (result ≡ Err CapturesError.TooLarge)
        ↔ (MOST_STEPS < length (tokens_of (chars pattern.now)) * length text.now) }
{
    match captures(alloc, pattern, text, options)? {
        Some(pieces) => Ok(Reasons {
            is_match: true,
            lines: piece_lines(alloc, pattern, text, pieces.as_slice())?,
        }),
        None => Ok(Reasons {
            is_match: false,
            lines: stop_lines(alloc, pattern, text, options)?,
        }),
    }
}

/// A line for each token: the token as written, a tab, and its piece.
fn piece_lines<A: Allocator + Copy>(
    alloc: A,
    pattern: &Pattern<A>,
    text: &str,
    pieces: &[Piece],
) -> Result<String<A>, AllocError> {
    let mut lines = String::new(alloc);
    let list = tokens(alloc, pattern)?;
    for (token, piece) in list.iter().zip(pieces) {
        let written = part_of(pattern.as_str(), token.piece);
        add_row(&mut lines, written, part_of(text, *piece))?;
    }
    Ok(lines)
}
