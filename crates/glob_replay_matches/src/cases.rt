//! Cases about patterns and texts, one a line.
//!
//! - `match PATTERN TEXT ..` gets the escaped pattern, `ok` and, for each text, eight letters `y` or `n`, one for each
//!   setting of the options.
//! - `captures OPTIONS PATTERN TEXT`, which `tests/captures.py` asks, gets three answers with `|` between them: each
//!   token's kind and where it ends; where each piece of the text ends, or `no`; how far the text is taken, and which
//!   tokens wait.
//! - `set OPTIONS NUMBER PATTERN .. TEXT ..`, with NUMBER patterns, gets a field for each text: whether any pattern
//!   matches, and the numbers of the first, the last, and all that do, as `Debug` writes them.
//! - For a pattern with a fault, the answer has `fault`, its place and its message instead of `ok` and what follows.

use glob_captures::{CapturesError, captures, reach, tokens};
use glob_pattern::{MatchOptions, Pattern};
use glob_replay::calls::{Calls, Make};
use glob_replay::ration::Memory;
use glob_replay::words::{add_fault, number_of, options_of, out_of_memory, pattern_of, unusable};
use glob_set::{BraceSetRefusal, PatternSet, SetRefusal};
use std::io::{self, Write};
use std::path::Path;

/// Cases about patterns and texts.
#[derive(Clone, Copy)]
pub struct MatchCases;

impl Make for MatchCases {
    fn make<M: Memory>(&self, calls: &mut Calls<M>, fields: &[&str]) -> io::Result<()> {
        match fields {
            ["match", pattern, texts @ ..] => add_matches(calls, pattern, texts),
            ["captures", fields @ ..] => add_captures(calls, fields),
            ["set", ..] => add_set(calls, fields),
            _ => Err(unusable()),
        }
    }
}

/// Adds the answer to `match`: for each text whether the pattern matches it, under each of the eight settings of the
/// options.
fn add_matches<M: Memory>(calls: &mut Calls<M>, pattern: &str, texts: &[&str]) -> io::Result<()> {
    let escaped = Pattern::escape(calls.alloc, pattern)?;
    write!(calls.words, "{}\t", escaped.as_str())?;
    let pattern = match Pattern::new(calls.alloc, pattern) {
        Ok(pattern) => pattern,
        Err(refusal) => return add_fault(refusal, "fault\t", &mut calls.words),
    };
    calls.words.push_str("ok\t")?;
    for text in texts {
        for letters in ["", "d", "s", "sd", "i", "id", "is", "isd"] {
            let is_match = pattern.matches_with(text, options_of(letters)?)?;
            calls.words.push(if is_match { 'y' } else { 'n' })?;
        }
    }
    Ok(())
}

/// Adds the answer to `captures`.
pub fn add_captures<M: Memory>(calls: &mut Calls<M>, fields: &[&str]) -> io::Result<()> {
    let [letters, pattern, text] = *fields else {
        return Err(unusable());
    };
    let (pattern, options) = (pattern_of(calls.alloc, pattern)?, options_of(letters)?);
    add_tokens(calls, &pattern)?;
    add_pieces(calls, &pattern, text, options)?;
    add_reached(calls, &pattern, text, options)
}

/// Adds each token's kind, and where it ends.
fn add_tokens<M: Memory>(calls: &mut Calls<M>, pattern: &Pattern<M>) -> io::Result<()> {
    for token in tokens(calls.alloc, pattern)?.iter() {
        write!(calls.words, "{:?} {} ", token.kind, token.piece.end)?;
    }
    Ok(calls.words.push('|')?)
}

/// Adds where each piece of the text ends, or `no`.
fn add_pieces<M: Memory>(
    calls: &mut Calls<M>,
    pattern: &Pattern<M>,
    text: &str,
    options: MatchOptions,
) -> io::Result<()> {
    match captures(calls.alloc, pattern, text, options) {
        Ok(Some(pieces)) => {
            for piece in pieces.iter() {
                write!(calls.words, " {}", piece.end)?;
            }
        }
        Ok(None) => calls.words.push_str(" no")?,
        Err(CapturesError::TooLarge) => calls.words.push_str(" too large")?,
        Err(CapturesError::Memory) => return Err(out_of_memory()),
    }
    Ok(())
}

/// Adds how far the text is taken, and what waits.
fn add_reached<M: Memory>(
    calls: &mut Calls<M>,
    pattern: &Pattern<M>,
    text: &str,
    options: MatchOptions,
) -> io::Result<()> {
    calls.words.push_str(" |")?;
    match reach(calls.alloc, pattern, text, options) {
        Ok(reached) => {
            write!(calls.words, " {}", reached.place)?;
            for token in reached.waiting.iter() {
                write!(calls.words, " {token}")?;
            }
        }
        Err(CapturesError::TooLarge) => calls.words.push_str(" too large")?,
        Err(CapturesError::Memory) => return Err(out_of_memory()),
    }
    Ok(())
}

/// Adds the answer to `set` or to a row of a set. If a pattern has a fault, the answer is the pattern's number or, if
/// patterns have braces, the printed fault.
pub fn add_set<M: Memory>(calls: &mut Calls<M>, row: &[&str]) -> io::Result<()> {
    let [call, letters, many, fields @ ..] = row else {
        return Err(unusable());
    };
    let (alloc, have_braces) = (calls.alloc, call.ends_with("braces"));
    let (patterns, texts) = fields.split_at_checked(number_of(many)?).ok_or(unusable())?;
    let options = options_of(letters)?;
    let Some(set) = set_of(calls, patterns, options, have_braces)? else {
        return Ok(());
    };
    let are_counted = have_braces || set.len() == patterns.len();
    let is_whole = are_counted && set.len() == set.patterns().len();
    if !is_whole || set.is_empty() != patterns.is_empty() || set.options() != options {
        calls.words.push_str("\tanother set")?;
    }
    let (mut all, mut by_path) = (Vec::new(alloc), Vec::new(alloc));
    for text in texts {
        set.matches_into(text, &mut all)?;
        set.matches_path_into(Path::new(text), &mut by_path)?;
        add_found(&set, text, &all, &mut calls.words)?;
        if all != by_path {
            calls.words.push_str(" otherwise as a path")?;
        }
    }
    Ok(())
}

/// The set of the patterns, which may have braces. If one has a fault, adds the answer for it, and returns `None`.
fn set_of<M: Memory>(
    calls: &mut Calls<M>,
    patterns: &[&str],
    options: MatchOptions,
    have_braces: bool,
) -> io::Result<Option<PatternSet<M>>> {
    if have_braces {
        match PatternSet::from_braces(calls.alloc, patterns, options) {
            Ok(set) => return Ok(Some(set)),
            Err(BraceSetRefusal::Memory) => return Err(out_of_memory()),
            Err(refusal) => write!(calls.words, "\t{refusal}")?,
        }
    } else {
        match PatternSet::from_texts(calls.alloc, patterns, options) {
            Ok(set) => return Ok(Some(set)),
            Err(SetRefusal::Memory) => return Err(out_of_memory()),
            Err(SetRefusal::Syntax(number, _)) => write!(calls.words, "\tfault {number}")?,
        }
    }
    Ok(None)
}

/// Adds whether any pattern of a set matches a text, and the numbers of the first, the last, and all that do. Checks
/// that the text as a path gives the same answers.
fn add_found<M: Memory>(
    set: &PatternSet<M>,
    text: &str,
    all: &[usize],
    words: &mut String,
) -> io::Result<()> {
    let (is_match, first, last) = (
        set.is_match(text)?,
        set.first_match(text)?,
        set.last_match(text)?,
    );
    write!(words, "\t{is_match} {first:?} {last:?} {all:?}")?;
    let path = Path::new(text);
    let is_by_path = set.is_match_path(path)? == is_match
        && set.first_match_path(path)? == first
        && set.last_match_path(path)? == last;
    if !is_by_path {
        words.push_str(" otherwise as a path")?;
    }
    Ok(())
}
