//! Calls of rows of matches.

use glob_captures::tokens;
use glob_pattern::{MatchOptions, Pattern};
use glob_replay::calls::Calls;
use glob_replay::ration::Memory;
use glob_replay::words::{number_of, options_of, pattern_of, refused, unusable};
use std::alloc::{AllocError, Global};
use std::io::{self, Write};
use std::path::Path;

/// Up to how many tokens a match needs no memory.
const SHORT: usize = 63;

/// A pattern, a text and the options of a match.
type Asked<'a> = (&'a str, &'a str, MatchOptions);

/// Matches as a row says: the options, a pattern, a text, and the most questions, which may be empty. Adds `yes` or
/// `no`, and any complaint: another call that answers differently, a wrong number of questions, or a request for memory
/// although the pattern is short.
pub fn add_match<M: Memory>(calls: &mut Calls<M>, fields: &[&str]) -> io::Result<()> {
    let [setting, source, text, most] = *fields else {
        return Err(unusable());
    };
    let asked = (source, text, options_of(setting)?);
    let pattern = pattern_of(calls.alloc, source)?;
    let found = add_counted(calls, &pattern, asked, most)?;
    add_same(calls, &pattern, asked, found)?;
    add_again(calls, asked, found)
}

/// Adds whether a pattern matches, and what is wrong with the questions. Returns the answer and the number of tokens.
fn add_counted<M: Memory>(
    calls: &mut Calls<M>,
    pattern: &Pattern<M>,
    asked: Asked<'_>,
    most: &str,
) -> io::Result<(bool, usize)> {
    let tokens = tokens(calls.alloc, pattern)?.len();
    let requests = calls.alloc.ration().asked();
    let (is_match, questions) = pattern.matches_counted(asked.1, asked.2)?;
    calls.words.push_str(if is_match { "yes" } else { "no" })?;
    add_memory(calls, tokens, requests)?;
    add_questions(calls, asked, (is_match, tokens), questions, most)?;
    Ok((is_match, tokens))
}

/// Adds a complaint if memory was requested after this many requests, although the pattern is short.
fn add_memory<M: Memory>(calls: &mut Calls<M>, tokens: usize, requests: u64) -> io::Result<()> {
    if tokens <= SHORT && calls.alloc.ration().asked() != requests {
        calls.words.push_str(", with memory")?;
    }
    Ok(())
}

/// Asks a pattern by all other calls, and adds any complaint.
fn add_same<M: Memory>(
    calls: &mut Calls<M>,
    pattern: &Pattern<M>,
    asked: Asked<'_>,
    (is_match, tokens): (bool, usize),
) -> io::Result<()> {
    let requests = calls.alloc.ration().asked();
    if !is_answer(pattern, asked, is_match)? {
        calls.words.push_str(", and otherwise by another call")?;
    }
    add_memory(calls, tokens, requests)
}

/// Parses the pattern a second time, and asks the result and a copy of it.
fn add_again<M: Memory>(
    calls: &mut Calls<M>,
    asked: Asked<'_>,
    found: (bool, usize),
) -> io::Result<()> {
    let other = read_again(calls.alloc, asked.0)?;
    add_same(calls, &other, asked, found)?;
    add_same(calls, &other.clone()?, asked, found)
}

/// Adds the number of questions if it is outside the usual bounds, or above the bound that the row gives.
fn add_questions<M: Memory>(
    calls: &mut Calls<M>,
    asked: Asked<'_>,
    found: (bool, usize),
    questions: u128,
    most: &str,
) -> io::Result<()> {
    let (least, usual) = bounds(calls.alloc.inner(), asked, found)?;
    let most = match most {
        "" => usual,
        most => number_of(most)?,
    };
    if questions < least as u128 || questions > most as u128 {
        write!(
            calls.words,
            ", with {questions} questions, not {least} to {most}"
        )?;
    }
    Ok(())
}

/// Whether every other call of a pattern gives this answer, too.
fn is_answer<M: Memory>(pattern: &Pattern<M>, asked: Asked<'_>, answer: bool) -> io::Result<bool> {
    let ((_, text, options), path) = (asked, Path::new(asked.1));
    let is_usual = options == MatchOptions::new();
    Ok(
        pattern.matches_with(text, options)? == answer
            && pattern.matches_path_with(path, options)? == answer
            && (!is_usual || pattern.matches(text)? == answer)
            && (!is_usual || pattern.matches_path(path)? == answer),
    )
}

/// The fewest and the most questions. If the pattern has only literals, `?` and `*`, both are the exact count.
/// Otherwise a match takes at least as many as there are characters, and at most tokens times characters.
fn bounds(alloc: Global, asked: Asked<'_>, found: (bool, usize)) -> io::Result<(usize, usize)> {
    let ((pattern, text, options), (is_match, tokens)) = (asked, found);
    if options == MatchOptions::new() && !pattern.contains('[') && !pattern.contains("**") {
        let count = questions(alloc, pattern, text)?;
        return Ok((count, count));
    }
    let characters = text.chars().count();
    let least = if is_match { characters } else { 0 };
    Ok((least, tokens.saturating_mul(characters)))
}

/// How many questions decide whether a pattern of literals, `?` and `*` matches a text: each token is asked about a
/// character if the tokens before it (for `*`, also together with it) can have taken all characters before that one.
fn questions(alloc: Global, pattern: &str, text: &str) -> Result<usize, AllocError> {
    // For each number of leading characters: whether the tokens so far can have taken them.
    let mut reached = Vec::new(alloc);
    reached.push(true)?;
    for _ in text.chars() {
        reached.push(false)?;
    }
    let mut count = 0usize;
    for token in pattern.chars() {
        count = count.saturating_add(step(&mut reached, token, text));
    }
    Ok(count)
}

/// Moves on by a token, and returns how many characters it is asked about.
fn step(reached: &mut [bool], token: char, text: &str) -> usize {
    let (mut count, mut before) = (0usize, false);
    for (reaches, character) in reached.iter_mut().zip("\0".chars().chain(text.chars())) {
        count = count.saturating_add(usize::from(before));
        let is_asked = *reaches || before && token == '*';
        *reaches = match token {
            '*' => is_asked,
            '?' => before,
            _ => before && character == token,
        };
        before = is_asked;
    }
    count
}

/// The pattern of a text, parsed by another call than `new`.
fn read_again<M: Memory>(alloc: M, text: &str) -> io::Result<Pattern<M>> {
    if text.is_empty() {
        return Ok(Pattern::default(alloc));
    }
    Pattern::from_str(alloc, text).map_err(refused)
}
