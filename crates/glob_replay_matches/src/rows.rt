//! Calls of rows about patterns, matches, sets, ignore lists and captures.

use crate::cases::{add_captures, add_set};
use crate::{judges, matches};
use glob_pattern::{Pattern, PatternRefusal};
use glob_replay::calls::{Calls, Make};
use glob_replay::ration::Memory;
use glob_replay::words::{out_of_memory, pattern_of, unusable};
use glob_rules::IgnoreList;
use glob_set::braces::{BraceRefusal, expand};
use std::io::{self, Write};

/// Patterns, matches, sets, ignore lists and captures. The first word of a row names its file or its calls, and the
/// others are its fields.
#[derive(Clone, Copy)]
pub struct Matches;

impl Make for Matches {
    fn make<M: Memory>(&self, calls: &mut Calls<M>, row: &[&str]) -> io::Result<()> {
        match row {
            ["faults.tsv" | "parse.tsv", text] => parse(calls, text),
            ["escape.tsv", text] => escape(calls, text),
            ["braces.tsv", text] => add_alternatives(calls, text),
            ["matches.txt", fields @ ..] => matches::add_match(calls, fields),
            ["judges.txt", fields @ ..] => judges::split(calls, fields),
            ["read", text] => read(calls, text),
            ["match", pattern, text] => add_answer(calls, pattern, text),
            ["ask a set" | "ask a set of braces", ..] => add_set(calls, row),
            ["capture", fields @ ..] => add_captures(calls, fields),
            ["ask an ignore list", lines, paths] => ask_list(calls, lines, paths),
            _ => Err(unusable()),
        }
    }
}

/// Adds the result of parsing a text: `ok`, or the place of its fault and its message, which must belong to the fault's
/// kind.
fn parse<M: Memory>(calls: &mut Calls<M>, text: &str) -> io::Result<()> {
    match Pattern::new(calls.alloc, text) {
        Ok(pattern) if pattern.as_str() == text => Ok(calls.words.push_str("ok")?),
        Ok(pattern) => Ok(calls.words.push_str(pattern.as_str())?),
        Err(PatternRefusal::Syntax(error)) => {
            let message = error.kind().message();
            write!(calls.words, "{}\t{message}", error.pos)?;
            if error.msg != message {
                calls.words.push_str(" is not its message")?;
            }
            Ok(())
        }
        Err(PatternRefusal::Memory) => Err(out_of_memory()),
    }
}

/// Adds the escaped pattern of a text, which has to match the text.
fn escape<M: Memory>(calls: &mut Calls<M>, text: &str) -> io::Result<()> {
    let found = Pattern::escape(calls.alloc, text)?;
    calls.words.push_str(found.as_str())?;
    if !pattern_of(calls.alloc, found.as_str())?.matches(text)? {
        calls.words.push_str(" does not match")?;
    }
    Ok(())
}

/// Adds the alternatives of a text, each between `<` and `>`, or the fault of its braces.
fn add_alternatives<M: Memory>(calls: &mut Calls<M>, text: &str) -> io::Result<()> {
    match expand(calls.alloc, text) {
        Ok(alternatives) => {
            for alternative in alternatives.iter() {
                write!(calls.words, "<{}>", alternative.as_str())?;
            }
            Ok(())
        }
        Err(BraceRefusal::Memory) => Err(out_of_memory()),
        Err(refusal) => Ok(write!(calls.words, "{refusal}")?),
    }
}

/// Parses a text by each call, copies the pattern, and escapes the text with one request for memory. Adds the text, or
/// the place of its fault, twice, and the escaped text.
fn read<M: Memory>(calls: &mut Calls<M>, text: &str) -> io::Result<()> {
    let (alloc, words) = (calls.alloc, &mut calls.words);
    add_read(Pattern::new(alloc, text), words)?;
    add_read(Pattern::from_str(alloc, text), words)?;
    let asked = alloc.ration().asked();
    words.push_str(Pattern::escape(alloc, text)?.as_str())?;
    if alloc.ration().asked().saturating_sub(asked) > 1 {
        words.push_str(", by more than one request")?;
    }
    Ok(())
}

/// Adds the text of a copy of a parsed pattern, or the place of its fault.
fn add_read<M: Memory>(
    read: Result<Pattern<M>, PatternRefusal>,
    words: &mut String,
) -> io::Result<()> {
    match read {
        Ok(pattern) => Ok(write!(words, "{} ", pattern.clone()?.as_str())?),
        Err(PatternRefusal::Syntax(error)) => Ok(write!(words, "{} ", error.pos)?),
        Err(PatternRefusal::Memory) => Err(out_of_memory()),
    }
}

/// Adds whether a pattern matches a text, by a single call.
fn add_answer<M: Memory>(calls: &mut Calls<M>, pattern: &str, text: &str) -> io::Result<()> {
    let is_match = pattern_of(calls.alloc, pattern)?.matches(text)?;
    Ok(calls.words.push_str(if is_match { "yes" } else { "no" })?)
}

/// Asks the ignore list of these lines about paths; a path that ends in `/` is a directory. Adds whether each is
/// ignored, and the line that decides.
fn ask_list<M: Memory>(calls: &mut Calls<M>, lines: &str, paths: &str) -> io::Result<()> {
    let list = IgnoreList::new(calls.alloc, lines).map_err(|_| out_of_memory())?;
    for path in paths.split(' ') {
        let name = path.trim_end_matches('/');
        let is_directory = name.len() < path.len();
        let is_ignored = list.is_ignored(name, is_directory)?;
        let line = list
            .deciding_rule(name, is_directory)?
            .map(|rule| rule.line);
        write!(calls.words, "{is_ignored} {line:?} ")?;
    }
    Ok(())
}
