//! What words of cases and of tables stand for.

use glob_pattern::{MatchOptions, Pattern, PatternRefusal};
use std::alloc::{AllocError, Allocator, Global};
use std::io::{self, ErrorKind, Write};

/// The error for commands, lines or files that have no answer.
pub fn unusable() -> io::Error {
    io::Error::other(
        "not what a command or a table takes: see the heads of src/main.rt and of the files in data",
    )
}

/// The error for memory that ran out.
pub fn out_of_memory() -> io::Error {
    io::Error::from(ErrorKind::OutOfMemory)
}

/// The error for a text that is not a pattern, or for memory that ran out.
pub fn refused(refusal: PatternRefusal) -> io::Error {
    match refusal {
        PatternRefusal::Syntax(_) => unusable(),
        PatternRefusal::Memory => out_of_memory(),
    }
}

/// The texts before and after the first `sign`.
pub fn cut<'a>(text: &'a str, sign: &str) -> io::Result<(&'a str, &'a str)> {
    text.split_once(sign).ok_or(unusable())
}

/// The options whose letters come after a dash, or alone.
pub fn options_of(setting: &str) -> io::Result<MatchOptions> {
    MatchOptions::from_letters(setting.trim_start_matches('-')).ok_or(unusable())
}

/// The pattern with this text.
pub fn pattern_of<A: Allocator + Copy>(alloc: A, text: &str) -> io::Result<Pattern<A>> {
    Pattern::new(alloc, text).map_err(refused)
}

/// Adds the front, the place of a pattern's fault, a tab, and the fault's message.
pub fn add_fault(refusal: PatternRefusal, front: &str, words: &mut String) -> io::Result<()> {
    match refusal {
        PatternRefusal::Syntax(error) => Ok(write!(words, "{front}{}\t{}", error.pos, error.msg)?),
        PatternRefusal::Memory => Err(out_of_memory()),
    }
}

/// The number that a word stands for.
pub fn number_of(word: &str) -> io::Result<usize> {
    word.parse::<usize>().map_err(|_| unusable())
}

/// Whether both errors have the same kind, the same code of the system and the same text.
pub fn are_same(alloc: Global, one: &io::Error, other: &io::Error) -> Result<bool, AllocError> {
    let (words, other_words) = (format!(in alloc; "{one}")?, format!(in alloc; "{other}")?);
    let is_kind = one.kind() == other.kind() && one.raw_os_error() == other.raw_os_error();
    Ok(is_kind && words == other_words)
}

/// The text that a word stands for: `''` is the empty text, `<3:a/>b` is `a/a/a/b`, `<3:f№ >` is `f0 f1 f2 `, `⏎` a
/// line feed, `␍` a carriage return, and `␀` a NUL.
pub fn text_of(alloc: Global, word: &str) -> io::Result<String> {
    if word == "''" {
        return Ok(String::new(alloc));
    }
    let mut text = String::from_str(alloc, word.split('<').next().unwrap_or(""))?;
    for part in word.split('<').skip(1) {
        let (times, rest) = cut(part, ":")?;
        let (repeated, after) = cut(rest, ">")?;
        text.push_str(&copies_of(alloc, repeated, number_of(times)?)?)?;
        text.push_str(after)?;
    }
    let text = text.replace(alloc, "⏎", "\n")?.replace(alloc, "␍", "\r")?;
    Ok(text.replace(alloc, "␀", "\0")?)
}

/// `times` copies of a text, each with its number, from 0 on, in place of `№`.
fn copies_of(alloc: Global, text: &str, times: usize) -> Result<String, AllocError> {
    if !text.contains('№') {
        return text.repeat(alloc, times);
    }
    let mut copies = String::new(alloc);
    for number in 0..times {
        let digits = format!(in alloc; "{number}")?;
        copies.push_str(&text.replace(alloc, "№", &digits)?)?;
    }
    Ok(copies)
}

/// Items in which each tab, and the `=` after it before a path, is replaced by a blank.
pub fn in_words(items: &String) -> Result<String, AllocError> {
    let alloc = *items.allocator();
    items.replace(alloc, "\t=", " ")?.replace(alloc, "\t", " ")
}

/// Whether a text is one of the words.
pub fn has_word(words: &str, text: &str) -> bool {
    words.split_whitespace().any(|word| word == text)
}
