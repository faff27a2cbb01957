//! Parses the words of the command line.

use glob::{MatchOptions, Pattern};
use std::alloc::Global;
use std::time::Instant;
use std::{fs, io};

/// The error for words, lines or files that a command does not accept.
pub fn unusable() -> io::Error {
    io::Error::other("not what a command takes: see the head of src/main.rt")
}

/// The options that the letters of a word stand for: those of `MatchOptions::from_letters`, or `-` for none.
pub fn options_of(letters: &str) -> io::Result<MatchOptions> {
    MatchOptions::from_letters(letters.trim_start_matches('-')).ok_or_else(unusable)
}

/// The number that a word stands for.
pub fn number_of(word: &str) -> io::Result<u64> {
    word.parse::<u64>().map_err(|_| unusable())
}

/// The text of a pattern that a word stands for: the word itself, or the text of a file.
pub fn pattern_text(rt: &HostRuntime, word: &str) -> io::Result<String> {
    match word.strip_prefix('@') {
        Some(file) => fs::read_to_string(rt, file),
        None => Ok(String::from_str(rt.alloc(), word)?),
    }
}

/// The pattern that a word stands for.
pub fn read_pattern(rt: &HostRuntime, word: &str) -> io::Result<Pattern> {
    let text = pattern_text(rt, word)?;
    Pattern::new(rt.alloc(), text.as_str()).map_err(|_| unusable())
}

/// The lines of a text.
pub fn lines_of(alloc: Global, text: &str) -> io::Result<Vec<&str>> {
    Ok(text.lines().collect::<Vec<&str>>(alloc)?)
}

/// Writes a count, and the time since `start` in nanoseconds.
pub fn write_count(rt: &HostRuntime, count: u64, start: Instant) -> io::Result<()> {
    let elapsed = start.elapsed(rt)?;
    rt.println(count)?;
    rt.eprintln(elapsed.as_nanos())
}
