//! Times sets of patterns: the commands `set` and `make` of `main.rt`.

use crate::words::{lines_of, number_of, options_of, unusable, write_count};
use glob_set::PatternSet;
use std::alloc::{AllocError, Global};
use std::time::Instant;
use std::{fs, io};

/// What is asked of a set about a line.
#[derive(Clone, Copy)]
enum Question {
    /// Whether any pattern matches.
    Any,
    /// The first pattern that matches.
    First,
    /// The last pattern that matches.
    Last,
    /// All patterns that match.
    All,
}

/// The question with this name.
fn question_of(word: &str) -> io::Result<Question> {
    match word {
        "any" => Ok(Question::Any),
        "first" => Ok(Question::First),
        "last" => Ok(Question::Last),
        "all" => Ok(Question::All),
        _ => Err(unusable()),
    }
}

/// The set of the patterns that are the lines of a text.
fn set_of(alloc: Global, text: &str, letters: &str) -> io::Result<PatternSet> {
    let lines = lines_of(alloc, text)?;
    PatternSet::from_texts(alloc, lines.as_slice(), options_of(letters)?).map_err(|_| unusable())
}

/// The set of the patterns that are the lines of a file.
fn read_set(rt: &HostRuntime, file: &str, letters: &str) -> io::Result<PatternSet> {
    let text = fs::read_to_string(rt, file)?;
    set_of(rt.alloc(), text.as_str(), letters)
}

/// Makes a set of the lines of a file `times` times.
pub fn make_sets(rt: &HostRuntime, words: &[&str]) -> io::Result<()> {
    let [letters, file, times] = words else {
        return Err(unusable());
    };
    let times = number_of(times)?;
    let text = fs::read_to_string(rt, file)?;
    let start = Instant::now(rt)?;
    let count = count_patterns(rt.alloc(), text.as_str(), letters, times)?;
    write_count(rt, count, start)
}

/// How many patterns the sets of `times` rounds have in all.
fn count_patterns(alloc: Global, text: &str, letters: &str, times: u64) -> io::Result<u64> {
    let mut count = 0u64;
    for _ in 0..times {
        let set = set_of(alloc, text, letters)?;
        count = count.saturating_add(set.len() as u64);
    }
    Ok(count)
}

/// Asks a set about the lines of a file `times` times.
pub fn ask_set(rt: &HostRuntime, words: &[&str]) -> io::Result<()> {
    let [letters, patterns, question, file, times] = words else {
        return Err(unusable());
    };
    let question = question_of(question)?;
    let times = number_of(times)?;
    let set = read_set(rt, patterns, letters)?;
    let text = fs::read_to_string(rt, file)?;
    ask_lines(rt, &set, question, text.as_str(), times)
}

/// Asks a set about the lines of a text `times` times.
fn ask_lines(
    rt: &HostRuntime,
    set: &PatternSet,
    question: Question,
    text: &str,
    times: u64,
) -> io::Result<()> {
    let lines = lines_of(rt.alloc(), text)?;
    let start = Instant::now(rt)?;
    let sum = sum_answers(rt.alloc(), set, question, lines.as_slice(), times)?;
    write_count(rt, sum, start)
}

/// The sum of the answers for the lines, over `times` rounds.
fn sum_answers(
    alloc: Global,
    set: &PatternSet,
    question: Question,
    lines: &[&str],
    times: u64,
) -> Result<u64, AllocError> {
    let mut sum = 0u64;
    for _ in 0..times {
        sum = sum.wrapping_add(sum_once(alloc, set, question, lines)?);
    }
    Ok(sum)
}

/// The sum of the answers for the lines.
fn sum_once(
    alloc: Global,
    set: &PatternSet,
    question: Question,
    lines: &[&str],
) -> Result<u64, AllocError> {
    match question {
        Question::Any => sum_any(set, lines),
        Question::First => sum_first(set, lines),
        Question::Last => sum_last(set, lines),
        Question::All => sum_all(alloc, set, lines),
    }
}

/// The sum plus the number of a pattern, counted from 1.
fn with_number(sum: u64, number: usize) -> u64 {
    sum.wrapping_add(number as u64).wrapping_add(1)
}

/// How many lines any pattern matches.
fn sum_any(set: &PatternSet, lines: &[&str]) -> Result<u64, AllocError> {
    let mut sum = 0u64;
    for line in lines {
        sum = sum.wrapping_add(u64::from(set.is_match(line)?));
    }
    Ok(sum)
}

/// The sum of the numbers of the first patterns that match the lines.
fn sum_first(set: &PatternSet, lines: &[&str]) -> Result<u64, AllocError> {
    let mut sum = 0;
    for line in lines {
        if let Some(number) = set.first_match(line)? {
            sum = with_number(sum, number);
        }
    }
    Ok(sum)
}

/// The sum of the numbers of the last patterns that match the lines.
fn sum_last(set: &PatternSet, lines: &[&str]) -> Result<u64, AllocError> {
    let mut sum = 0;
    for line in lines {
        if let Some(number) = set.last_match(line)? {
            sum = with_number(sum, number);
        }
    }
    Ok(sum)
}

/// The sum of the numbers of all patterns that match the lines.
fn sum_all(alloc: Global, set: &PatternSet, lines: &[&str]) -> Result<u64, AllocError> {
    let mut numbers = Vec::new(alloc);
    let mut sum = 0;
    for line in lines {
        set.matches_into(line, &mut numbers)?;
        for number in &numbers {
            sum = with_number(sum, *number);
        }
    }
    Ok(sum)
}
