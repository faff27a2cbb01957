//! Times captures and matches, in turn.

use crate::timing::count_matches;
use crate::words::{lines_of, number_of, options_of, read_pattern, unusable};
use glob::{MatchOptions, Pattern};
use glob_captures::captures;
use std::alloc::{AllocError, Global};
use std::time::Instant;
use std::{fs, io};

/// The shortest times of all rounds, in nanoseconds, and how many lines the pattern matches.
#[derive(Clone, Copy)]
struct Times {
    count: u64,
    matching: u128,
    capturing: u128,
}

/// Matches the lines of a file, and writes the count and the times.
pub fn compare_captures(rt: &HostRuntime, words: &[&str]) -> io::Result<()> {
    let [letters, pattern, file, rounds] = words else {
        return Err(unusable());
    };
    let rounds = number_of(rounds)?;
    let pattern = read_pattern(rt, pattern)?;
    let text = fs::read_to_string(rt, file)?;
    compare_lines(rt, &pattern, options_of(letters)?, text.as_str(), rounds)
}

/// Matches all lines of a text, then only those that match, and writes the count and the times.
fn compare_lines(
    rt: &HostRuntime,
    pattern: &Pattern,
    options: MatchOptions,
    text: &str,
    rounds: u64,
) -> io::Result<()> {
    let all = lines_of(rt.alloc(), text)?;
    let found = lines_that_match(rt.alloc(), pattern, options, all.as_slice())?;
    write_times(
        rt,
        pattern,
        options,
        all.as_slice(),
        found.as_slice(),
        rounds,
    )
}

/// Writes the count and the times for all lines, and the times for the lines that match.
fn write_times(
    rt: &HostRuntime,
    pattern: &Pattern,
    options: MatchOptions,
    all: &[&str],
    found: &[&str],
    rounds: u64,
) -> io::Result<()> {
    let all = time_captures(rt, pattern, options, all, rounds)?;
    let found = time_captures(rt, pattern, options, found, rounds)?;
    println!(rt;
        "{} {} {} {} {}",
        all.count, all.matching, all.capturing, found.matching, found.capturing
    )
}

/// Times both calls on the lines in turn, in rounds. It is an error if they find different numbers of matches.
fn time_captures(
    rt: &HostRuntime,
    pattern: &Pattern,
    options: MatchOptions,
    lines: &[&str],
    rounds: u64,
) -> io::Result<Times> {
    let mut times = Times {
        count: 0,
        matching: u128::MAX,
        capturing: u128::MAX,
    };
    for _ in 0..rounds {
        let start = Instant::now(rt)?;
        times.count = count_matches(pattern, options, lines, 1)?;
        times.matching = times.matching.min(start.elapsed(rt)?.as_nanos());
        let start = Instant::now(rt)?;
        let captured = count_captures(rt.alloc(), pattern, options, lines)?;
        times.capturing = times.capturing.min(start.elapsed(rt)?.as_nanos());
        if captured != times.count {
            return Err(io::Error::other("captures differ"));
        }
    }
    Ok(times)
}

/// How many of the lines have captures.
#[inline(never)]
fn count_captures(
    alloc: Global,
    pattern: &Pattern,
    options: MatchOptions,
    lines: &[&str],
) -> io::Result<u64> {
    let mut count = 0u64;
    for line in lines {
        let found = captures(alloc, pattern, line, options).map_err(|_| unusable())?;
        if found.is_some() {
            count = count.saturating_add(1);
        }
    }
    Ok(count)
}

/// The lines that the pattern matches.
fn lines_that_match<'a>(
    alloc: Global,
    pattern: &Pattern,
    options: MatchOptions,
    lines: &[&'a str],
) -> Result<Vec<&'a str>, AllocError> {
    let mut found = Vec::new(alloc);
    for line in lines {
        if pattern.matches_with(line, options)? {
            found.push(*line)?;
        }
    }
    Ok(found)
}
