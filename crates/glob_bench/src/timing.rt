//! Times matching, parsing and walks.

use crate::chain::Chain;
use crate::words::{
    lines_of, number_of, options_of, pattern_text, read_pattern, unusable, write_count,
};
use glob::{MatchOptions, Pattern, glob_in};
use std::alloc::{AllocError, Global};
use std::time::Instant;
use std::{fs, io};

/// Matches the lines of a file `times` times.
pub fn match_file(rt: &HostRuntime, words: &[&str]) -> io::Result<()> {
    let [letters, pattern, file, times] = words else {
        return Err(unusable());
    };
    let times = number_of(times)?;
    let pattern = read_pattern(rt, pattern)?;
    let text = fs::read_to_string(rt, file)?;
    match_lines(rt, &pattern, options_of(letters)?, text.as_str(), times)
}

/// Matches the lines of a text `times` times.
fn match_lines(
    rt: &HostRuntime,
    pattern: &Pattern,
    options: MatchOptions,
    text: &str,
    times: u64,
) -> io::Result<()> {
    let lines = lines_of(rt.alloc(), text)?;
    let start = Instant::now(rt)?;
    let count = count_matches(pattern, options, lines.as_slice(), times)?;
    write_count(rt, count, start)
}

/// How many lines the pattern matches, summed over `times` rounds.
#[inline(never)]
pub fn count_matches(
    pattern: &Pattern,
    options: MatchOptions,
    lines: &[&str],
    times: u64,
) -> Result<u64, AllocError> {
    let mut count = 0u64;
    for _ in 0..times {
        for line in lines {
            if pattern.matches_with(line, options)? {
                count = count.saturating_add(1);
            }
        }
    }
    Ok(count)
}

/// Parses a pattern `times` times.
pub fn compile_pattern(rt: &HostRuntime, words: &[&str]) -> io::Result<()> {
    let [pattern, times] = words else {
        return Err(unusable());
    };
    let times = number_of(times)?;
    let text = pattern_text(rt, pattern)?;
    let start = Instant::now(rt)?;
    let count = count_bytes(rt.alloc(), text.as_str(), times)?;
    write_count(rt, count, start)
}

/// How many bytes of patterns are parsed in `times` rounds.
fn count_bytes(alloc: Global, text: &str, times: u64) -> io::Result<u64> {
    let mut count = 0u64;
    for _ in 0..times {
        let pattern = Pattern::new(alloc, text).map_err(|_| unusable())?;
        count = count.saturating_add(pattern.as_str().len() as u64);
    }
    Ok(count)
}

/// Walks over `levels` nested directories `times` times.
pub fn walk_levels(rt: &HostRuntime, words: &[&str]) -> io::Result<()> {
    let [pattern, levels, times] = words else {
        return Err(unusable());
    };
    let levels = number_of(levels)?;
    let times = number_of(times)?;
    let text = pattern_text(rt, pattern)?;
    let start = Instant::now(rt)?;
    let count = count_items(rt.alloc(), text.as_str(), levels, times)?;
    write_count(rt, count, start)
}

/// How many items `times` walks over `levels` nested directories give.
fn count_items(alloc: Global, pattern: &str, levels: u64, times: u64) -> io::Result<u64> {
    let mut count = 0u64;
    for _ in 0..times {
        let items = count_walk(alloc, pattern, levels)?;
        count = count.saturating_add(items);
    }
    Ok(count)
}

/// How many items a walk over `levels` nested directories gives.
fn count_walk(alloc: Global, pattern: &str, levels: u64) -> io::Result<u64> {
    let tree = Chain::new(alloc, levels as usize);
    let paths = glob_in(alloc, tree, pattern, MatchOptions::new(), u64::MAX).map_err(
        |_| unusable(),
    )?;
    let mut count = 0u64;
    for _ in paths {
        count = count.saturating_add(1);
    }
    Ok(count)
}
