//! Times the crate `glob` and the crates above it.
//!
//! These commands print a count, and on standard error the time in nanoseconds. Reading files is not timed.
//!
//! - `match OPTIONS PATTERN FILE TIMES` counts the lines of a file that the pattern matches, TIMES times.
//! - `compile PATTERN TIMES` parses the pattern TIMES times, and counts all bytes parsed.
//! - `walk PATTERN LEVELS TIMES` counts the items of TIMES walks over LEVELS nested directories.
//! - `set OPTIONS PATTERNS QUESTION FILE TIMES` makes a set of the patterns that are the lines of the file PATTERNS,
//!   and matches each line of FILE, TIMES times: `any` counts the lines that a pattern matches; `first`, `last` and
//!   `all` add up the numbers of the matching patterns, counted from 1. Making the set is not timed.
//! - `make OPTIONS PATTERNS TIMES` makes such a set TIMES times, and counts its patterns.
//!
//! This command writes nothing on standard error:
//!
//! - `captures OPTIONS PATTERN FILE ROUNDS` times matches and captures in turn. It prints how many lines of a file the
//!   pattern matches, and the shortest times of all rounds: for matches and captures of all lines, and for both on the
//!   lines that match.
//!
//! OPTIONS is a word of the letters `i` for case-insensitive, `s` for the separator rule and `d` for the dot rule, such
//! as `sd`, or `-` for none. A PATTERN `@FILE` is the text of a file, because arguments cannot be long. If `@FILE` is
//! the only argument, the lines of the file are the arguments.
#![tactic(auto)]

mod captures;
mod chain;
mod sets;
mod timing;
mod words;

use captures::compare_captures;
use glob_console::{arguments, as_strs};
use sets::{ask_set, make_sets};
use std::io;
use timing::{compile_pattern, match_file, walk_levels};
use words::{lines_of, pattern_text, unusable};

/// Runs the command that the first word names.
fn run(rt: &HostRuntime, words: &[&str]) -> io::Result<()> {
    match words {
        ["match", words @ ..] => match_file(rt, words),
        ["compile", words @ ..] => compile_pattern(rt, words),
        ["walk", words @ ..] => walk_levels(rt, words),
        ["set", words @ ..] => ask_set(rt, words),
        ["make", words @ ..] => make_sets(rt, words),
        ["captures", words @ ..] => compare_captures(rt, words),
        _ => Err(unusable()),
    }
}

fn main(rt: HostRuntime) -> io::Result<()> {
    let arguments = arguments(&rt)?;
    let words = as_strs(rt.alloc(), arguments.as_slice())?;
    match words.as_slice() {
        [file] => {
            let text = pattern_text(&rt, file)?;
            run(&rt, lines_of(rt.alloc(), text.as_str())?.as_slice())
        }
        words => run(&rt, words),
    }
}
