//! Rows about walks: `PATTERNS => ITEMS`, perhaps followed by units of work, as in `PATTERNS => ITEMS ; 13`. Other
//! lines set something for the rows after them.

use crate::walking::{Found, Job, gathered, stepped};
use crate::{disk, goals};
use glob_replay::Counts;
use glob_replay::ration::Memory;
use glob_replay::report::Report;
use glob_replay::words::{in_words, number_of, options_of, text_of};
use std::io::{self, Write};

/// What a row expects: the text before each path, the items, and the units, if it gives them.
pub type Expected<'a> = (&'a str, &'a str, Option<usize>);

/// Replays a row.
pub fn replay<'a, M: Memory>(
    report: &'a Report<M>,
    words: &'a str,
    outcome: &str,
) -> io::Result<()> {
    let (items, units) = match outcome.split_once(" ; ") {
        Some((items, units)) => (items, Some(number_of(units)?)),
        None => (outcome, None),
    };
    let limited = text_of(report.alloc(), report.settings.get("limits of"))?;
    for &(setting, word) in report.settings.cases(words)?.as_slice() {
        let text = text_of(report.alloc(), word)?;
        let (pattern, limit) = match limited.as_str() {
            "" => (text.as_str(), u64::MAX),
            pattern => (pattern, number_of(word)? as u64),
        };
        let job = Job {
            pattern,
            options: options_of(setting)?,
            limit,
        };
        replay_walk(report, job, ("", items, units))?;
    }
    Ok(())
}

/// Replays a walk where the settings say: on the disk, in memory, or both. In memory it also compares the walk with
/// what the whole pattern matches.
fn replay_walk<M: Memory>(
    report: &Report<M>,
    job: Job<'_>,
    expected: Expected<'_>,
) -> io::Result<()> {
    let place = report.settings.get("walked");
    if place.ends_with("on the disk") {
        disk::replay(report, job, expected)?;
    }
    if place == "on the disk" {
        return Ok(());
    }
    replay_in_memory(report, job, expected)?;
    goals::replay(report, job)
}

/// Replays a walk with `next` and with `walk_in`, which give the same, over a tree that counts its questions.
fn replay_in_memory<M: Memory>(
    report: &Report<M>,
    job: Job<'_>,
    expected: Expected<'_>,
) -> io::Result<()> {
    let (memory, settings) = (report.memory, &report.settings);
    let (counts, others) = (Counts::default(), Counts::default());
    let tree = settings.tree(memory, &counts)?;
    let mut found = stepped(memory, tree, &counts, job)?;
    let tree = settings.tree(memory, &others)?;
    let other = gathered(memory, tree, &others, job)?;
    let (items, spent) = (&other.items, other.spent);
    if *items != found.items || spent != found.spent || other.end != found.end {
        write!(found.items, "\tby walk_in {items}\t; {spent}")?;
    }
    compare_walk(report, job.pattern, &found, expected)
}

/// Compares what a walk found with what a row expects.
pub fn compare_walk<M: Memory>(
    report: &Report<M>,
    name: &str,
    found: &Found,
    expected: Expected<'_>,
) -> io::Result<()> {
    let (alloc, (front, items, units)) = (report.alloc(), expected);
    let mut known = String::new(alloc);
    for item in items.split_whitespace() {
        write!(known, " {front}{}", text_of(alloc, item)?)?;
    }
    let mut words = in_words(&found.text()?)?;
    if let Some(units) = units {
        write!(known, " ; {units}")?;
        write!(words, " ; {}", found.spent)?;
    }
    report.compare(name, &known, &words)
}
