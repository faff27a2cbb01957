//! Compares the walk of a plain pattern with the paths of the content that the whole pattern matches, under both
//! settings of each rule: as sets and, for patterns that promise it, in order.

use crate::walking::{Found, Job, gathered};
use glob::{MatchOptions, is_plain};
use glob_replay::Counts;
use glob_replay::contents::{is_directory, name_of};
use glob_replay::ration::Memory;
use glob_replay::report::Report;
use glob_replay::settings::Settings;
use glob_replay::words::{options_of, pattern_of};
use std::alloc::{AllocError, Global};
use std::io;

/// Compares a walk under each setting, if its pattern is plain and case and limit are as usual.
pub fn replay<M: Memory>(report: &Report<M>, job: Job<'_>) -> io::Result<()> {
    let (alloc, settings) = (report.alloc(), &report.settings);
    let is_content = settings.get("tree").is_empty();
    let is_usual = is_content && job.limit == u64::MAX && job.options.case_sensitive;
    if !is_usual || !matches!(is_plain(alloc, job.pattern), Ok(true)) {
        return Ok(());
    }
    for setting in ["-", "-d", "-s", "-sd"] {
        let options = options_of(setting)?;
        let job = Job { options, ..job };
        let goals = goals_of(alloc, settings, job)?;
        let counts = Counts::default();
        let tree = settings.tree(report.memory, &counts)?;
        let walk = gathered(report.memory, tree, &counts, job)?;
        let is_right = are_goals(&walk, &goals) && is_orderly(alloc, job.pattern, &walk)?;
        if is_right {
            report.compare(job.pattern, "goals", "goals")?;
        } else {
            report.compare(job.pattern, "goals", &walk.items)?;
        }
    }
    Ok(())
}

/// The paths of a content that the whole pattern matches: only those of directories if it ends in `/` or `**`.
fn goals_of(alloc: Global, settings: &Settings, job: Job<'_>) -> io::Result<Vec<String>> {
    let whole = pattern_of(alloc, job.pattern.strip_suffix('/').unwrap_or(job.pattern))?;
    let are_directories = job.pattern.ends_with('/') || job.pattern.ends_with("**");
    let is_absolute = job.pattern.starts_with('/');
    let root = if is_absolute { "/" } else { "" };
    let options = MatchOptions {
        require_literal_separator: true,
        ..job.options
    };
    let mut goals = Vec::new(alloc);
    for word in settings.content()?.split_whitespace() {
        let path = format!(in alloc; "{root}{}", name_of(word))?;
        if (is_directory(word) || !are_directories) && whole.matches_with(&path, options)? {
            goals.push(path)?;
        }
    }
    Ok(goals)
}

/// Whether each path of a walk is a goal, and each goal is among the paths or below a directory that could not be
/// listed.
fn are_goals(walk: &Found, goals: &[String]) -> bool {
    walk.paths.iter().all(|path| goals.contains(path))
        && goals.iter().all(|goal| walk.paths.contains(goal) || is_lost(goal, &walk.lost))
}

/// Whether a path is below one of the directories.
fn is_lost(path: &str, lost: &[String]) -> bool {
    lost.iter().any(|directory| {
        let rest = path.strip_prefix(directory.as_str());
        rest.is_some_and(|rest| rest.starts_with('/'))
    })
}

/// Whether each path of a walk comes once if the pattern has `**` in at most one place, and the paths ascend as lists
/// of names if also at most one component follows it. Errors are left out.
fn is_orderly(alloc: Global, pattern: &str, walk: &Found) -> Result<bool, AllocError> {
    let (_, rest) = pattern.split_once("**").unwrap_or(("", ""));
    let rest = rest.trim_start_matches("/**").trim_end_matches('/');
    if rest.contains("**") || !walk.lost.is_empty() {
        return Ok(true);
    }
    if rest.matches('/').count() > 1 {
        let mut paths = walk.paths.iter();
        return Ok(paths.all(|path| walk.paths.iter().filter(|other| *other == path).count() == 1));
    }
    // Lists of names are compared as texts with a NUL between the names.
    let mut before = String::new(alloc);
    for path in walk.paths.iter() {
        let names = format!(in alloc; "\0{}", path.replace(alloc, "/", "\0")?)?;
        if before >= names {
            return Ok(false);
        }
        before = names;
    }
    Ok(true)
}
