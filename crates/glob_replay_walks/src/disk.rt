//! Walks on the disk. The content is made in a folder below the current directory. So the folder's escaped path and `/`
//! go before the pattern, and the folder's path and `/` before each path.

use crate::walking::{Job, taken};
use crate::walks::{Expected, compare_walk};
use glob::{MatchOptions, Pattern, glob, glob_with};
use glob_replay::contents::{is_directory, name_of};
use glob_replay::ration::Memory;
use glob_replay::report::Report;
use glob_replay::settings::Settings;
use glob_replay::words::refused;
use std::{env, fs, io};

/// The name of the folder.
const FOLDER: &str = "content_of_walks";

/// Removes the folder, if it exists.
pub fn remove(rt: &HostRuntime) -> io::Result<()> {
    if fs::exists(rt, FOLDER)? {
        fs::remove_dir_all(rt, FOLDER)?;
    }
    Ok(())
}

/// Makes the content in the folder, and replaces what was there.
fn make(rt: &HostRuntime, settings: &Settings) -> io::Result<()> {
    remove(rt)?;
    fs::create_dir(rt, FOLDER)?;
    let (content, more) = (settings.get("content"), settings.get("more"));
    for word in content.split_whitespace().chain(more.split_whitespace()) {
        let path = format!(in rt.alloc(); "{FOLDER}/{}", name_of(word))?;
        if is_directory(word) {
            fs::create_dir(rt, path.as_str())?;
        } else {
            fs::write(rt, path.as_str(), "")?;
        }
    }
    Ok(())
}

/// Replays a walk below the folder. Each name in the folder's path costs one more lookup, unless it is escaped.
pub fn replay<M: Memory>(
    report: &Report<M>,
    job: Job<'_>,
    (_, items, units): Expected<'_>,
) -> io::Result<()> {
    let (rt, alloc) = (report.rt, report.alloc());
    make(&rt, &report.settings)?;
    let current = env::current_dir(&rt)?;
    let folder = format!(in alloc; "{}/{FOLDER}/", current.as_path().as_str())?;
    let front = Pattern::escape(alloc, folder.as_str())?;
    let pattern = format!(in alloc; "{front}{}", job.pattern)?;
    let looks = folder.matches('/').count().saturating_sub(1);
    let units = units.filter(|_| front.as_str() == folder.as_str());
    let units = units.map(|units| units.saturating_add(looks));
    let job = Job {
        pattern: pattern.as_str(),
        ..job
    };
    replay_whole(report, job, (folder.as_str(), items, units))
}

/// Replays a walk over the disk with `glob_with` and, under the usual options, also with `glob`.
fn replay_whole<M: Memory>(
    report: &Report<M>,
    job: Job<'_>,
    expected: Expected<'_>,
) -> io::Result<()> {
    let (rt, memory, pattern) = (report.rt, report.memory, job.pattern);
    let paths = glob_with(rt, memory, pattern, job.options).map_err(refused)?;
    compare_walk(report, pattern, &taken(memory, paths)?, expected)?;
    if job.options != MatchOptions::new() {
        return Ok(());
    }
    let paths = glob(rt, memory, pattern).map_err(refused)?;
    compare_walk(report, pattern, &taken(memory, paths)?, expected)
}
