//! Which crate replays a row, and which crate answers a case.

use glob_replay::calls::{Calls, Make};
use glob_replay::cases::answer_lines;
use glob_replay::ration::Memory;
use glob_replay::report::{Report, Rows, replay_files};
use glob_replay_matches::Matches;
use glob_replay_matches::cases::MatchCases;
use glob_replay_memory::rationing::Rationed;
use glob_replay_memory::{matches, replay_row};
use glob_replay_programs::Programs;
use glob_replay_searches::Searches;
use glob_replay_walks::cases::add_walk;
use glob_replay_walks::{Walks, disk, trees, walks};
use std::io;

/// The files. `data/README.md` says where each comes from.
const FILES: &str =
    "faults.tsv parse.tsv escape.tsv braces.tsv plain.tsv match.tsv words.tsv matches.txt judges.txt trees.txt \
    calls.txt walks.txt";

/// All rows.
#[derive(Clone, Copy)]
struct All;

/// All cases.
#[derive(Clone, Copy)]
struct Cases {
    rt: HostRuntime,
}

/// Replays all files, and prints the results of each table. It is an error if a case disagrees.
pub fn replay(rt: HostRuntime) -> io::Result<()> {
    let memory = Rationed::ample(rt.alloc());
    let has_failed = replay_files(rt, &memory, &All, FILES)?;
    disk::remove(&rt)?;
    if has_failed {
        return Err(io::Error::other("cases disagree"));
    }
    Ok(())
}

/// Answers the cases of standard input.
pub fn answer(rt: HostRuntime) -> io::Result<()> {
    let memory = Rationed::ample(rt.alloc());
    answer_lines(rt, &memory, &Cases { rt })
}

impl Rows for All {
    fn replay<M: Memory>(
        &self,
        report: &mut Report<M>,
        file: &str,
        asked: &str,
        answer: &str,
    ) -> io::Result<()> {
        match file {
            "match.tsv" | "words.tsv" => matches::replay_fields(self, report, asked, answer),
            "matches.txt" => matches::replay(self, report, asked, answer.trim_start()),
            "trees.txt" => trees::replay(report, asked, answer.trim_start()),
            "walks.txt" => walks::replay(report, asked, answer),
            _ => replay_row(self, report, file, asked, answer),
        }
    }
}

impl Make for All {
    fn make<M: Memory>(&self, calls: &mut Calls<M>, row: &[&str]) -> io::Result<()> {
        match row {
            ["list kinds", ..] => {
                Programs.make(calls, row)?;
                Walks.make(calls, row)
            }
            ["copy" | "write" | "write whole", ..] => Programs.make(calls, row),
            ["search at random", ..] => Searches.make(calls, row),
            [
                "plain.tsv" | "change a tree" | "walk" | "walk far" | "walk to an error",
                ..
            ] => { Walks.make(calls, row) }
            [
                "ask disks" | "ask failing disks" | "ask disks in memory" | "ask a large directory",
                ..
            ] => { Walks.make(calls, row) }
            _ => Matches.make(calls, row),
        }
    }
}

impl Make for Cases {
    fn make<M: Memory>(&self, calls: &mut Calls<M>, fields: &[&str]) -> io::Result<()> {
        match fields {
            ["walk", fields @ ..] => add_walk(calls, self.rt, fields),
            _ => MatchCases.make(calls, fields),
        }
    }
}
