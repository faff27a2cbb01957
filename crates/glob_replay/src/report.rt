//! Replays tables.
//!
//! The head of each file says how to read its lines. A table begins with a line `= NAME`. For each table this prints
//! the cases that disagree, then the table's name, how many cases were compared, and how many disagree.

use crate::counts::raise;
use crate::ration::Memory;
use crate::settings::Settings;
use crate::words::cut;
use glob_tree::MemTree;
use std::alloc::Global;
use std::cell::Cell;
use std::{fs, io};

/// The rows of all files.
pub trait Rows {
    /// Replays a row of a file: a question, and the expected answer.
    fn replay<M: Memory>(
        &self,
        report: &mut Report<M>,
        file: &str,
        asked: &str,
        answer: &str,
    ) -> io::Result<()>;
}

/// What the lines before a row have set, how many cases of its table were compared, and how many disagree.
#[derive(Drop)]
pub struct Report<M: Memory> {
    pub rt: HostRuntime,
    pub memory: M,
    pub settings: Settings,
    pub tree: MemTree<M>,
    cases: Cell<u64>,
    disagree: Cell<u64>,
}

impl<M: Memory> Report<M> {
    /// Memory for what is compared.
    pub fn alloc(&self) -> Global {
        self.memory.inner()
    }

    /// Counts a case, and prints it if the answer is not the expected one.
    pub fn compare(&self, case: &str, wanted: &str, found: &str) -> io::Result<()> {
        raise(&self.cases, 1);
        if wanted == found {
            return Ok(());
        }
        raise(&self.disagree, 1);
        println!(self.rt; "  {case} => {wanted}\n    found: {found}")
    }
}

/// Replays the files with these names, which are separated by spaces, with this memory, and prints the results of each
/// table. Returns whether a case disagrees.
pub fn replay_files<M: Memory, R: Rows>(
    rt: HostRuntime,
    memory: M,
    rows: &R,
    files: &str,
) -> io::Result<bool> {
    let mut has_failed = false;
    for file in files.split_whitespace() {
        let mut report = Report {
            rt,
            memory,
            settings: Settings::new(rt.alloc()),
            tree: MemTree::new(memory)?,
            cases: Cell::new(0),
            disagree: Cell::new(0),
        };
        has_failed = replay_file(rows, &mut report, file)? || has_failed;
    }
    Ok(has_failed)
}

/// Replays the tables of a file, and returns whether a case disagrees. In a file of words, a line that begins with a
/// space continues the one before.
fn replay_file<M: Memory, R: Rows>(
    rows: &R,
    report: &mut Report<M>,
    file: &str,
) -> io::Result<bool> {
    let mut text = fs::read_to_string(&report.rt, file)?;
    if file.ends_with(".txt") {
        text = text.replace(report.alloc(), "\n ", " ")?;
    }
    let mut has_failed = false;
    for table in text.split("\n= ").skip(1) {
        let (name, lines) = cut(table, "\n")?;
        for line in lines.lines().filter(|line| !line.is_empty()) {
            replay_line(rows, report, file, line)?;
        }
        let (cases, disagree) = (report.cases.take(), report.disagree.take());
        println!(report.rt; "{name}: {cases} cases, {disagree} disagree")?;
        has_failed = has_failed || disagree != 0;
    }
    Ok(has_failed)
}

/// Replays a line of a table: a row, or a setting, which also begins a new tree for the rows that change one.
fn replay_line<M: Memory, R: Rows>(
    rows: &R,
    report: &mut Report<M>,
    file: &str,
    line: &str,
) -> io::Result<()> {
    let sign = if file.ends_with(".tsv") { "\t" } else { " =>" };
    match line.split_once(sign) {
        Some((asked, answer)) => rows.replay(report, file, asked, answer),
        None => {
            report.tree = MemTree::new(report.memory)?;
            report.settings.set(line)
        }
    }
}
