//! Words of a search that name directories, which other tools search.
use crate::find::kinds::{PathKind, PathKinds};
use crate::find::leads::place_at;
use crate::options::Options;
use crate::quoting::ShellWord;
use crate::visible::Visible;
use glob_console::ErrorLines;
use std::alloc::Allocator;
use std::cell::Cell;
use std::fmt::{self, Display};
use std::io::Write;

/// How many words at either end of the command line are looked up.
const MOST_WORDS: usize = 16;

/// The patterns at the start and at the end that name directories, and whether a search found anything else. There are
/// none if all patterns do, as they are then listed on purpose.
#[derive(Drop)]
pub struct DirectoryWords<'p, 'v> {
    patterns: &'v [&'p str],
    /// How many patterns at the start name directories.
    before: usize,
    /// How many at the end do.
    after: usize,
    has_others: Cell<bool>,
}

impl<'p, 'v> DirectoryWords<'p, 'v> {
    /// The directory words among these patterns, looked up from the directory of the options on.
    pub fn new<A: Allocator + Copy, F: PathKinds>(
        alloc: A,
        files: &F,
        options: &Options<'_, A>,
        patterns: &'v [&'p str],
    ) -> Self {
        let before = run_at_start(alloc, files, options, patterns);
        let after = run_at_end(alloc, files, options, patterns);
        let is_all = patterns.len() <= before.saturating_add(after);
        DirectoryWords {
            patterns,
            before: if is_all { 0 } else { before },
            after: if is_all { 0 } else { after },
            has_others: Cell::new(false),
        }
    }

    /// Those at the start.
    fn first(&self) -> &'v [&'p str] {
        self.patterns.get(..self.before).unwrap_or(&[])
    }

    /// Those at the end.
    fn last(&self) -> &'v [&'p str] {
        let start = self.patterns.len().saturating_sub(self.after);
        self.patterns.get(start..).unwrap_or(&[])
    }

    /// Notes a found path, given by the lead of its patterns and what comes after that.
    pub fn note_found(&self, lead: &str, path: &str) {
        if !self.has_others.get() && !self.has_word(lead, path) {
            self.has_others.set(true);
        }
    }

    /// Whether one of the words is the path after the lead.
    fn has_word(&self, lead: &str, path: &str) -> bool {
        is_among(self.first(), lead, path) || is_among(self.last(), lead, path)
    }

    /// Writes a line for each of the words, if nothing else was found. Words at the start count only if something was
    /// found.
    pub fn report<A: Allocator + Copy, E: Write>(
        &self,
        is_found: bool,
        errors: &mut ErrorLines<'_, A, E>,
    ) {
        if self.has_others.get() {
            return;
        }
        if is_found {
            write_lines(self.first(), errors);
        }
        write_lines(self.last(), errors);
    }
}

/// Whether one of the words is the path after the lead.
fn is_among(words: &[&str], lead: &str, path: &str) -> bool {
    for word in words {
        if word.strip_prefix(lead) == Some(path) {
            return true;
        }
    }
    false
}

/// How many of the first patterns name directories.
fn run_at_start<A: Allocator + Copy, F: PathKinds>(
    alloc: A,
    files: &F,
    options: &Options<'_, A>,
    patterns: &[&str],
) -> usize {
    let mut count = 0usize;
    for pattern in patterns.iter().take(MOST_WORDS) {
        if !names_directory(alloc, files, options, pattern) {
            break;
        }
        count = count.saturating_add(1);
    }
    count
}

/// How many of the last patterns name directories.
fn run_at_end<A: Allocator + Copy, F: PathKinds>(
    alloc: A,
    files: &F,
    options: &Options<'_, A>,
    patterns: &[&str],
) -> usize {
    let mut count = 0usize;
    for pattern in patterns.iter().rev().take(MOST_WORDS) {
        if !names_directory(alloc, files, options, pattern) {
            break;
        }
        count = count.saturating_add(1);
    }
    count
}

/// Whether a pattern without wildcards is a directory.
fn names_directory<A: Allocator + Copy, F: PathKinds>(
    alloc: A,
    files: &F,
    options: &Options<'_, A>,
    pattern: &str,
) -> bool {
    if pattern.contains(['*', '?', '['].as_slice()) {
        return false;
    }
    let Ok(path) = place_at(alloc, options.directory, pattern) else {
        return false;
    };
    let kind = files.kind(alloc, options.settings.follows, "", path.as_str());
    kind.is_ok_and(|kind| kind == PathKind::Directory)
}

/// Writes a line for each of the words.
fn write_lines<A: Allocator + Copy, E: Write>(words: &[&str], errors: &mut ErrorLines<'_, A, E>) {
    for word in words {
        errors.write(&DirectoryLine { word });
    }
}

/// The line about a word that is a directory.
#[derive(Clone, Copy)]
struct DirectoryLine<'a> {
    word: &'a str,
}

impl Display for DirectoryLine<'_> {
    fn fmt<W: fmt::Write>(&self, f: &mut fmt::Formatter<W>) -> fmt::Result {
        let typed = ShellWord { text: self.word };
        let word = Visible { text: self.word };
        write!(
            f,
            "`{word}` is a directory, but was read as a pattern: use -C {typed} to search it"
        )
    }
}
