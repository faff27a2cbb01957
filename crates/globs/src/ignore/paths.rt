//! The paths in the records of the input.
ghost use Rattle.std.specs.Prelude.{◌≡◌, ◌≤◌, ◌⊎◌, ◌++◌, Some, codes, decimal, option_map};
ghost use Rattle.std.specs.List.{list_all};
ghost use Rattle.glob_text.specs.Pieces.{pieces};
ghost use Rattle.glob_tree.specs.Paths.{is_proper};
ghost use Rattle.globs.specs.ByGit.{is_within};
ghost use Rattle.globs.specs.Unignored.{has_slash, is_directory, is_here, path_of, text_path, without_here};
ghost use Rattle.glob_text.specs.Text.{has};

use crate::ignore::operands::note_operands;
use crate::input::FirstRecord;
use glob_console::{ErrorLines, UNFOUND};
use glob_tree::is_proper;
use std::alloc::Allocator;
use std::cell::Cell;
use std::fmt::{self, Display};
use std::io::Write;
use std::str;

/// What is known about the paths so far: how many were not UTF-8, and the first record.
///
/// A record is a path; a `/` at its end marks a directory. A `./` at its start is skipped, so `a` and `./a` are the
/// same path.
#[derive(Drop)]
pub struct Paths {
    strays: Cell<u64>,
    first: FirstRecord,
}

impl Paths {
    /// No path so far.
    pub fn new() -> Self {
        Paths {
            strays: Cell::new(0),
            first: FirstRecord::new(),
        }
    }

    /// The path of a record, without the `./` at its start and the `/` at its end. `None` if it is not UTF-8, which is
    /// counted.
    pub fn read<'b>(&self, bytes: &'b [u8]) -> Option<&'b str>
        ensures { option_map (λ p. p.now) result ≡ text_path bytes.now }
    {
        self.first.note(bytes);
        match str::from_utf8(path_of(bytes)) {
            Ok(path) => Some(path),
            Err(_) => {
                self.strays.set(self.strays.get().saturating_add(1));
                None
            }
        }
    }

    /// Writes lines about the paths, and returns the status of a run that had this one: 2 if a path was not UTF-8. If
    /// none came, a line may name the operand that was meant as a path.
    pub fn report<A: Allocator + Copy, E: Write>(
        &self,
        status: u8,
        operands: &[&str],
        errors: &mut ErrorLines<'_, A, E>,
    ) -> u8
        ensures most { status ≤ 2 → result ≤ 2 }
        ensures kept { (result ≡ status) ⊎ (result ≡ 2) }
    {
        self.first.report(errors);
        if status == UNFOUND && self.first.is_missing() {
            note_operands(operands, errors);
        }
        match self.strays.get() {
            0 => status,
            strays => errors.fault(StraysLine { strays }),
        }
    }
}

/// The line about paths that were left out.
#[derive(Clone, Copy)]
struct StraysLine {
    strays: u64,
}

impl Display for StraysLine {
    ghost output = { λ line.
        Some (codes "paths left out, as they are not UTF-8: " ++ decimal line.strays) };

    fn fmt<W: fmt::Write>(&self, f: &mut fmt::Formatter<W>) -> fmt::Result {
        write!(f, "paths left out, as they are not UTF-8: {}", self.strays)
    }
}

/// Whether the path names the directory that the rules are about.
pub fn is_here(path: &str) -> bool
    ensures { result ≡ is_here path.now }
{
    path.is_empty() || path == "."
}

/// Whether the path names that directory, or has only proper names and so leads to something in it.
pub fn is_within(path: &str) -> bool
    ensures { result ≡ is_within path.now }
{
    is_here(path) || has_proper_names(path)
}

/// Whether each name of a path is proper.
fn has_proper_names(path: &str) -> bool
    ensures { result ≡ list_all is_proper (pieces path.now) }
{
    path.split('/').all(|name| is_proper(name))
}

/// The path of a record, without the `./` at its start and the `/` at its end.
fn path_of(bytes: &[u8]) -> &[u8]
    ensures { result.now ≡ path_of bytes.now }
{
    let path = without_here(bytes);
    if has_slash(path) {
        &path[..path.len() - 1]
    } else {
        path
    }
}

/// Whether a record marks its path as a directory.
pub fn is_directory(bytes: &[u8]) -> bool
    ensures { result ≡ is_directory bytes.now }
{
    has_slash(without_here(bytes))
}

/// Whether the last byte is `/`.
fn has_slash(path: &[u8]) -> bool
    ensures { result ≡ has_slash path.now }
{
    has(path, path.len().saturating_sub(1), b'/')
}

/// The bytes without a `./` at their start.
fn without_here(bytes: &[u8]) -> &[u8]
    ensures { result.now ≡ without_here bytes.now }
{
    if has(bytes, 0, b'.') && has(bytes, 1, b'/') {
        &bytes[2..]
    } else {
        bytes
    }
}

/// Whether the byte at offset `place` is `c`.
fn has(bytes: &[u8], place: usize, c: u8) -> bool
    ensures { result ≡ has bytes.now place c }
{
    place < bytes.len() && bytes[place] == c
}
