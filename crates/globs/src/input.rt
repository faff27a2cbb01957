//! Lines about input that a command does not read as meant.
ghost use Rattle.std.specs.Prelude.{◌≡◌, ◌++◌, Some, codes};
ghost use Rattle.globs.specs.Faults.{quoted};

use crate::name::Name;
use crate::usage::HelpWord;
use crate::visible::Visible;
use glob_console::ErrorLines;
use std::alloc::Allocator;
use std::cell::Cell;
use std::fmt::{self, Display};
use std::io::Write;

/// What is noted of the first record of the input: whether there is one, how it begins and ends, and whether it has a
/// NUL. If it has, the input was probably meant to be read with `-0`.
#[derive(Drop)]
pub struct FirstRecord {
    has_nul: Cell<Option<bool>>,
    /// Whether it begins with `./`.
    is_dotted: Cell<bool>,
    /// Whether it ends in a carriage return.
    is_returned: Cell<bool>,
}

impl FirstRecord {
    /// No record so far.
    pub fn new() -> Self {
        FirstRecord {
            has_nul: Cell::new(None),
            is_dotted: Cell::new(false),
            is_returned: Cell::new(false),
        }
    }

    /// Notes a record, if it is the first.
    pub fn note(&self, bytes: &[u8]) {
        if self.has_nul.get().is_none() {
            self.has_nul.set(Some(bytes.contains(&0)));
            self.is_dotted.set(bytes.starts_with(b"./"));
            self.is_returned.set(bytes.ends_with(b"\r"));
        }
    }

    /// Whether there was no record.
    pub fn is_missing(&self) -> bool {
        self.has_nul.get().is_none()
    }

    /// Whether it has a NUL.
    pub fn has_nul(&self) -> bool {
        self.has_nul.get() == Some(true)
    }

    /// For a pattern that matched nothing: writes a line if only one of the pattern and the first record begins with
    /// `./`, or if the record ends in a carriage return. Returns whether it wrote one.
    pub fn note_ends<A: Allocator + Copy, E: Write>(
        &self,
        pattern: &str,
        errors: &mut ErrorLines<'_, A, E>,
    ) -> bool {
        let is_dotted = self.is_dotted.get();
        if is_dotted && !pattern.starts_with(['.', '*', '?', '['].as_slice()) {
            errors.write(&HereLine { pattern });
            return true;
        }
        match pattern.strip_prefix("./") {
            Some(bare) if !is_dotted => {
                errors.write(&BareLine { bare });
                return true;
            }
            Some(_) | None => {}
        }
        if self.is_returned.get() {
            errors.write(
                &"lines end in a carriage return, which belongs to them: tr -d '\\r' takes it away",
            );
        }
        self.is_returned.get()
    }

    /// Writes a line that names `-0`, if the first record has a NUL.
    pub fn report<A: Allocator + Copy, E: Write>(&self, errors: &mut ErrorLines<'_, A, E>) {
        if self.has_nul() {
            errors.write(&"the input has NULs: with -0 they end its records");
        }
    }
}

/// The line about a pattern that begins with `./`, for paths that do not.
#[derive(Clone, Copy)]
struct BareLine<'a> {
    /// The pattern without its `./`.
    bare: &'a str,
}

impl Display for BareLine<'_> {
    fn fmt<W: fmt::Write>(&self, f: &mut fmt::Formatter<W>) -> fmt::Result {
        let bare = Visible { text: self.bare };
        write!(
            f,
            "./ is not skipped, and lines do not begin with it: write '{bare}'"
        )
    }
}

/// The line about a pattern for paths that begin with `./`.
#[derive(Clone, Copy)]
struct HereLine<'a> {
    pattern: &'a str,
}

impl Display for HereLine<'_> {
    fn fmt<W: fmt::Write>(&self, f: &mut fmt::Formatter<W>) -> fmt::Result {
        let pattern = Visible { text: self.pattern };
        write!(
            f,
            "lines begin with ./, which belongs to them: write './{pattern}'"
        )
    }
}

/// Says that a command reads standard input, which is a terminal here, since its user may have expected it to read a
/// file. For `match help` it also says how to get the help page.
pub fn note_terminal<A: Allocator + Copy, E: Write>(
    name: Name,
    operands: &[&str],
    errors: &mut ErrorLines<'_, A, E>,
) {
    match name {
        Name::Match => {
            errors.write(&"lines are read from standard input, as in globs match PATTERN <FILE");
            if is_help(operands) {
                errors.write(&HelpWord { name });
            }
        }
        Name::Ignore => {
            errors.write(
                &"paths are read from standard input, as in git ls-files | globs ignore FILE",
            );
        }
        Name::Find | Name::Explain | Name::Escape => {}
    }
}

/// Whether the only operand is `help`.
pub fn is_help(operands: &[&str]) -> bool {
    match operands {
        [word] => *word == "help",
        [] | [_, _, ..] => false,
    }
}

/// Writes that one of several words is a pattern, if it was probably meant as a file because it has no wildcard: the
/// last word, or else the first.
pub fn note_file<A: Allocator + Copy, E: Write>(words: &[&str], errors: &mut ErrorLines<'_, A, E>) {
    if let [first, .., last] = words {
        if is_plain(last) {
            errors.write(&FileLine { word: last });
        } else if is_plain(first) {
            errors.write(&FileLine { word: first });
        }
    }
}

/// Whether a word has no wildcard.
fn is_plain(word: &str) -> bool {
    !word.contains(['?', '*', '[', '{'])
}

/// The line about such a word.
#[derive(Clone, Copy)]
struct FileLine<'a> {
    word: &'a str,
}

impl Display for FileLine<'_> {
    ghost output = { λ line. Some (quoted line.word.now
        ++ codes " is a pattern: lines are read from standard input, as in globs match PATTERN <FILE") };

    fn fmt<W: fmt::Write>(&self, f: &mut fmt::Formatter<W>) -> fmt::Result {
        let word = Visible { text: self.word };
        write!(
            f,
            "`{word}` is a pattern: lines are read from standard input, as in globs match PATTERN <FILE"
        )
    }
}
