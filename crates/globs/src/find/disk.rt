//! The disk of a search.
ghost use Rattle.std.specs.Prelude.{◌≡◌, if◌then◌else◌, None};

use crate::PREFIX;
use crate::find::places::{Place, Places};
use crate::find::strays::StrayLines;
use crate::ignoring::unmarked;
use crate::place::names_above;
use glob_console::{FAULT, write_line};
use glob_search::RuleTexts;
use glob_tree::{DirectoryId, Links, ListError, OpenDirectory, PhysicalDisk, System, child};
use std::alloc::{AllocError, Global};
use std::cell::Cell;
use std::collections::BTreeSet;
use std::fmt::{self, Display};
use std::fs::{File, Metadata};
use std::io::{self, ErrorKind, Stderr};

/// The real disk. Clauses know nothing about its content.
#[derive(Drop)]
pub struct Here<'a> {
    pub rt: HostRuntime,
    /// Whether a name that is not UTF-8, or a path that cannot be looked up, was reported.
    pub has_stray: &'a Cell<bool>,
}

/// The real disk from a place on.
#[derive(Drop)]
pub struct Start {
    rt: HostRuntime,
    /// The path of the place; empty for the current directory.
    path: String,
}

/// The texts of the files on a disk, without byte order marks.
#[derive(Drop)]
pub struct StartTexts {
    start: Start,
}

/// Writes a line on standard error for each name that is not UTF-8, ignored or not, unless such names are skipped, and
/// for each path that cannot be looked up and that the rules of the command line do not ignore. It notes that there was
/// one. Tests, not clauses, show this.
impl<'a> Places for Here<'a> {
    type Alloc = Global;

    type Tree = PhysicalDisk<Start, StrayLines<'a, Global, Stderr>, Global>;

    type Texts = StartTexts;

    ghost content = { λ here follows place. None };

    ghost texts = { λ here place. None };

    ghost above = { λ here place. None };

    fn tree(&self, place: Place<'_, '_, '_>) -> Result<Self::Tree, AllocError> {
        let alloc = self.rt.alloc();
        let strays = StrayLines {
            alloc,
            is_utf8_only: place.is_utf8_only,
            lead: String::from_str(alloc, place.lead)?,
            errors: self.rt.stderr(),
            has_any: self.has_stray,
            rules: String::from_str(alloc, place.rules)?,
            reported: BTreeSet::new(alloc),
        };
        let links = if place.follows {
            Links::Followed
        } else {
            Links::Kept
        };
        let start = Start::new(self.rt, place.path)?;
        Ok(PhysicalDisk::with_links(start, strays, alloc, links))
    }

    fn rule_texts(&self, place: Place<'_, '_, '_>) -> Result<StartTexts, AllocError> {
        let start = Start::new(self.rt, place.path)?;
        Ok(StartTexts { start })
    }

    fn names_above(&self, place: Place<'_, '_, '_>) -> Result<Vec<String>, AllocError> {
        match names_above(self.rt, place.path) {
            Ok(names) => Ok(names),
            Err(error) if error.kind() == ErrorKind::OutOfMemory => Err(AllocError),
            Err(error) => {
                let alloc = self.rt.alloc();
                self.has_stray.set(true);
                let line = UnknownPlace { error: &error };
                write_line(alloc, PREFIX, &line, &mut self.rt.stderr());
                Ok(Vec::new(alloc))
            }
        }
    }
}

impl Start {
    /// The disk from a place on.
    fn new(rt: HostRuntime, path: &str) -> Result<Self, AllocError> {
        let path = String::from_str(rt.alloc(), path)?;
        Ok(Start { rt, path })
    }

    /// The text of the file at a path, if there is one.
    fn read(&self, path: &str) -> Result<Option<String>, ListError> {
        let alloc = self.rt.alloc();
        let path = self.at(path)?;
        let file = match File::open(&self.rt, path.as_str()) {
            Ok(file) => file,
            Err(error) => return missing(error),
        };
        match io::read_to_string(alloc, file) {
            Ok(text) => Ok(Some(String::from_str(alloc, unmarked(text.as_str()))?)),
            Err(error) => missing(error),
        }
    }

    /// A path on the disk, as it is from the current directory.
    fn at(&self, path: &str) -> Result<String, AllocError> {
        child(self.rt.alloc(), self.path.as_str(), path)
    }
}

impl System for Start {
    type Dir = OpenDirectory;

    ghost holds = { λ _. None };

    fn lstat(&self, path: &str) -> io::Result<Metadata> {
        if self.path.is_empty() {
            return self.rt.lstat(path);
        }
        self.rt.lstat(self.at(path)?.as_str())
    }

    fn stat(&self, path: &str) -> io::Result<Metadata> {
        if self.path.is_empty() {
            return self.rt.stat(path);
        }
        self.rt.stat(self.at(path)?.as_str())
    }

    fn directory_id(&self, path: &str) -> io::Result<Option<DirectoryId>> {
        if self.path.is_empty() {
            return self.rt.directory_id(path);
        }
        self.rt.directory_id(self.at(path)?.as_str())
    }

    fn open(&self, path: &str) -> io::Result<OpenDirectory> {
        if self.path.is_empty() {
            return self.rt.open(path);
        }
        self.rt.open(self.at(path)?.as_str())
    }
}

impl RuleTexts for StartTexts {
    type Alloc = Global;

    ghost texts = { λ _. None };

    fn text(&mut self, path: &str) -> Result<Option<String>, ListError> {
        self.start.read(path)
    }
}

/// The line about a place whose path in its repository is not known.
#[derive(Clone, Copy)]
struct UnknownPlace<'a> {
    error: &'a io::Error,
}

impl Display for UnknownPlace<'_> {
    fn fmt<W: fmt::Write>(&self, f: &mut fmt::Formatter<W>) -> fmt::Result {
        write!(
            f,
            "no rules above the start are read, as its path is not known: {}",
            self.error
        )
    }
}

/// `None` if the error says that there is no file, and otherwise the error.
fn missing(error: io::Error) -> Result<Option<String>, ListError> {
    match error.kind() {
        ErrorKind::NotFound | ErrorKind::NotADirectory | ErrorKind::IsADirectory => Ok(None),
        _ => Err(ListError::from(error)),
    }
}

/// The exit status of a run: 2 if there was a stray, and otherwise the run's own.
pub fn last_status(has_stray: bool, status: u8) -> u8
    ensures { result ≡ (if has_stray then 2 else status) }
{
    if has_stray { FAULT } else { status }
}
