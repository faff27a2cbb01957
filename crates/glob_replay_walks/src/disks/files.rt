//! A scripted file system, which counts its calls.
use glob_replay::raise;
use glob_replay::words::has_word;
use glob_tree::{Directory, DirectoryId, Strays, System};
use std::cell::Cell;
use std::fs::Metadata;
use std::io::{self, ErrorKind};

/// What is at a path.
#[derive(Clone, Copy)]
pub enum Kind<'a> {
    File,
    /// A directory. These blocks are its names, with a NUL after each; a read returns one block.
    Dir(&'a [&'a [u8]]),
    /// A directory with these blocks, and the error of the read after them.
    Torn(&'a [&'a [u8]], ErrorKind),
    /// A directory that cannot be opened, or cannot be read, and the error.
    Unopened(io::Error),
    Unread(io::Error),
    /// A link to a file, or to a directory.
    LinkToFile,
    LinkToDir,
    /// A link that cannot be followed, and the error.
    Link(ErrorKind),
    /// Something that cannot be looked up or opened, and the error.
    Lost(ErrorKind),
}

/// Paths, separated by spaces, and what is there.
pub type Planted<'a> = (&'a str, Kind<'a>);

/// Counts of system calls, of bytes and of reports.
#[derive(Default, Drop)]
pub struct SystemCalls {
    /// How often metadata was asked for.
    pub lookups: Cell<u64>,
    /// How often a directory was opened.
    pub opens: Cell<u64>,
    /// How many bytes the reads of directories had room for, in total.
    pub room: Cell<u64>,
    /// How often a name that is not UTF-8, or a path that was not looked up, was reported.
    pub reports: Cell<u64>,
}

/// Counts the names and paths that are reported: 1 for an expected report with the right error, and 9 for any other.
#[derive(Drop)]
pub struct Noted<'a> {
    pub system: &'a SystemCalls,
}

impl Strays for Noted<'_> {
    fn stray(&mut self, directory: &str, name: &[u8]) {
        let is_known = directory == "latin/" && name == b"y\xffz".as_slice();
        raise(&self.system.reports, if is_known { 1 } else { 9 });
    }

    fn unsettled(&mut self, path: &str, error: &io::Error) {
        let is_known = match error.kind() {
            ErrorKind::FilesystemLoop => path == "d/ring",
            ErrorKind::PermissionDenied => path == "d/hidden" || path == "unseen/a",
            _ => false,
        };
        raise(&self.system.reports, if is_known { 1 } else { 9 });
    }
}

/// A file system with these paths and no others. A directory is opened by its path with a separator at the end.
#[derive(Clone, Copy)]
pub struct Written<'a> {
    pub paths: &'a [Planted<'a>],
    pub system: &'a SystemCalls,
}

/// The names of a directory that are not read yet, and the error after them, if there is one.
#[derive(Drop)]
pub struct Names<'a> {
    blocks: &'a [&'a [u8]],
    failure: Option<io::Error>,
    system: &'a SystemCalls,
}

impl Directory for Names<'_> {
    ghost use Rattle.std.specs.Prelude.{None};

    ghost left = { λ _. None };

    ghost fault = { λ _. None };

    fn read(&mut self, buf: &mut [u8]) -> io::Result<usize> {
        raise(&self.system.room, buf.len());
        let [block, rest @ ..] = self.blocks else {
            return self.failure.map_or(Ok(0), Err);
        };
        self.blocks = rest;
        let count = block.len().min(buf.len());
        buf[..count].copy_from_slice(&block[..count]);
        Ok(count)
    }
}

const NO_BLOCKS: &[&[u8]] = &[];

impl<'a> Written<'a> {
    /// What is at a path.
    fn kind(&self, path: &str) -> Kind<'a> {
        let mut paths = self.paths.iter();
        let found = paths.find(|(keys, _)| has_word(keys, path));
        found.map_or(Kind::Lost(ErrorKind::NotFound), |(_, kind)| *kind)
    }
}

impl<'a> System for Written<'a> {
    type Dir = Names<'a>;

    ghost use Rattle.std.specs.Prelude.{None};

    ghost holds = { λ _. None };

    fn lstat(&self, path: &str) -> io::Result<Metadata> {
        match self.kind(path) {
            Kind::LinkToFile | Kind::LinkToDir | Kind::Link(_) => {
                raise(&self.system.lookups, 1);
                Ok(Metadata::of_symlink(0))
            }
            _ => self.stat(path),
        }
    }

    fn stat(&self, path: &str) -> io::Result<Metadata> {
        raise(&self.system.lookups, 1);
        match self.kind(path) {
            Kind::File | Kind::LinkToFile => Ok(Metadata::of_file(0)),
            Kind::Link(kind) | Kind::Lost(kind) => Err(io::Error::from(kind)),
            _ => Ok(Metadata::of_dir()),
        }
    }

    fn directory_id(&self, path: &str) -> io::Result<Option<DirectoryId>> {
        if !self.stat(path)?.is_dir() {
            return Ok(None);
        }
        Ok(Some(DirectoryId { dev: 0, ino: 0 }))
    }

    fn open(&self, path: &str) -> io::Result<Names<'a>> {
        let system = self.system;
        raise(&system.opens, 1);
        let (blocks, failure) = match self.kind(path) {
            Kind::Dir(blocks) => (blocks, None),
            Kind::Torn(blocks, kind) => (blocks, Some(io::Error::from(kind))),
            Kind::Unopened(error) => return Err(error),
            Kind::Unread(error) => (NO_BLOCKS, Some(error)),
            Kind::Link(kind) | Kind::Lost(kind) => return Err(io::Error::from(kind)),
            _ => return Err(ErrorKind::Unsupported.into()),
        };
        Ok(Names {
            blocks,
            failure,
            system,
        })
    }
}
