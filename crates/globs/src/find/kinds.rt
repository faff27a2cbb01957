//! Which paths are written, by their kinds.
ghost use Rattle.std.specs.Prelude.{◌≡◌, List, ℕ, Bool, Option, Some, None, IfOk};
ghost use Rattle.glob_text.specs.Text.{Text};
ghost use Rattle.globs.specs.Find.Kinds.{is_of, keeps_of, sieved, sifts};

use crate::files::DiskFiles;
use crate::find::directories::DirectoryWords;
use crate::options::{Kinds, Settings};
use glob_tree::child;
use std::alloc::{AllocError, Allocator};
use std::fs::{Files, Metadata};
use std::io::{self, ErrorKind};

/// What is at a path.
#[derive(Clone, Copy, PartialEq, Eq)]
pub enum PathKind {
    Directory,
    /// A regular file.
    File,
    /// A symbolic link; if links are followed, only a link that leads nowhere.
    Link,
    /// Something else, such as a pipe, or nothing.
    Other,
}

/// Something that knows the kinds of paths: a disk.
pub trait PathKinds {
    ghost use Rattle.globs.specs.declared.find.kinds.PathKind.{PathKind};

    /// The kinds of the paths from a directory on, if they are known.
    ghost kinds: { Self → (follows : Bool) → (directory : List ℕ) → Option (List ℕ → PathKind) };

    /// The kind of what is at a path from a directory on; an empty directory means the current one. If links are
    /// followed, it is the kind of what a link leads to. What cannot be looked up is `Other`: a search that knows kinds
    /// has reported it.
    fn kind<A: Allocator + Copy>(
        &self,
        alloc: A,
        follows: bool,
        directory: &str,
        path: &str,
    ) -> Result<PathKind, AllocError>
        ensures { (known : List ℕ → PathKind) → kinds self.now follows directory.now ≡ Some known
            → IfOk result (λ kind. kind ≡ known path.now) };
}

/// The paths of the disk. Clauses know nothing about their kinds.
impl<R: Files> PathKinds for DiskFiles<R> {
    ghost kinds = { λ files follows directory. None };

    fn kind<A: Allocator + Copy>(
        &self,
        alloc: A,
        follows: bool,
        directory: &str,
        path: &str,
    ) -> Result<PathKind, AllocError> {
        let path = child(alloc, directory, path)?;
        let here = self.rt.symlink_metadata(path.as_str());
        match kind_of(here, PathKind::Other)? {
            PathKind::Link if follows => {
                let there = self.rt.metadata(path.as_str());
                kind_of(there, PathKind::Link)
            }
            kind => Ok(kind),
        }
    }
}

/// The kind of what a system has looked up; `absent` if the lookup failed.
fn kind_of(answer: io::Result<Metadata>, absent: PathKind) -> Result<PathKind, AllocError> {
    match answer {
        Ok(found) if found.is_dir() => Ok(PathKind::Directory),
        Ok(found) if found.is_file() => Ok(PathKind::File),
        Ok(found) if found.is_symlink() => Ok(PathKind::Link),
        Ok(_) => Ok(PathKind::Other),
        Err(error) if error.kind() == ErrorKind::OutOfMemory => Err(AllocError),
        Err(_) => Ok(absent),
    }
}

/// Keeps the paths of the kinds that are asked for.
#[derive(Drop)]
pub struct Sieve<'f, 'd, 'w, 'p, 'v, F> {
    pub files: &'f F,
    pub kinds: Kinds,
    pub follows: bool,
    /// The place where the search begins.
    pub place: &'d str,
    /// The lead of the patterns.
    lead: &'d str,
    /// The words that name directories, which note each path.
    words: &'w DirectoryWords<'p, 'v>,
}

impl<'f, 'd, 'w, 'p, 'v, F: PathKinds> Sieve<'f, 'd, 'w, 'p, 'v, F> {
    /// A sieve for a search by the patterns with this lead, which begins at this place.
    pub fn new(
        files: &'f F,
        settings: Settings,
        place: &'d str,
        lead: &'d str,
        words: &'w DirectoryWords<'p, 'v>,
    ) -> Self
        ensures { sieved F.kinds result ≡ keeps_of settings.kinds
            (F.kinds files.now settings.follows place.now) }
    {
        Sieve {
            files,
            kinds: settings.kinds,
            follows: settings.follows,
            place,
            lead,
            words,
        }
    }

    /// Whether a path has one of the kinds that are asked for. The error is an allocation failure.
    pub fn keeps<A: Allocator + Copy>(&self, alloc: A, path: &str) -> Result<bool, AllocError>
        ensures { (keeps : Text → Bool) → sieved F.kinds self.now ≡ Some keeps
            → IfOk result (λ yes. yes ≡ keeps path.now) }
    {
        self.words.note_found(self.lead, path);
        if !sifts(self.kinds) {
            return Ok(true);
        }
        let kind = self.files.kind(alloc, self.follows, self.place, path)?;
        Ok(is_of(self.kinds, kind))
    }
}

/// Whether more has to be known about a path than whether it is a directory.
pub fn sifts(kinds: Kinds) -> bool
    ensures { result ≡ sifts kinds }
{
    kinds.files || kinds.links
}

/// Whether a kind is among the kinds that are asked for.
fn is_of(kinds: Kinds, kind: PathKind) -> bool
    ensures { result ≡ is_of kinds kind }
{
    match kind {
        PathKind::Directory => kinds.directories,
        PathKind::File => kinds.files,
        PathKind::Link => kinds.links,
        PathKind::Other => false,
    }
}
