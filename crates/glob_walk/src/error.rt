//! The errors of a walk.
ghost use Rattle.std.specs.Prelude.{◌≡◌, []};
ghost use Rattle.std.specs.IoError.{error_kind};
ghost use Rattle.std.specs.Path.{path_bytes, path_buf_bytes};
ghost use Rattle.glob_walk.specs.GlobCauses.{HasKind};

use std::alloc::{Allocator, Global};
use std::error::Error;
use std::path::{Path, PathBuf};
use std::{fmt, io};

/// Why a walk reports a path as an error: `Read` for a directory without read permission.
#[derive(Clone, Copy, Debug, PartialEq, Eq)]
pub enum GlobCause {
    /// The directory at the path could not be listed.
    Read,
    /// Out of memory: an allocation failed, and the walk has ended. Nothing is promised for the error's path; in this
    /// version it is empty.
    Memory,
    /// The next unit of work, which is for this path, does not fit the walk's limit. The walk has ended.
    Limit,
}

/// A path that a walk could not read, and why. No call on it takes memory.
///
/// The error of a directory `a` without read permission has the path `a`, the cause `Read`, and an I/O error of the
/// kind `PermissionDenied`. At a limit of 0 the first item has the path `.` and the cause `Limit`, and prints as
/// ``attempting to read `.` resulted in an error: walk limit reached``.
#[derive(Drop)]
#[derive_where(Debug)]
pub struct GlobError<A: Allocator = Global> {
    path: PathBuf<A>,
    error: io::Error,
    cause: GlobCause,
    ghost kind: { ∥ HasKind cause (error_kind error) ∥₁ },
}

/// An item of a walk: a path that the pattern leads to, such as `Ok` of `src/a.rs`, or an error.
pub type GlobResult<A = Global> = Result<PathBuf<A>, GlobError<A>>;

impl<A: Allocator> GlobError<A> {
    ghost use Rattle.glob_walk.specs.GlobErrors.{path_of, error_of, cause_of};

    /// The path could not be read because of `error`.
    pub(crate) fn read(path: PathBuf<A>, error: io::Error) -> Self
        ensures path { path_of result ≡ path_buf_bytes path }
        ensures error { error_of result ≡ error }
        ensures cause { cause_of result ≡ GlobCause.Read }
    {
        GlobError {
            path,
            error,
            cause: GlobCause::Read,
        }
    }

    /// An allocation failed. The path is empty.
    pub(crate) fn memory(alloc: A) -> Self
        ensures path { path_of result ≡ [] }
        ensures cause { cause_of result ≡ GlobCause.Memory }
    {
        GlobError {
            path: PathBuf::new(alloc),
            error: io::Error::from(io::ErrorKind::OutOfMemory),
            cause: GlobCause::Memory,
        }
    }

    /// The walk reached its limit at the path.
    pub(crate) fn limit(path: PathBuf<A>) -> Self
        ensures path { path_of result ≡ path_buf_bytes path }
        ensures cause { cause_of result ≡ GlobCause.Limit }
    {
        GlobError {
            path,
            error: io::Error::other("walk limit reached"),
            cause: GlobCause::Limit,
        }
    }

    /// The path that could not be read: `a` for the directory `a`. If the cause is `Memory`, nothing is promised for
    /// it.
    pub fn path(&self) -> Path<'_>
        ensures { path_bytes result ≡ path_of self.now }
    {
        self.path.as_path()
    }

    /// The I/O error, for example of the kind `PermissionDenied` for a directory without read permission. Its kind is
    /// `Other` if the cause is `Limit`, and `OutOfMemory` if it is `Memory`.
    pub fn error(&self) -> &io::Error
        ensures error { result.now ≡ error_of self.now }
        ensures kind { HasKind (cause_of self.now) (error_kind result.now) }
    {
        &self.error
    }

    /// The I/O error that [`error`](Self::error) returns.
    pub fn into_error(self) -> io::Error
        ensures error { result ≡ error_of self }
        ensures kind { HasKind (cause_of self) (error_kind result) }
    {
        *self.error()
    }

    /// Why the path could not be read: `Read` for a directory without read permission.
    pub fn cause(&self) -> GlobCause
        ensures { result ≡ cause_of self.now }
    {
        self.cause
    }
}

/// The I/O error that [`GlobError::error`] returns.
impl<A: Allocator> From<GlobError<A>> for io::Error {
    ghost use Rattle.glob_walk.specs.GlobErrors.{error_of};

    ghost from_gives = { λ e error. error ≡ error_of e };

    fn from(e: GlobError<A>) -> io::Error {
        e.into_error()
    }
}

/// The path, and why it could not be read. If the cause is `Read`, the text ends with what the I/O error prints, and
/// nothing is promised about the text.
impl<A: Allocator> fmt::Display for GlobError<A> {
    ghost use Rattle.glob_walk.specs.GlobErrors.{glob_error_words};

    ghost output = { glob_error_words };

    fn fmt<W: fmt::Write>(&self, f: &mut fmt::Formatter<W>) -> fmt::Result {
        let path = self.path.display();
        write!(f, "attempting to read `{path}` resulted in an error: ")?;
        match self.cause {
            GlobCause::Read => fmt::Display::fmt(&self.error, f),
            GlobCause::Memory => f.write_str("out of memory"),
            GlobCause::Limit => f.write_str("walk limit reached"),
        }
    }
}

impl<A: Allocator> Error for GlobError<A> {}
