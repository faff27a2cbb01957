//! Receivers of what a disk leaves out or cannot learn.
ghost use Rattle.std.specs.Prelude.{◌≡◌, ◌≢◌, ◌⊎◌, ℕ, List, Option, None, Ok, [], ◌∷◌, IfOk, IfErr, IfSome, IsSome, OnOk};
ghost use Rattle.std.specs.IoError.{error_kind};
ghost use Rattle.std.specs.Result.{IsErrAnd};
ghost use Rattle.glob_tree.specs.Received.{ReceivesAtMost};
ghost use Rattle.glob_tree.specs.Strays.{and_then};

use std::alloc::AllocError;
use std::io::{self, ErrorKind};

/// Receives what a [`PhysicalDisk`](crate::PhysicalDisk) left out or could not learn. A walk over it is complete if
/// nothing is received.
///
/// ```text
/// #[derive(Drop)]
/// struct Lost {
///     count: u64,
/// }
///
/// impl Strays for Lost {
///     fn stray(&mut self, _directory: &str, _name: &[u8]) {
///         self.count = self.count.saturating_add(1);
///     }
///
///     fn unsettled(&mut self, _path: &str, _error: &io::Error) {
///         self.count = self.count.saturating_add(1);
///     }
/// }
/// ```
pub trait Strays: Drop {
    /// The received names, in order, if they are known.
    ghost names: { Self → Option (List (List ℕ)) } = { λ _. None };

    /// The received paths, in order, if they are known.
    ghost paths: { Self → Option (List (List ℕ)) } = { λ _. None };

    /// The directory has an entry whose name is not UTF-8: `name`, in bytes. The listing goes on without it.
    fn stray(&mut self, directory: &str, name: &[u8])
        ensures names { names self.new ≡ and_then (names self.old) (name.now ∷ []) }
        ensures paths { paths self.new ≡ paths self.old };

    /// The disk could not learn what is at `path`, for this reason: for example `PermissionDenied`, or
    /// `InvalidFilename` if the path is too long for the system. `FilesystemLoop` is also the reason for a followed
    /// link that points to one of its ancestors. A listing does not report the path as a directory, and goes on.
    fn unsettled(&mut self, path: &str, error: &io::Error)
        ensures names { names self.new ≡ names self.old }
        ensures paths { paths self.new ≡ and_then (paths self.old) (path.now ∷ []) };
}

/// What the system says is at a path; `None` if it says that nothing is there. An allocation failure is returned as an
/// error. Any other error goes to the strays, and the result is `None`.
pub(crate) fn settle<S: Strays, T: Drop>(
    strays: &mut S,
    path: &str,
    answer: io::Result<T>,
) -> Result<Option<T>, AllocError>
    ensures found { IfOk result (λ found. IfSome found (λ one. answer ≡ Ok one)) }
    ensures nothing { IfOk result (λ found. found ≡ None
        → IsErrAnd answer (λ error. error_kind error ≢ ErrorKind.OutOfMemory)) }
    ensures names { S.names strays.new ≡ S.names strays.old }
    ensures received { OnOk result
        (ReceivesAtMost path.now (S.paths strays.old) (S.paths strays.new)) }
    ensures known { OnOk answer (S.paths strays.new ≡ S.paths strays.old) }
    ensures some { IfOk result (λ found. IsSome found
        → S.paths strays.new ≡ S.paths strays.old) }
    ensures missing { IfErr answer (λ error. (error_kind error ≡ ErrorKind.NotFound)
        ⊎ (error_kind error ≡ ErrorKind.NotADirectory) → S.paths strays.new ≡ S.paths strays.old) }
    ensures unsettled { IfErr answer (λ error. error_kind error ≢ ErrorKind.NotFound
        → error_kind error ≢ ErrorKind.NotADirectory
        → OnOk result (S.paths strays.new ≡ and_then (S.paths strays.old) (path.now ∷ []))) }
{
    match answer {
        Ok(found) => Ok(Some(found)),
        Err(error) => match error.kind() {
            ErrorKind::OutOfMemory => Err(AllocError),
            ErrorKind::NotFound | ErrorKind::NotADirectory => Ok(None),
            _ => {
                strays.unsettled(path, &error);
                Ok(None)
            }
        },
    }
}
