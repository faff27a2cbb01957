//! What a step of a walk returns.
ghost use Rattle.std.specs.Prelude.{◌≡◌, string_bytes};
ghost use Rattle.std.specs.IoError.{error_kind};
ghost use Rattle.glob_walk.specs.Machines.{Says, is_last, item_number, saying};
ghost use Rattle.glob_walk.specs.Walks.{Found, Unread, Gives, LimitAt, NoMemory};
ghost use Rattle.glob_walk.specs.Private.Turns.{asking};

use crate::ending::end_of;
use crate::error::GlobError;
use crate::machine::Step;
use crate::query::QueryKind;
use std::alloc::Allocator;
use std::io;
use std::path::PathBuf;

impl<A: Allocator> Step<A> {
    /// Asks for a look, or for a listing with the kinds of the entries or only their names.
    pub(crate) fn ask(kind: QueryKind) -> Self
        ensures { saying result ≡ asking kind }
    {
        match kind {
            QueryKind::Look(_) => Step::Look,
            QueryKind::List { kinds: true, .. } => Step::List,
            QueryKind::List { kinds: false, .. } => Step::ListNames,
        }
    }

    /// Gives a path that the pattern leads to.
    pub(crate) fn found(path: String<A>) -> Self
        ensures { saying result ≡ Says (Gives (Found (string_bytes path))) }
    {
        Step::Item(Ok(PathBuf::from(path)))
    }

    /// Reports a directory that could not be listed. The walk goes on.
    pub(crate) fn unread(path: String<A>, e: io::Error) -> Self
        ensures { saying result ≡ Says (Gives (Unread (string_bytes path) (error_kind e))) }
    {
        Step::Item(Err(GlobError::read(PathBuf::from(path), e)))
    }

    /// The walk reached its limit at the path, and is over.
    pub(crate) fn limit(path: String<A>) -> Self
        ensures { saying result ≡ Says (LimitAt (string_bytes path)) }
    {
        Step::Item(Err(GlobError::limit(PathBuf::from(path))))
    }

    /// An allocation failed. The walk is over.
    pub(crate) fn memory(alloc: A) -> Self
        ensures { saying result ≡ Says NoMemory }
    {
        Step::Item(Err(GlobError::memory(alloc)))
    }

    /// The number of items that it gives.
    pub(crate) fn item_count(&self) -> u128
        ensures { result ≡ item_number (saying self.now) }
    {
        match self {
            Step::Item(_) => 1,
            Step::Look | Step::List | Step::ListNames | Step::Done => 0,
        }
    }

    /// Whether only `Done` can follow.
    pub(crate) fn is_last(&self) -> bool
        ensures { result ≡ is_last (saying self.now) }
    {
        match self {
            Step::Look | Step::List | Step::ListNames => false,
            Step::Item(item) => end_of(item).is_some(),
            Step::Done => true,
        }
    }
}
