//! How a walk ended.
ghost use Rattle.std.specs.Prelude.{◌≡◌};
ghost use Rattle.glob_walk.specs.Walks.{outcome, refusal_end};

use crate::error::{GlobCause, GlobResult};
use std::alloc::Allocator;

/// How a walk ended. Over a file `x`, `*` needs 3 units: it ends with `Done` at a limit of 3, and with `Limit` at a
/// limit of 2.
#[derive(Clone, Copy, Debug, PartialEq, Eq)]
pub enum End {
    /// The walk is complete.
    Done,
    /// Out of memory: an allocation failed.
    Memory,
    /// The next unit of work did not fit the limit.
    Limit,
}

/// How a walk ended if this item ended it: `None` for a path and for a directory that could not be listed, and
/// `End::Limit` for an error with the cause `Limit`.
pub fn end_of<A: Allocator>(item: &GlobResult<A>) -> Option<End>
    ensures { result ≡ refusal_end (outcome item.now) }
{
    match item {
        Ok(_) => None,
        Err(e) => match e.cause() {
            GlobCause::Read => None,
            GlobCause::Memory => Some(End::Memory),
            GlobCause::Limit => Some(End::Limit),
        },
    }
}
