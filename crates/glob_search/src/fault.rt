//! What a search could not do.
ghost use Rattle.std.specs.Prelude.{◌≡◌, None};

use crate::meter::OverLimit;
use glob_rules::RuleRefusal;
use std::alloc::{AllocError, AllocFailed, Allocator, Global};
use std::error::Error;
use std::{fmt, io};

/// What a search could not do. After `Limit` it has ended; after `Memory`, too; otherwise it goes on.
#[derive(Drop)]
#[derive_where(Debug)]
pub enum SearchFault<A: Allocator = Global> {
    /// The directory at the path could not be listed, so what is below it is not found.
    Unread(String<A>, io::Error),
    /// The ignore file at the path could not be read, so its rules do not apply.
    UnreadRules(String<A>, io::Error),
    /// Lines of the ignore file at the path are refused, and these are the refusals. The rules of its other lines do
    /// apply.
    RefusedRules(String<A>, Vec<RuleRefusal, A>),
    /// The next unit of work does not fit the limit. The search has ended.
    Limit,
    /// Out of memory: an allocation failed. The search has ended.
    Memory,
}

impl<A: Allocator> SearchFault<A> {
    ghost use Rattle.glob_search.specs.States.{is_last};

    /// Whether the search has ended.
    pub fn is_last(&self) -> bool
        ensures { result ≡ is_last self.now }
    {
        match self {
            SearchFault::Limit | SearchFault::Memory => true,
            SearchFault::Unread(..)
            | SearchFault::UnreadRules(..)
            | SearchFault::RefusedRules(..) => false,
        }
    }
}

impl<A: Allocator> fmt::Display for SearchFault<A> {
    ghost output = { λ _. None };

    fn fmt<W: fmt::Write>(&self, f: &mut fmt::Formatter<W>) -> fmt::Result {
        match self {
            SearchFault::Unread(path, error) | SearchFault::UnreadRules(path, error) => {
                write!(f, "{path}: {error}")
            }
            SearchFault::RefusedRules(path, refusals) => {
                f.write_str(path.as_str())?;
                for (number, refusal) in refusals.iter().enumerate() {
                    f.write_str(if number == 0 { ": " } else { "; " })?;
                    write!(f, "{refusal}")?;
                }
                Ok(())
            }
            SearchFault::Limit => f.write_str("search limit reached"),
            SearchFault::Memory => f.write_str("out of memory"),
        }
    }
}

impl<A: Allocator> Error for SearchFault<A> {}

/// A failed allocation.
impl<A: Allocator> From<AllocError> for SearchFault<A> {
    ghost use Rattle.std.specs.Prelude.{◌≡◌};
    ghost use Rattle.glob_search.specs.declared.fault.SearchFault.TheVariants.{Memory};

    ghost from_gives = { λ _ fault. fault ≡ Memory };

    fn from(_error: AllocError) -> Self {
        SearchFault::Memory
    }
}

/// A failed allocation.
impl<T: Drop, A: Allocator> From<AllocFailed<T>> for SearchFault<A> {
    ghost use Rattle.std.specs.Prelude.{◌≡◌};
    ghost use Rattle.glob_search.specs.declared.fault.SearchFault.TheVariants.{Memory};

    ghost from_gives = { λ _ fault. fault ≡ Memory };

    fn from(_error: AllocFailed<T>) -> Self {
        SearchFault::Memory
    }
}

/// A unit that does not fit the limit.
impl<A: Allocator> From<OverLimit> for SearchFault<A> {
    ghost use Rattle.std.specs.Prelude.{◌≡◌};
    ghost use Rattle.glob_search.specs.declared.fault.SearchFault.TheVariants.{Limit};

    ghost from_gives = { λ _ fault. fault ≡ Limit };

    fn from(_over: OverLimit) -> Self {
        SearchFault::Limit
    }
}
