//! Why braces are refused.
ghost use Rattle.std.specs.Prelude.{Some};
ghost use Rattle.glob_set.specs.Words.{brace_error_words, brace_refusal_words};

use std::alloc::{AllocError, AllocFailed};
use std::error::Error;
use std::fmt;

/// What is wrong with the braces of a text. Places are in characters from 0: `a{b` has the error `Unclosed(1)`.
#[derive(Clone, Copy, Debug, PartialEq, Eq)]
pub enum BraceError {
    /// The first `}` that closes no `{`.
    Unmatched(usize),
    /// The first `{` that is never closed.
    Unclosed(usize),
    /// More than [`MOST_ALTERNATIVES`](crate::braces::MOST_ALTERNATIVES) alternatives.
    TooMany,
}

impl fmt::Display for BraceError {
    ghost output = { λ error. Some (brace_error_words error) };

    fn fmt<W: fmt::Write>(&self, f: &mut fmt::Formatter<W>) -> fmt::Result {
        match self {
            BraceError::Unmatched(place) => write!(
                f,
                "no `{{` before the `}}` at position {place}"
            ),
            BraceError::Unclosed(place) => write!(f, "no `}}` after the `{{` at position {place}"),
            BraceError::TooMany => f.write_str("more than 1000 alternatives"),
        }
    }
}

impl Error for BraceError {}

/// Why [`expand`](crate::braces::expand) refused a text.
#[derive(Clone, Copy, Debug, PartialEq, Eq)]
pub enum BraceRefusal {
    /// The fault of the text: `Unmatched(1)` for `a}`.
    Syntax(BraceError),
    /// Out of memory: an allocation failed.
    Memory,
}

impl fmt::Display for BraceRefusal {
    ghost output = { λ refusal. Some (brace_refusal_words refusal) };

    fn fmt<W: fmt::Write>(&self, f: &mut fmt::Formatter<W>) -> fmt::Result {
        match self {
            BraceRefusal::Syntax(error) => error.fmt(f),
            BraceRefusal::Memory => f.write_str("out of memory"),
        }
    }
}

impl Error for BraceRefusal {}

/// A failed allocation.
impl From<AllocError> for BraceRefusal {
    ghost use Rattle.std.specs.Prelude.{◌≡◌};
    ghost use Rattle.glob_set.specs.declared.braces.error.BraceRefusal.TheVariants.{Memory};

    ghost from_gives = { λ _ refusal. refusal ≡ Memory };

    fn from(_error: AllocError) -> BraceRefusal {
        BraceRefusal::Memory
    }
}

/// A failed allocation.
impl<T: Drop> From<AllocFailed<T>> for BraceRefusal {
    ghost use Rattle.std.specs.Prelude.{◌≡◌};
    ghost use Rattle.glob_set.specs.declared.braces.error.BraceRefusal.TheVariants.{Memory};

    ghost from_gives = { λ _ refusal. refusal ≡ Memory };

    fn from(_error: AllocFailed<T>) -> BraceRefusal {
        BraceRefusal::Memory
    }
}
