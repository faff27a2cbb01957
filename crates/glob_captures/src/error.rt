//! The errors of `captures` and `reach`.
ghost use Rattle.std.specs.Prelude.{Some};
ghost use Rattle.glob_captures.specs.Words.{captures_error_words};

use std::alloc::{AllocError, AllocFailed};
use std::error::Error;
use std::fmt;

/// Why [`captures`](crate::captures) or [`reach`](crate::reach) failed. A failed allocation prints as `out of memory`.
#[derive(Debug, Drop)]
pub enum CapturesError {
    /// The pattern's tokens times the text's bytes are more than [`MOST_STEPS`](crate::MOST_STEPS). Nothing was done.
    TooLarge,
    /// Out of memory: an allocation failed.
    Memory,
}

impl fmt::Display for CapturesError {
    ghost output = { λ error. Some (captures_error_words error) };

    fn fmt<W: fmt::Write>(&self, f: &mut fmt::Formatter<W>) -> fmt::Result {
        f.write_str(match self {
            CapturesError::TooLarge =>
                "the pattern's tokens times the text's bytes are more than 67108864",
            CapturesError::Memory => "out of memory",
        })
    }
}

impl Error for CapturesError {}

/// A failed allocation.
impl From<AllocError> for CapturesError {
    ghost use Rattle.std.specs.Prelude.{◌≡◌};
    ghost use Rattle.glob_captures.specs.declared.error.CapturesError.TheVariants.{Memory};

    ghost from_gives = { λ _ error. error ≡ Memory };

    fn from(_error: AllocError) -> CapturesError {
        CapturesError::Memory
    }
}

/// A failed allocation.
impl<T: Drop> From<AllocFailed<T>> for CapturesError {
    ghost use Rattle.std.specs.Prelude.{◌≡◌};
    ghost use Rattle.glob_captures.specs.declared.error.CapturesError.TheVariants.{Memory};

    ghost from_gives = { λ _ error. error ≡ Memory };

    fn from(_error: AllocFailed<T>) -> CapturesError {
        CapturesError::Memory
    }
}
