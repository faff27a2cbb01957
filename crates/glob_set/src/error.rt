//! Why texts are refused as a set.
ghost use Rattle.std.specs.Prelude.{Some};
ghost use Rattle.glob_set.specs.Words.{refusal_words, brace_set_refusal_words};

use crate::braces::BraceError;
use glob_pattern::PatternError;
use std::alloc::{AllocError, AllocFailed};
use std::error::Error;
use std::fmt;

/// Why [`PatternSet::from_texts`](crate::PatternSet::from_texts) refused texts. `*.o` and `[a` are refused with
/// `Syntax`, the number 1 and the place 0, which prints as `pattern 1: Pattern syntax error near position 0: invalid
/// range pattern`.
#[derive(Debug, Drop)]
pub enum SetRefusal {
    /// The number of the first text that is not accepted, counted from 0, and its first fault from the left.
    Syntax(usize, PatternError),
    /// Out of memory: an allocation failed.
    Memory,
}

impl fmt::Display for SetRefusal {
    ghost output = { λ refusal. Some (refusal_words refusal) };

    fn fmt<W: fmt::Write>(&self, f: &mut fmt::Formatter<W>) -> fmt::Result {
        match self {
            SetRefusal::Syntax(number, error) => {
                write!(f, "pattern {number}: ")?;
                error.fmt(f)
            }
            SetRefusal::Memory => f.write_str("out of memory"),
        }
    }
}

impl Error for SetRefusal {}

/// A failed allocation.
impl From<AllocError> for SetRefusal {
    ghost use Rattle.std.specs.Prelude.{◌≡◌};
    ghost use Rattle.glob_set.specs.declared.error.SetRefusal.TheVariants.{Memory};

    ghost from_gives = { λ _ refusal. refusal ≡ Memory };

    fn from(_error: AllocError) -> SetRefusal {
        SetRefusal::Memory
    }
}

/// A failed allocation.
impl<T: Drop> From<AllocFailed<T>> for SetRefusal {
    ghost use Rattle.std.specs.Prelude.{◌≡◌};
    ghost use Rattle.glob_set.specs.declared.error.SetRefusal.TheVariants.{Memory};

    ghost from_gives = { λ _ refusal. refusal ≡ Memory };

    fn from(_error: AllocFailed<T>) -> SetRefusal {
        SetRefusal::Memory
    }
}

/// Why [`PatternSet::from_braces`](crate::PatternSet::from_braces) refused texts. Numbers count from 0.
#[derive(Debug, Drop)]
pub enum BraceSetRefusal {
    /// The number of the first text with a fault, and the fault of its braces: for `*.o` and `{a`, 1 and `Unclosed(0)`.
    Braces(usize, BraceError),
    /// The number of the first text with a fault, the number of its first alternative that is not accepted, and the
    /// first fault of that alternative from the left: for `*.o` and `{a,[}`, 1, 1 and the place 0 in `[`.
    Pattern(usize, usize, PatternError),
    /// Out of memory: an allocation failed.
    Memory,
}

impl fmt::Display for BraceSetRefusal {
    ghost output = { λ refusal. Some (brace_set_refusal_words refusal) };

    fn fmt<W: fmt::Write>(&self, f: &mut fmt::Formatter<W>) -> fmt::Result {
        match self {
            BraceSetRefusal::Braces(number, error) => {
                write!(f, "pattern {number}: ")?;
                error.fmt(f)
            }
            BraceSetRefusal::Pattern(number, alternative, error) => {
                write!(f, "pattern {number}, alternative {alternative}: ")?;
                error.fmt(f)
            }
            BraceSetRefusal::Memory => f.write_str("out of memory"),
        }
    }
}

impl Error for BraceSetRefusal {}

/// A failed allocation.
impl From<AllocError> for BraceSetRefusal {
    ghost use Rattle.std.specs.Prelude.{◌≡◌};
    ghost use Rattle.glob_set.specs.declared.error.BraceSetRefusal.TheVariants.{Memory};

    ghost from_gives = { λ _ refusal. refusal ≡ Memory };

    fn from(_error: AllocError) -> BraceSetRefusal {
        BraceSetRefusal::Memory
    }
}
