//! Why a text is refused as an ignore list.
ghost use Rattle.std.specs.Prelude.{Some};
ghost use Rattle.glob_rules.specs.Words.{reason_words, refusal_words};

use std::alloc::{AllocError, AllocFailed};
use std::error::Error;
use std::fmt;

/// Why a line is refused: it has no exact translation, or git contradicts gitignore(5) on it.
#[derive(Clone, Copy, Debug, PartialEq, Eq)]
pub enum Reason {
    /// A bracket has a non-ASCII character, as in `[é]`: git matches each of its bytes by itself.
    BeyondAscii,
    /// A bracket has a class that git does not know, as in `[[:word:]]`: in git such a rule matches nothing.
    UnknownClass,
    /// Two or more stars end a component that begins with other characters, and all that comes before them is literal,
    /// as in `a**/b`: git contradicts its manual here.
    StarsBehindText,
    /// The line contains a NUL, and git stops reading there.
    Nul,
    /// The translation is not a valid pattern. No line is known to cause this.
    Pattern,
}

impl fmt::Display for Reason {
    ghost output = { λ reason. Some (reason_words reason) };

    fn fmt<W: fmt::Write>(&self, f: &mut fmt::Formatter<W>) -> fmt::Result {
        f.write_str(match self {
            Reason::BeyondAscii => "a bracket names a character beyond ASCII",
            Reason::UnknownClass => "a bracket has an unknown class of characters",
            Reason::StarsBehindText => "`**` is not a whole component",
            Reason::Nul => "the line has a NUL",
            Reason::Pattern => "the translation is no pattern",
        })
    }
}

/// Why [`IgnoreList::new`](crate::IgnoreList::new) refused a text. The text `[é]` is refused with `Line(1,
/// Reason::BeyondAscii)`, which prints as `line 1: a bracket names a character beyond ASCII`.
#[derive(Debug, Drop)]
pub enum RuleRefusal {
    /// The number of the first refused line, counted from 1, and the reason.
    Line(usize, Reason),
    /// Out of memory: an allocation failed.
    Memory,
}

impl fmt::Display for RuleRefusal {
    ghost output = { λ refusal. Some (refusal_words refusal) };

    fn fmt<W: fmt::Write>(&self, f: &mut fmt::Formatter<W>) -> fmt::Result {
        match self {
            RuleRefusal::Line(line, reason) => {
                write!(f, "line {line}: ")?;
                reason.fmt(f)
            }
            RuleRefusal::Memory => f.write_str("out of memory"),
        }
    }
}

impl Error for RuleRefusal {}

/// A failed allocation.
impl From<AllocError> for RuleRefusal {
    ghost use Rattle.std.specs.Prelude.{◌≡◌};
    ghost use Rattle.glob_rules.specs.declared.error.RuleRefusal.TheVariants.{Memory};

    ghost from_gives = { λ _ refusal. refusal ≡ Memory };

    fn from(_error: AllocError) -> RuleRefusal {
        RuleRefusal::Memory
    }
}

/// A failed allocation.
impl<T: Drop> From<AllocFailed<T>> for RuleRefusal {
    ghost use Rattle.std.specs.Prelude.{◌≡◌};
    ghost use Rattle.glob_rules.specs.declared.error.RuleRefusal.TheVariants.{Memory};

    ghost from_gives = { λ _ refusal. refusal ≡ Memory };

    fn from(_error: AllocFailed<T>) -> RuleRefusal {
        RuleRefusal::Memory
    }
}
