//! Why a text is refused as a pattern.
ghost use Rattle.std.specs.Prelude.{◌≡◌, List, ℕ, Some};
ghost use Rattle.glob_pattern.specs.Grammar.Faults.{Refuses, kind_of, message_of, number_of};
ghost use Rattle.glob_pattern.specs.Words.{pattern_error_words, refusal_words};
ghost use Rattle.glob_pattern.specs.declared.error.PatternRefusal.TheVariants.{Syntax};

use std::alloc::{AllocError, AllocFailed};
use std::error::Error;
use std::fmt;

/// What is wrong with a text that is not accepted as a pattern.
#[derive(Clone, Copy, Debug, PartialEq, Eq)]
pub enum PatternErrorKind {
    /// Three or more stars, as in `a/***`.
    Wildcards,
    /// Two stars that are not a whole component, as in `a**`.
    Recursive,
    /// A `[` that no `]` closes, as in `[a` and `[]`.
    Range,
}

impl PatternErrorKind {
    /// The message for errors of this kind: `invalid range pattern` for `Range`.
    pub fn message(self) -> &'static str
        ensures text { result.now ≡ message_of self }
        ensures kind { kind_of result.now ≡ self }
    {
        match self {
            PatternErrorKind::Wildcards => "wildcards are either regular `*` or recursive `**`",
            PatternErrorKind::Recursive => "recursive wildcards must form a single path component",
            PatternErrorKind::Range => "invalid range pattern",
        }
    }

    /// The fixed number of the kind: 0 for `Wildcards`, 1 for `Recursive`, 2 for `Range`.
    pub fn number(self) -> u32
        ensures { result ≡ number_of self }
    {
        match self {
            PatternErrorKind::Wildcards => 0,
            PatternErrorKind::Recursive => 1,
            PatternErrorKind::Range => 2,
        }
    }
}

/// Where a pattern is wrong, and why. The error for `a**` has the place 0 and the message `recursive wildcards must
/// form a single path component`. It prints as `Pattern syntax error near position 0: ` and the message.
#[derive(Debug, Drop)]
pub struct PatternError {
    /// The place, in characters from 0.
    pub pos: usize,
    /// The message: what is wrong there.
    pub msg: &'static str,
}

impl PatternError {
    /// The kind of the error: `Recursive` for `a**`. An error made by hand has the kind that its message belongs to, or
    /// else `Range`.
    #[tactic(auto, using(crate::proofs::GrammarLemmas::FaultKinds::message_of_kind))]
    pub fn kind(&self) -> PatternErrorKind
        ensures kind { result ≡ kind_of self.now.msg.now }
        ensures message { (text : List ℕ) → Refuses text (Syntax self.now)
            → message_of result ≡ self.now.msg.now }
    {
        if self.msg == PatternErrorKind::Wildcards.message() {
            PatternErrorKind::Wildcards
        } else if self.msg == PatternErrorKind::Recursive.message() {
            PatternErrorKind::Recursive
        } else {
            PatternErrorKind::Range
        }
    }
}

impl fmt::Display for PatternError {
    ghost output = { λ error. Some (pattern_error_words error) };

    fn fmt<W: fmt::Write>(&self, f: &mut fmt::Formatter<W>) -> fmt::Result {
        let pos = self.pos;
        let msg = self.msg;
        write!(f, "Pattern syntax error near position {pos}: {msg}")
    }
}

impl Error for PatternError {}

/// Why [`Pattern::new`](crate::Pattern::new) or a walk refused a text. `[a` is refused with `Syntax` at the place 0,
/// which prints as `Pattern syntax error near position 0: invalid range pattern`.
#[derive(Debug, Drop)]
pub enum PatternRefusal {
    /// The text is not accepted; this is its first fault from the left. A walk may report the fault of a component,
    /// with the place counted from the start of that component.
    Syntax(PatternError),
    /// Out of memory: an allocation failed.
    Memory,
}

impl fmt::Display for PatternRefusal {
    ghost output = { λ refusal. Some (refusal_words refusal) };

    fn fmt<W: fmt::Write>(&self, f: &mut fmt::Formatter<W>) -> fmt::Result {
        match self {
            PatternRefusal::Syntax(error) => error.fmt(f),
            PatternRefusal::Memory => f.write_str("out of memory"),
        }
    }
}

impl Error for PatternRefusal {}

/// A failed allocation.
impl From<AllocError> for PatternRefusal {
    ghost use Rattle.std.specs.Prelude.{◌≡◌};
    ghost use Rattle.glob_pattern.specs.declared.error.PatternRefusal.TheVariants.{Memory};

    ghost from_gives = { λ _ refusal. refusal ≡ Memory };

    fn from(_error: AllocError) -> PatternRefusal {
        PatternRefusal::Memory
    }
}

/// A failed allocation.
impl<T: Drop> From<AllocFailed<T>> for PatternRefusal {
    ghost use Rattle.std.specs.Prelude.{◌≡◌};
    ghost use Rattle.glob_pattern.specs.declared.error.PatternRefusal.TheVariants.{Memory};

    ghost from_gives = { λ _ refusal. refusal ≡ Memory };

    fn from(_error: AllocFailed<T>) -> PatternRefusal {
        PatternRefusal::Memory
    }
}
