//! The patterns of a command line.
ghost use Rattle.std.specs.Prelude.{◌≡◌, Some, IfOk, IfErr, map};
ghost use Rattle.std.specs.Fmt.{WritesOnOk};
ghost use Rattle.globs.specs.Faults.{brace_lines, fault_words, message_words};
ghost use Rattle.globs.specs.Patterns.{IsPatternFault, is_any_match, set_of};
ghost use Rattle.glob_set.specs.BraceSets.{AreAccepted};
ghost use Rattle.glob_set.specs.Sets.{RefusesTexts};

use crate::name::Name;
use crate::usage::Help;
use crate::visible::{Caret, Visible};
use glob_pattern::{MatchOptions, PatternError, PatternErrorKind};
use glob_set::braces::BraceError;
use glob_set::{PatternSet, SetRefusal};
use std::alloc::{AllocError, Allocator};
use std::fmt::{self, Display};

/// Why a pattern is refused. Columns are in characters of the pattern, counted from 0.
#[derive(Drop)]
pub enum PatternFault<'a> {
    /// The component at this column is empty, `.` or `..`, which `find` refuses.
    Astray(&'a str, usize),
    /// The bracket at this column has a `/`, which `find` refuses.
    Parted(&'a str, usize),
    /// The pattern has this syntax error.
    Syntax(&'a str, PatternError),
    /// The pattern has this error in its braces.
    Braces(&'a str, BraceError),
    /// Out of memory: an allocation failed.
    Memory,
}

/// A failed allocation.
impl From<AllocError> for PatternFault<'_> {
    ghost use Rattle.std.specs.Prelude.{◌≡◌};
    ghost use Rattle.globs.specs.declared.patterns.PatternFault.TheVariants.{Memory};

    ghost from_gives = { λ _ fault. fault ≡ Memory };

    fn from(_error: AllocError) -> Self {
        PatternFault::Memory
    }
}

/// The lines for a refused pattern of a command: what is wrong, the pattern, a caret under the place, if there is one,
/// and where to find help. A failed allocation is one line. They print without the program's name and the last line
/// feed.
#[derive(Drop)]
pub struct FaultLines<'a> {
    pub name: Name,
    pub fault: PatternFault<'a>,
}

impl Display for FaultLines<'_> {
    ghost output = { λ lines. Some (fault_words lines) };

    fn fmt<W: fmt::Write>(&self, f: &mut fmt::Formatter<W>) -> fmt::Result {
        let help = Help {
            name: Some(self.name),
        };
        match &self.fault {
            PatternFault::Astray(text, column) => {
                let caret = Caret {
                    text: *text,
                    column: *column,
                };
                write!(f, "no component may be empty, `.` or `..`\n{caret}\n{help}")
            }
            PatternFault::Parted(text, column) => {
                let caret = Caret {
                    text: *text,
                    column: *column,
                };
                write!(f, "in find, a bracket must not contain /\n{caret}\n{help}")
            }
            PatternFault::Syntax(text, error) => {
                let caret = Caret {
                    text: *text,
                    column: error.pos,
                };
                write!(f, "{}\n{caret}\n{help}", message_of(error.kind()))
            }
            PatternFault::Braces(text, error) => {
                write_braces(f, text, *error)?;
                write!(f, "\n{help}")
            }
            PatternFault::Memory => f.write_str("out of memory"),
        }
    }
}

/// The message for a kind of syntax error: the library's, except for an unclosed bracket.
pub fn message_of(kind: PatternErrorKind) -> &'static str
    ensures { result.now ≡ message_words kind }
{
    match kind {
        PatternErrorKind::Wildcards | PatternErrorKind::Recursive => kind.message(),
        PatternErrorKind::Range => "unclosed [",
    }
}

/// Writes what is wrong with the braces of a text, the text, and a caret under the place, if there is one.
fn write_braces<W: fmt::Write>(
    f: &mut fmt::Formatter<W>,
    text: &str,
    error: BraceError,
) -> fmt::Result
    ensures { WritesOnOk W.write_str_gives f.old result (brace_lines text.now error) f.new }
{
    match error {
        BraceError::Unmatched(column) | BraceError::Unclosed(column) => {
            let caret = Caret { text, column };
            write!(f, "{error}\n{caret}")
        }
        BraceError::TooMany => {
            let text = Visible { text };
            write!(f, "{error}\n{text}")
        }
    }
}

/// Makes a set of the patterns. The error has the first text that is not a valid pattern, with its syntax error, or
/// reports a failed allocation.
pub fn read_set<'a, A: Allocator + Copy>(
    alloc: A,
    patterns: &[&'a str],
    options: MatchOptions,
) -> Result<PatternSet<A>, PatternFault<'a>>
    ensures set { IfOk result (λ set. set ≡ set_of options (map (λ p. p.now) patterns.now)) }
    ensures accepted { IfOk result (λ _. AreAccepted (map (λ p. p.now) patterns.now)) }
    ensures refused { IfErr result (IsPatternFault (map (λ p. p.now) patterns.now)) }
{
    match PatternSet::from_texts(alloc, patterns, options) {
        Ok(set) => Ok(set),
        Err(refusal) => Err(fault_of(patterns, refusal)),
    }
}

/// The fault for patterns that make no set.
fn fault_of<'a>(patterns: &[&'a str], refusal: SetRefusal) -> PatternFault<'a>
    requires { RefusesTexts (map (λ p. p.now) patterns.now) refusal }
    ensures { IsPatternFault (map (λ p. p.now) patterns.now) result }
{
    match refusal {
        SetRefusal::Syntax(number, error) => PatternFault::Syntax(patterns[number], error),
        SetRefusal::Memory => PatternFault::Memory,
    }
}

/// Whether some pattern of the set matches the text. The error is an allocation failure.
pub fn is_any_match<A: Allocator + Copy>(
    patterns: &PatternSet<A>,
    text: &str,
) -> Result<bool, AllocError>
    ensures { IfOk result (λ yes. yes ≡ is_any_match patterns.now text.now) }
{
    Ok(patterns.is_match(text)?)
}
