//! Expands the braces of patterns on the command line.
ghost use Rattle.std.specs.Prelude.{◌≡◌, Some, IfOk, chars, map, string_bytes};
ghost use Rattle.glob_set.specs.Braces.{AreAlternatives};
ghost use Rattle.glob_set.specs.BraceSets.{AreAlternativesOf};
ghost use Rattle.globs.specs.Faults.{alternative_words};

use crate::explain::rows::part_of;
use crate::find::below::{astray_column, is_below};
use crate::name::Name;
use crate::patterns::{FaultLines, PatternFault};
use crate::visible::Visible;
use glob_captures::tokens;
use glob_console::ErrorLines;
use glob_pattern::{Pattern, PatternRefusal};
use glob_set::braces::{BraceRefusal, expand};
use std::alloc::Allocator;
use std::fmt::{self, Display};
use std::io::Write;

/// A fault that was reported.
#[derive(Clone, Copy)]
pub struct Reported;

/// Expands the braces of each word, in order: `*.{c,h}` and `a` give `*.c`, `*.h` and `a`.
///
/// The error is a word with refused braces or a refused alternative, or a failed allocation. It has been reported on
/// `errors`.
pub fn expand_words<A: Allocator + Copy, E: Write>(
    alloc: A,
    name: Name,
    words: &[&str],
    errors: &mut ErrorLines<'_, A, E>,
) -> Result<Vec<String<A>, A>, Reported>
    ensures { IfOk result (λ texts.
        AreAlternativesOf (map (λ w. w.now) words.now) (map string_bytes texts.items)) }
{
    let mut texts = Vec::new(alloc);
    for word in words {
        let mut alternatives = expand_word(alloc, name, word, errors)?;
        let Ok(()) = texts.append(&mut alternatives) else {
            errors.write(&"out of memory");
            return Err(Reported);
        };
    }
    Ok(texts)
}

/// Expands the braces of one word, as [`expand_words`] does.
fn expand_word<A: Allocator + Copy, E: Write>(
    alloc: A,
    name: Name,
    word: &str,
    errors: &mut ErrorLines<'_, A, E>,
) -> Result<Vec<String<A>, A>, Reported>
    ensures { IfOk result (λ texts.
        AreAlternatives (chars word.now) (map string_bytes texts.items)) }
{
    match expand(alloc, word) {
        Ok(alternatives) => {
            check_alternatives(alloc, name, word, alternatives.as_slice(), errors)?;
            Ok(alternatives)
        }
        Err(refusal) => {
            let fault = brace_fault(word, refusal);
            errors.write(&FaultLines { name, fault });
            Err(Reported)
        }
    }
}

/// The fault for a word whose braces are refused.
pub fn brace_fault(word: &str, refusal: BraceRefusal) -> PatternFault<'_> {
    match refusal {
        BraceRefusal::Syntax(error) => PatternFault::Braces(word, error),
        BraceRefusal::Memory => PatternFault::Memory,
    }
}

/// Reports the first refused alternative of a word. The lines also name the word, unless the alternative is the word
/// itself.
fn check_alternatives<A: Allocator + Copy, E: Write>(
    alloc: A,
    name: Name,
    word: &str,
    alternatives: &[String<A>],
    errors: &mut ErrorLines<'_, A, E>,
) -> Result<(), Reported> {
    for alternative in alternatives {
        let alternative = alternative.as_str();
        if let Some(fault) = pattern_fault(alloc, name, alternative) {
            if alternative == word {
                errors.write(&FaultLines { name, fault });
            } else {
                errors.write(&lines_of(name, word, fault));
            }
            return Err(Reported);
        }
    }
    Ok(())
}

/// Why the command refuses a pattern; `None` if it accepts the pattern, or if an allocation fails.
pub fn pattern_fault<A: Allocator + Copy>(
    alloc: A,
    name: Name,
    pattern: &str,
) -> Option<PatternFault<'_>> {
    if name == Name::Find && !is_below(pattern) {
        return Some(PatternFault::Astray(pattern, astray_column(pattern)));
    }
    match Pattern::new(alloc, pattern) {
        Ok(parsed) if name == Name::Find => parted_fault(alloc, &parsed, pattern),
        Err(PatternRefusal::Syntax(error)) => Some(PatternFault::Syntax(pattern, error)),
        Err(PatternRefusal::Memory) | Ok(_) => None,
    }
}

/// The fault of the first bracket with a `/` in it, which `find` refuses.
fn parted_fault<'a, A: Allocator + Copy>(
    alloc: A,
    parsed: &Pattern<A>,
    pattern: &'a str,
) -> Option<PatternFault<'a>> {
    let list = tokens(alloc, parsed).ok()?;
    for token in list.as_slice() {
        let written = part_of(pattern, token.piece);
        if written.starts_with('[') && written.contains('/') {
            let before = pattern.get(..token.piece.start)?;
            return Some(PatternFault::Parted(pattern, before.chars().count()));
        }
    }
    None
}

/// The lines for a refused alternative of a word.
fn lines_of<'a>(name: Name, word: &'a str, fault: PatternFault<'a>) -> AlternativeLines<'a> {
    let lines = FaultLines { name, fault };
    AlternativeLines { word, lines }
}

/// The lines for a refused alternative, after the word that it comes from.
#[derive(Drop)]
pub struct AlternativeLines<'a> {
    pub word: &'a str,
    pub lines: FaultLines<'a>,
}

impl Display for AlternativeLines<'_> {
    ghost output = { λ lines. Some (alternative_words lines) };

    fn fmt<W: fmt::Write>(&self, f: &mut fmt::Formatter<W>) -> fmt::Result {
        let word = Visible { text: self.word };
        write!(f, "`{word}`: {}", self.lines)
    }
}
