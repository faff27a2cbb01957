//! `globs explain`: what `match` and `find` do with a text for a pattern, and why. It writes which piece of the text
//! each token matches; or how far the match got, what is wanted there, and what to write instead.
ghost use Rattle.std.specs.Prelude.{◌≡◌, ◌≤◌, ◌⊎◌, IfOk, map};
ghost use Rattle.glob_console.specs.Outcomes.{IsRefused};
ghost use Rattle.glob_set.specs.BraceSets.{AreAccepted};
ghost use Rattle.globs.specs.Explain.Outcomes.{Answers, Explains, ExplainsWord};
ghost use Rattle.globs.specs.Explain.Verdict.{by_find};
ghost use Rattle.globs.specs.Find.Leads.{lead_of, led};
ghost use Rattle.globs.specs.Patterns.{set_of};

mod alternative;
mod deeper;
mod explanation;
pub mod foreign;
pub mod hints;
pub mod instead;
pub mod notes;
mod offers;
mod refusal;
pub mod rows;
mod stop;
mod swapped;
mod verdict;

use crate::braces::brace_fault;
use crate::find::astray::note_braces;
use crate::find::leads::{led_patterns, split_lead};
use crate::name::Name;
use crate::patterns::{FaultLines, PatternFault, read_set};
use crate::usage::{UsageLine, Why};
use explanation::{Question, Sets, explain};
use glob_console::{ErrorLines, FOUND, UNFOUND, as_strs, write_text};
use glob_pattern::{MatchOptions, PatternError};
use glob_set::braces::expand;
use refusal::explain_refusal;
use std::alloc::Allocator;
use std::io::Write;

/// Explains whether `match` accepts a text and `find` finds it, for the alternatives of a pattern's braces, and returns
/// the exit status: 0 if an alternative matches the text under the options, 1 if none does, and 2 after a fault. The
/// operands are the pattern and the text.
///
/// Faults are reported on `errors`. A wrong number of operands, or a refused pattern, leaves the output unchanged.
///
/// For `?*` and `xyz` the lines after the verdict are `"?\tx\n"` and `"*\tyz\n"`, and the status is 0.
#[tactic(auto, unfolding(crate::specs::Explain::Outcomes::Answers))]
pub fn run_explain<A: Allocator + Copy, W: Write, E: Write>(
    alloc: A,
    options: MatchOptions,
    operands: &[&str],
    output: &mut W,
    errors: &mut ErrorLines<'_, A, E>,
) -> u8
    ensures most { result ≤ 2 }
    ensures explained { Answers W.contents options (map (λ w. w.now) operands.now)
        output.old output.new result }
{
    match operands {
        [pattern, text] => explain_word(alloc, options, pattern, text, output, errors),
        [_, _, extra, ..] => errors.fault(usage(Why::Extra, extra)),
        [] | [_] => errors.fault(usage(Why::Textless, "")),
    }
}

/// The line for a wrong operand.
fn usage(why: Why, word: &str) -> UsageLine<'_> {
    UsageLine::new(Some(Name::Explain), why, word)
}

/// Expands the braces of the pattern, and explains the text by its alternatives. Refused braces are a fault.
#[tactic(auto, unfolding(crate::specs::Explain::Outcomes::ExplainsWord))]
fn explain_word<A: Allocator + Copy, W: Write, E: Write>(
    alloc: A,
    options: MatchOptions,
    word: &str,
    text: &str,
    output: &mut W,
    errors: &mut ErrorLines<'_, A, E>,
) -> u8
    ensures most { result ≤ 2 }
    ensures explained { ExplainsWord W.contents options word.now text.now
        output.old output.new result }
{
    let expanded = match expand(alloc, word) {
        Ok(expanded) => expanded,
        Err(refusal) => {
            let status = errors.fault(FaultLines {
                name: Name::Explain,
                fault: brace_fault(word, refusal),
            });
            note_braces(&[word], word, errors);
            return status;
        }
    };
    let Ok(patterns) = as_strs(alloc, expanded.as_slice()) else {
        return errors.memory_fault();
    };
    let question = Question {
        options,
        word,
        patterns: patterns.as_slice(),
        text,
    };
    answer(alloc, question, output, errors)
}

/// Explains the text by the patterns, and returns the status. A refused pattern is written to `errors`, with a caret
/// under its fault.
fn answer<A: Allocator + Copy, W: Write, E: Write>(
    alloc: A,
    question: Question<'_>,
    output: &mut W,
    errors: &mut ErrorLines<'_, A, E>,
) -> u8
    ensures most { result ≤ 2 }
    ensures explained { IsRefused output.old output.new result
        ⊎ (AreAccepted (map (λ p. p.now) question.entry.patterns.now)
        × Explains question.entry.options (map (λ p. p.now) question.entry.patterns.now)
        question.entry.text.now (W.contents output.old) (W.contents output.new) result) }
{
    match read_sets(alloc, question.patterns, question.text, question.options) {
        Ok(sets) => write_explained(alloc, &sets, question, output, errors),
        Err(PatternFault::Syntax(pattern, error)) => {
            refuse(alloc, question, pattern, error, errors)
        }
        Err(fault) => errors.fault(FaultLines {
            name: Name::Explain,
            fault,
        }),
    }
}

/// The sets of the patterns for `match` and for `find`, given a text. Errors are as for [`read_set`].
fn read_sets<'a, A: Allocator + Copy>(
    alloc: A,
    patterns: &[&'a str],
    text: &str,
    options: MatchOptions,
) -> Result<Sets<A>, PatternFault<'a>>
    ensures matching { IfOk result (λ sets.
        sets.matching ≡ set_of options (map (λ p. p.now) patterns.now)) }
    ensures finding { IfOk result (λ sets. sets.finding ≡ set_of (by_find options)
        (led (lead_of text.now) (map (λ p. p.now) patterns.now))) }
    ensures parting { IfOk result (λ sets. sets.parting ≡ set_of options
        (led (lead_of text.now) (map (λ p. p.now) patterns.now))) }
    ensures accepted { IfOk result (λ _. AreAccepted (map (λ p. p.now) patterns.now)) }
{
    let by_find = MatchOptions {
        require_literal_separator: true,
        ..options
    };
    let matching = read_set(alloc, patterns, options)?;
    let (lead, _) = split_lead(text);
    let led = led_patterns(alloc, lead, patterns)?;
    Ok(Sets {
        matching,
        finding: read_set(alloc, led.as_slice(), by_find)?,
        parting: read_set(alloc, led.as_slice(), options)?,
    })
}

/// Writes why the patterns match the text, or do not, and returns the status.
#[tactic(auto, unfolding(crate::specs::Explain::Outcomes::Explains))]
fn write_explained<A: Allocator + Copy, W: Write, E: Write>(
    alloc: A,
    sets: &Sets<A>,
    question: Question<'_>,
    output: &mut W,
    errors: &mut ErrorLines<'_, A, E>,
) -> u8
    requires matching { sets.now.matching
        ≡ set_of question.options (map (λ p. p.now) question.patterns.now) }
    requires finding { sets.now.finding ≡ set_of (by_find question.options)
        (led (lead_of question.text.now) (map (λ p. p.now) question.patterns.now)) }
    requires parting { sets.now.parting ≡ set_of question.options
        (led (lead_of question.text.now) (map (λ p. p.now) question.patterns.now)) }
    ensures most { result ≤ 2 }
    ensures explained { Explains question.entry.options
        (map (λ p. p.now) question.entry.patterns.now) question.entry.text.now
        (W.contents output.old) (W.contents output.new) result }
{
    match explain(alloc, sets, question) {
        Ok(explanation) => {
            let found = if explanation.is_match { FOUND } else { UNFOUND };
            match write_text(explanation.lines.as_str(), output, errors) {
                FOUND => found,
                fault => fault,
            }
        }
        Err(captures_fault) => errors.fault(captures_fault),
    }
}

/// Writes why a pattern is refused, and returns the status of a fault.
fn refuse<A: Allocator + Copy, E: Write>(
    alloc: A,
    question: Question<'_>,
    pattern: &str,
    error: PatternError,
    errors: &mut ErrorLines<'_, A, E>,
) -> u8
    ensures { result ≡ 2 }
{
    match explain_refusal(alloc, question, pattern, error) {
        Ok(lines) => errors.fault(lines),
        Err(_) => errors.memory_fault(),
    }
}
