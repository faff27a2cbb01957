//! Whether patterns match a text, and why.
ghost use Rattle.std.specs.Prelude.{◌≡◌, IfOk, false, map, string_bytes};
ghost use Rattle.globs.specs.Explain.Hints.{AreHints};
ghost use Rattle.globs.specs.Explain.Offers.{IsFindOffer, IsOffer};
ghost use Rattle.globs.specs.Explain.Outcomes.{AreLines};
ghost use Rattle.globs.specs.Explain.Verdict.{by_find, is_taken, verdict_of};
ghost use Rattle.globs.specs.Find.Leads.{lead_of, led};
ghost use Rattle.globs.specs.Patterns.{set_of};

use crate::explain::alternative::{add_alternative, nearest};
use crate::explain::deeper::find_line;
use crate::explain::foreign::native_forms;
use crate::explain::hints::hint_lines;
use crate::explain::offers::offer_line;
use crate::explain::swapped::add_swapped;
use crate::explain::verdict::{Finding, Verdict};
use crate::find::leads::split_lead;
use crate::patterns::is_any_match;
use glob_captures::CapturesError;
use glob_pattern::MatchOptions;
use glob_set::PatternSet;
use std::alloc::{AllocError, Allocator};

/// A text that is to be explained by some patterns.
#[derive(Clone, Copy)]
pub struct Question<'a> {
    pub options: MatchOptions,
    /// The word of the command line.
    pub word: &'a str,
    /// Its alternatives.
    pub patterns: &'a [&'a str],
    pub text: &'a str,
}

/// The sets of patterns that decide what the first line says.
#[derive(Drop)]
pub struct Sets<A: Allocator> {
    /// The patterns, under the options of `match`.
    pub matching: PatternSet<A>,
    /// What follows the text's lead in the patterns that have that lead, under the options of `find`.
    pub finding: PatternSet<A>,
    /// The same, under the options of `match`.
    pub parting: PatternSet<A>,
}

/// Whether a pattern matches a text, and why.
#[derive(Drop)]
pub struct Explanation<A: Allocator> {
    pub is_match: bool,
    /// What `match` and `find` do with the text. For a match, then a line for each token: the token as written, a tab,
    /// and its piece. Otherwise the text, a caret under the character where the match stops, what the waiting tokens
    /// want, what is easily missed, which single changes give a match, and what to write instead.
    pub lines: String<A>,
}

/// Explains whether one of the patterns matches the whole text.
///
/// For `*.rs` and `a.rs` the lines after the first begin with `"*\ta\n"` and `".\t.\n"`. For `a?` and `ab/` they are
/// `ab/`, a caret under the `/`, and `the pattern ends here`. The errors are:
///
/// - [`CapturesError::TooLarge`]: for a pattern, the tokens times the bytes are more than the limit.
/// - [`CapturesError::Memory`]: an allocation failed.
#[tactic(auto, unfolding(crate::specs::Explain::Outcomes::AreLines))]
pub fn explain<A: Allocator + Copy>(
    alloc: A,
    sets: &Sets<A>,
    question: Question<'_>,
) -> Result<Explanation<A>, CapturesError>
    requires matching { sets.now.matching
        ≡ set_of question.options (map (λ p. p.now) question.patterns.now) }
    requires finding { sets.now.finding ≡ set_of (by_find question.options)
        (led (lead_of question.text.now) (map (λ p. p.now) question.patterns.now)) }
    requires parting { sets.now.parting ≡ set_of question.options
        (led (lead_of question.text.now) (map (λ p. p.now) question.patterns.now)) }
    ensures answer { IfOk result (λ explanation. explanation.is_match
        ≡ is_taken question.entry.options (map (λ p. p.now) question.entry.patterns.now)
        question.entry.text.now) }
    ensures lines { IfOk result (λ explanation. AreLines question.entry.options
        (map (λ p. p.now) question.entry.patterns.now) question.entry.text.now
        (string_bytes explanation.lines)) }
{
    let verdict = verdict_of(sets, question)?;
    let pattern = nearest(alloc, question)?;
    let is_match = verdict.is_match;
    let reasons = reason_lines(alloc, is_match, pattern, question)?;
    let hints = hints_unless(alloc, is_match, question)?;
    let offer = offer_unless(alloc, is_match, pattern, question)?;
    let deeper = find_line(
        alloc,
        verdict.finding,
        pattern,
        question.text,
        question.options,
    )?;
    Ok(Explanation {
        is_match,
        lines: format!(in alloc; "{verdict}\n{reasons}{hints}{offer}{deeper}")?,
    })
}

/// How the pattern matches the text, or does not, and whether the two are swapped.
fn reason_lines<A: Allocator + Copy>(
    alloc: A,
    is_match: bool,
    pattern: &str,
    question: Question<'_>,
) -> Result<String<A>, CapturesError> {
    let mut lines = String::new(alloc);
    add_alternative(alloc, &mut lines, pattern, question)?;
    if !is_match {
        add_swapped(alloc, &mut lines, question)?;
    }
    Ok(lines)
}

/// What `match` and `find` do with the text.
fn verdict_of<A: Allocator + Copy>(
    sets: &Sets<A>,
    question: Question<'_>,
) -> Result<Verdict, AllocError>
    requires matching { sets.now.matching
        ≡ set_of question.options (map (λ p. p.now) question.patterns.now) }
    requires finding { sets.now.finding ≡ set_of (by_find question.options)
        (led (lead_of question.text.now) (map (λ p. p.now) question.patterns.now)) }
    requires parting { sets.now.parting ≡ set_of question.options
        (led (lead_of question.text.now) (map (λ p. p.now) question.patterns.now)) }
    ensures { IfOk result (λ verdict. verdict ≡ verdict_of question.entry.options
        (map (λ p. p.now) question.entry.patterns.now) question.entry.text.now) }
{
    let Question { patterns, text, .. } = question;
    let is_match = is_any_match(&sets.matching, text)?;
    let (_, below) = split_lead(text);
    let is_found = is_any_match(&sets.finding, below)?;
    let is_parted = is_any_match(&sets.parting, below)?;
    Ok(Verdict {
        is_match,
        finding: Finding::new(patterns, text, is_parted, is_found),
    })
}

/// The changes that give a match, if there is none.
fn hints_unless<A: Allocator + Copy>(
    alloc: A,
    is_match: bool,
    question: Question<'_>,
) -> Result<String<A>, AllocError>
    ensures { IfOk result (λ lines. is_match ≡ false → AreHints question.entry.options
        (map (λ p. p.now) question.entry.patterns.now) question.entry.text.now
        (string_bytes lines)) }
{
    if is_match {
        return Ok(String::new(alloc));
    }
    hint_lines(alloc, question.patterns, question.text, question.options)
}

/// What to write instead of a pattern with another tool's syntax, if there is no match.
#[tactic(auto, unfolding(crate::specs::Explain::Offers::IsOffer))]
fn offer_unless<A: Allocator + Copy>(
    alloc: A,
    is_match: bool,
    pattern: &str,
    question: Question<'_>,
) -> Result<String<A>, AllocError>
    ensures { IfOk result (λ line.
        IsOffer question.entry.options question.entry.text.now (string_bytes line)) }
{
    if is_match {
        return Ok(String::new(alloc));
    }
    let forms = native_forms(alloc, pattern)?;
    offer_line(alloc, forms.as_slice(), question.text, question.options)
}
