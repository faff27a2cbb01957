//! Patterns parsed from lists of texts.
ghost use Rattle.std.specs.Prelude.{◌≡◌, map, string_bytes, chars, IfOk, IfErr};
ghost use Rattle.glob_set.specs.Braces.{AreAlternatives};
ghost use Rattle.glob_set.specs.BraceSets.{AreAccepted, AreAlternativesOf, HasPatterns, RefusesText, RefusesBraceTexts};
ghost use Rattle.glob_set.specs.BraceSets.{of_alternatives, of_braces};
ghost use Rattle.glob_set.specs.Sets.{RefusesTexts, refusal_of};

use crate::braces::{BraceRefusal, expand};
use crate::error::{BraceSetRefusal, SetRefusal};
use glob_pattern::{Pattern, PatternRefusal};
use std::alloc::{AllocError, Allocator};

/// Parses the texts. The error is the fault of the first text that is not accepted, or a failed allocation.
pub fn read_patterns<A: Allocator + Copy>(
    alloc: A,
    texts: &[&str],
) -> Result<Vec<Pattern<A>, A>, SetRefusal>
    ensures patterns { IfOk result (λ patterns. patterns.items ≡ map (λ t. t.now) texts.now) }
    ensures accepted { IfOk result (λ _. AreAccepted (map (λ t. t.now) texts.now)) }
    ensures refused { IfErr result (RefusesTexts (map (λ t. t.now) texts.now)) }
{
    let mut patterns = Vec::new(alloc);
    for (number, text) in texts.iter().enumerate() {
        let pattern = Pattern::new(alloc, text).map_err(|refusal| refusal_of(number, refusal))?;
        patterns.push(pattern)?;
    }
    Ok(patterns)
}

/// The error for the text at index `number`.
fn refusal_of(number: usize, refusal: PatternRefusal) -> SetRefusal
    ensures { result ≡ refusal_of number refusal }
{
    match refusal {
        PatternRefusal::Syntax(error) => SetRefusal::Syntax(number, error),
        PatternRefusal::Memory => SetRefusal::Memory,
    }
}

/// Parses all alternatives of all texts. The error is the fault of the first text that has one, or a failed allocation.
pub fn read_braces<A: Allocator + Copy>(
    alloc: A,
    texts: &[&str],
) -> Result<Vec<Pattern<A>, A>, BraceSetRefusal>
    ensures patterns { IfOk result
        (λ patterns. AreAlternativesOf (map (λ t. t.now) texts.now) patterns.items) }
    ensures refused { IfErr result (RefusesBraceTexts (map (λ t. t.now) texts.now)) }
{
    let mut patterns = Vec::new(alloc);
    for (number, text) in texts.iter().enumerate() {
        let mut found = read_alternatives(alloc, number, text)?;
        patterns.append(&mut found)?;
    }
    Ok(patterns)
}

/// Parses all alternatives of the text at index `number`. The error is the fault of that text, or a failed allocation.
fn read_alternatives<A: Allocator + Copy>(
    alloc: A,
    number: usize,
    text: &str,
) -> Result<Vec<Pattern<A>, A>, BraceSetRefusal>
    ensures patterns { IfOk result (λ patterns. AreAlternatives (chars text.now) patterns.items) }
    ensures accepted { IfOk result (λ _. HasPatterns text.now) }
    ensures refused { IfErr result (RefusesText text.now number) }
{
    let alternatives = expand(alloc, text).map_err(|refusal| of_braces(number, refusal))?;
    let texts = strs_of(alloc, alternatives.as_slice())?;
    let patterns = read_patterns(alloc, texts.as_slice());
    patterns.map_err(|refusal| of_alternatives(number, refusal))
}

/// The texts, borrowed.
fn strs_of<A: Allocator + Copy>(alloc: A, texts: &[String<A>]) -> Result<Vec<&str, A>, AllocError>
    ensures { IfOk result (λ strs. map (λ t. t.now) strs.items ≡ map string_bytes texts.now) }
{
    let mut strs = Vec::new(alloc);
    for text in texts {
        strs.push(text.as_str())?;
    }
    Ok(strs)
}

/// The error for the braces of the text at index `number`.
fn of_braces(number: usize, refusal: BraceRefusal) -> BraceSetRefusal
    ensures { result ≡ of_braces number refusal }
{
    match refusal {
        BraceRefusal::Syntax(error) => BraceSetRefusal::Braces(number, error),
        BraceRefusal::Memory => BraceSetRefusal::Memory,
    }
}

/// The error for an alternative of the text at index `number`.
fn of_alternatives(number: usize, refusal: SetRefusal) -> BraceSetRefusal
    ensures { result ≡ of_alternatives number refusal }
{
    match refusal {
        SetRefusal::Syntax(alternative, error) => {
            BraceSetRefusal::Pattern(number, alternative, error)
        }
        SetRefusal::Memory => BraceSetRefusal::Memory,
    }
}
