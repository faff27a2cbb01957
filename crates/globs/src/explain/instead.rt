//! What to write instead of a refused pattern.
ghost use Rattle.std.specs.Prelude.{◌≡◌, ◌↔◌, true, IfOk, IsTrue, chars};
ghost use Rattle.globs.specs.Explain.Hints.{IsMatch};
ghost use Rattle.glob_pattern.specs.Grammar.Units.{IsAccepted};

use glob_pattern::{MatchOptions, Pattern, PatternRefusal};
use std::alloc::{AllocError, Allocator};

/// What might be written instead of a refused pattern: first under these options, and then under the opposite separator
/// rule.
///
/// For `**.rs` it is `**/*.rs`, and for `a[b` it is `a[[]b`. For `a**b` they are `a*b` and, if `*` does not match `/`,
/// `a*/**/*b`.
pub fn valid_forms<A: Allocator + Copy>(
    alloc: A,
    pattern: &str,
    options: MatchOptions,
) -> Result<Vec<String<A>, A>, AllocError> {
    let is_kept = options.require_literal_separator;
    let mut forms = Vec::new(alloc);
    forms.push(with_plain_forms(alloc, pattern, is_kept)?)?;
    forms.push(with_plain_forms(alloc, pattern, !is_kept)?)?;
    Ok(forms)
}

/// Whether `pattern` is a valid pattern that matches `text`.
pub fn is_match<A: Allocator + Copy>(
    alloc: A,
    pattern: &str,
    text: &str,
    options: MatchOptions,
) -> Result<bool, AllocError>
    ensures { IfOk result (λ yes. IsTrue yes ↔ IsMatch options pattern.now text.now) }
{
    match Pattern::new(alloc, pattern) {
        Ok(pattern) => pattern.matches_with(text, options),
        Err(PatternRefusal::Syntax(_)) => Ok(false),
        Err(PatternRefusal::Memory) => Err(AllocError),
    }
}

/// Whether the text is a valid pattern.
pub fn is_accepted<A: Allocator + Copy>(alloc: A, text: &str) -> Result<bool, AllocError>
    ensures { IfOk result (λ yes. yes ≡ true → IsAccepted (chars text.now)) }
{
    match Pattern::new(alloc, text) {
        Ok(_) => Ok(true),
        Err(PatternRefusal::Syntax(_)) => Ok(false),
        Err(PatternRefusal::Memory) => Err(AllocError),
    }
}

/// The pattern with each run of two or more `*` turned into a component of its own, and each unclosed `[` put in a
/// bracket. The contents of brackets stay. `is_kept` says that a `*` matches no `/`.
fn with_plain_forms<A: Allocator>(
    alloc: A,
    pattern: &str,
    is_kept: bool,
) -> Result<String<A>, AllocError> {
    let mut made = String::new(alloc);
    let mut rest = pattern;
    // Each part has at least one byte, so this many rounds suffice. Any rounds left over add nothing.
    for _ in 0..pattern.len() {
        rest = add_part(&mut made, rest, is_kept)?;
    }
    Ok(made)
}

/// Translates the first part of a text, which is two or more `*`, a bracket or a character, and returns what follows
/// it.
fn add_part<'a, A: Allocator>(
    made: &mut String<A>,
    text: &'a str,
    is_kept: bool,
) -> Result<&'a str, AllocError> {
    if text.starts_with("**") {
        let rest = text.trim_start_matches('*');
        add_stars(made, rest, is_kept)?;
        return Ok(rest);
    }
    if let Some(rest) = after_bracket(text) {
        let end = text.len().saturating_sub(rest.len());
        made.push_str(text.get(..end).unwrap_or(""))?;
        return Ok(rest);
    }
    let mut characters = text.chars();
    match characters.next() {
        Some('[') => made.push_str("[[]")?,
        Some(c) => made.push(c)?,
        None => {}
    }
    Ok(characters.as_str())
}

/// What follows the bracket at the start of a text. `None` if there is no closed bracket there.
fn after_bracket(text: &str) -> Option<&str> {
    let listed = text.strip_prefix('[')?;
    let mut characters = listed.strip_prefix('!').unwrap_or(listed).chars();
    characters.next()?;
    let (_, rest) = characters.as_str().split_once(']')?;
    Some(rest)
}

/// Adds two or more `*`, followed by `rest`, as a component of their own: `a**/b` becomes `a*/**/b`. If `*` matches
/// `/`, and they are neither at the start of a component nor before a `/`, one `*` is added instead.
fn add_stars<A: Allocator>(
    made: &mut String<A>,
    rest: &str,
    is_kept: bool,
) -> Result<(), AllocError> {
    let is_first = made.is_empty() || made.as_str().ends_with('/');
    let is_before_slash = rest.starts_with('/');
    if !(is_first || is_before_slash || is_kept) {
        return made.push('*');
    }
    if !is_first {
        made.push_str("*/")?;
    }
    made.push_str("**")?;
    if !(rest.is_empty() || is_before_slash) {
        made.push_str("/*")?;
    }
    Ok(())
}
