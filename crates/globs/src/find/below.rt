//! Patterns of paths below the place to which they lead.
ghost use Rattle.std.specs.Prelude.{◌≡◌, true, OnOk, chars, map};
ghost use Rattle.std.specs.List.{list_any};
ghost use Rattle.glob_pattern.specs.Grammar.Units.{IsAccepted};
ghost use Rattle.glob_set.specs.BraceSets.{AreAccepted};
ghost use Rattle.glob_text.specs.Pieces.{pieces};
ghost use Rattle.globs.specs.Find.Below.{are_below, is_below, is_no_name};

use crate::find::leads::split_lead;
use crate::patterns::PatternFault;
use glob_pattern::{Pattern, PatternRefusal};
use std::alloc::Allocator;

/// Whether a pattern leads only to paths below a place: after its lead no component is empty, `.` or `..`.
#[tactic(auto, unfolding(crate::specs::Find::Below::is_below))]
pub fn is_below(pattern: &str) -> bool
    ensures { result ≡ is_below pattern.now }
{
    let (_, below) = split_lead(pattern);
    !leads_elsewhere(below)
}

/// Whether each of the patterns leads only below a place.
pub fn are_below(patterns: &[&str]) -> bool
    ensures { result ≡ are_below (map (λ p. p.now) patterns.now) }
{
    for pattern in patterns {
        if !is_below(pattern) {
            return false;
        }
    }
    true
}

/// The place, in characters from 0, of the first component after a pattern's lead that is empty, `.` or `..`.
pub fn astray_column(pattern: &str) -> usize {
    let (lead, below) = split_lead(pattern);
    let mut column = lead.len();
    for piece in below.split('/') {
        if is_no_name(piece) {
            return column;
        }
        column = column
            .saturating_add(piece.chars().count())
            .saturating_add(1);
    }
    column
}

/// Checks that each pattern is valid, and leads below a place. The error says what is wrong with the first pattern that
/// fails, or that an allocation failed.
pub fn check_patterns<'a, A: Allocator + Copy>(
    alloc: A,
    patterns: &[&'a str],
) -> Result<(), PatternFault<'a>>
    ensures below { OnOk result (are_below (map (λ p. p.now) patterns.now) ≡ true) }
    ensures accepted { OnOk result (AreAccepted (map (λ p. p.now) patterns.now)) }
{
    for pattern in patterns {
        check_pattern(alloc, pattern)?;
    }
    Ok(())
}

/// Checks that a pattern is valid, and leads below a place.
fn check_pattern<A: Allocator + Copy>(alloc: A, pattern: &str) -> Result<(), PatternFault<'_>>
    ensures below { OnOk result (is_below pattern.now ≡ true) }
    ensures accepted { OnOk result (IsAccepted (chars pattern.now)) }
{
    if !is_below(pattern) {
        return Err(PatternFault::Astray(pattern, astray_column(pattern)));
    }
    match Pattern::new(alloc, pattern) {
        Ok(_) => Ok(()),
        Err(PatternRefusal::Syntax(error)) => Err(PatternFault::Syntax(pattern, error)),
        Err(PatternRefusal::Memory) => Err(PatternFault::Memory),
    }
}

/// Whether a component of a text is empty, `.` or `..`.
fn leads_elsewhere(text: &str) -> bool
    ensures { result ≡ list_any is_no_name (pieces text.now) }
{
    text.split('/').any(|piece| is_no_name(piece))
}

/// Whether a component is empty, `.` or `..`.
fn is_no_name(piece: &str) -> bool
    ensures { result ≡ is_no_name piece.now }
{
    piece.is_empty() || piece == "." || piece == ".."
}
