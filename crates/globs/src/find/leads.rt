//! Where patterns lead: the place from which each is searched for.
ghost use Rattle.std.specs.Prelude.{◌≡◌, ◌≢◌, ◌⊎◌, ◌∷◌, ◌++◌, [], ℕ, List, IfOk, OnOk, MatchOption, bytes_eq, map, string_bytes};
ghost use Rattle.std.specs.List.{list_any};
ghost use Rattle.globs.specs.Find.Leads.{below_dots, below_lead, lead_of, leads_of, led, place_at, with_lead};

use glob_tree::child;
use std::alloc::{AllocError, Allocator};

/// The lead of a pattern or a path, and what follows it: `../` and `*.c` for `../*.c`, and `/` and `usr/*` for
/// `/usr/*`.
///
/// The lead consists of the components `.` and `..` at the beginning, each with its `/`, perhaps after a first `/`.
pub fn split_lead(text: &str) -> (&str, &str)
    ensures lead { result.0.now ≡ lead_of text.now }
    ensures below { result.1.now ≡ below_lead text.now }
{
    let below = below_lead(text);
    match text.strip_suffix(below) {
        Some(lead) => (lead, below),
        None => ("", below),
    }
}

/// What follows the lead of a pattern or a path.
fn below_lead(text: &str) -> &str
    ensures { result.now ≡ below_lead text.now }
{
    match text.strip_prefix('/') {
        Some(rest) => below_dots(rest),
        None => below_dots(text),
    }
}

/// A text without the components `.` and `..` at its beginning.
fn below_dots(text: &str) -> &str
    ensures { result.now ≡ below_dots text.now }
{
    let mut below = text;
    while let Some(after) = after_dots(below) {
        below = after;
    }
    below
}

/// What follows the `./` or `../` at the beginning of a text.
fn after_dots(text: &str) -> Option<&str>
    ensures { MatchOption result ((after : List ℕ)
        → (text.now ≢ 46 ∷ 47 ∷ after) × (text.now ≢ 46 ∷ 46 ∷ 47 ∷ after))
        (λ after. (text.now ≡ 46 ∷ 47 ∷ after.now) ⊎ (text.now ≡ 46 ∷ 46 ∷ 47 ∷ after.now)) }
{
    let rest = text.strip_prefix('.')?;
    match rest.strip_prefix('.') {
        Some(up) => up.strip_prefix('/'),
        None => rest.strip_prefix('/'),
    }
}

/// The place to which a lead leads from a directory; an empty directory means the current one. The error is an
/// allocation failure.
///
/// For `src` and `../` it is `src/../`, and for `src` and `/` it is `/`.
pub fn place_at<A: Allocator>(
    alloc: A,
    directory: &str,
    lead: &str,
) -> Result<String<A>, AllocError>
    ensures { IfOk result (λ place. string_bytes place ≡ place_at directory.now lead.now) }
{
    if lead.starts_with('/') {
        String::from_str(alloc, lead)
    } else if lead.is_empty() {
        String::from_str(alloc, directory)
    } else {
        child(alloc, directory, lead)
    }
}

/// The patterns with this lead, from the lead's place on. The error is an allocation failure.
///
/// For `../` and the patterns `../a`, `b` and `../c/*` they are `a` and `c/*`.
pub fn led_patterns<'a, A: Allocator>(
    alloc: A,
    lead: &str,
    patterns: &[&'a str],
) -> Result<Vec<&'a str, A>, AllocError>
    ensures { IfOk result (λ found. map (λ p. p.now) found.items
        ≡ led lead.now (map (λ p. p.now) patterns.now)) }
{
    let mut found = Vec::new(alloc);
    for pattern in patterns {
        add_led(lead, pattern, &mut found)?;
    }
    Ok(found)
}

/// Adds what follows the lead of a pattern, if it has this lead.
fn add_led<'a, A: Allocator>(
    lead: &str,
    pattern: &'a str,
    found: &mut Vec<&'a str, A>,
) -> Result<(), AllocError>
    ensures { OnOk result (map (λ p. p.now) found.new.items
        ≡ map (λ p. p.now) found.old.items ++ led lead.now (pattern.now ∷ [])) }
{
    let (front, below) = split_lead(pattern);
    if front != lead {
        return Ok(());
    }
    found.push(below)?;
    Ok(())
}

/// The leads of some patterns, each once, in the order of their first patterns. The error is an allocation failure.
///
/// For `../a`, `b` and `../c/*` they are `../` and the empty lead.
pub fn leads_of<'a, A: Allocator>(
    alloc: A,
    patterns: &[&'a str],
) -> Result<Vec<&'a str, A>, AllocError>
    ensures { IfOk result (λ leads. map (λ l. l.now) leads.items
        ≡ leads_of (map (λ p. p.now) patterns.now)) }
{
    let mut leads = Vec::new(alloc);
    for pattern in patterns {
        add_lead(pattern, &mut leads)?;
    }
    Ok(leads)
}

/// Adds the lead of a pattern, unless it is already there.
fn add_lead<'a, A: Allocator>(
    pattern: &'a str,
    leads: &mut Vec<&'a str, A>,
) -> Result<(), AllocError>
    ensures { OnOk result (map (λ l. l.now) leads.new.items
        ≡ with_lead (map (λ l. l.now) leads.old.items) pattern.now) }
{
    let (lead, _) = split_lead(pattern);
    if is_among(lead, leads.as_slice()) {
        return Ok(());
    }
    leads.push(lead)?;
    Ok(())
}

/// Whether a lead is among these leads.
fn is_among(lead: &str, leads: &[&str]) -> bool
    ensures { result ≡ list_any (λ l. bytes_eq l lead.now) (map (λ l. l.now) leads.now) }
{
    for other in leads {
        if *other == lead {
            return true;
        }
    }
    false
}
