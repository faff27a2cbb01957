//! What a text needs for a pattern to match it.
ghost use Rattle.std.specs.Prelude.{◌≡◌, ◌<◌, All, IfOk, IfSome, MatchOption, bit_or, chars};
ghost use Rattle.glob_pattern.specs.Matching.Literals.{HasLiteral};
ghost use Rattle.glob_set.specs.Private.Pairs.{class_bit, IsPairAt, IsNeed, AreNeeds, HasSmallClass};

use crate::pairs::{Need, class_bit, pair_class};
use glob_pattern::{Pattern, literal_at, tokens_len};
use std::alloc::{AllocError, Allocator};

/// For each pattern, what all texts that it matches have. Fails only if allocation fails.
pub fn needs_of<A: Allocator + Copy>(
    alloc: A,
    patterns: &[Pattern<A>],
) -> Result<Vec<Need, A>, AllocError>
    ensures needs { IfOk result (λ needs. AreNeeds patterns.now needs.items) }
    ensures small { IfOk result (λ needs. All HasSmallClass needs.items) }
{
    let mut needs = Vec::new(alloc);
    for pattern in patterns {
        needs.push(need_of(pattern))?;
    }
    Ok(needs)
}

/// What all texts matched by the pattern have. For `src/*.rs` these are the pairs of neighbours in `src/` and `.rs`,
/// `s` at the start and `rs` at the end.
fn need_of<A: Allocator>(pattern: &Pattern<A>) -> Need
    ensures need { IsNeed pattern.now result }
    ensures small { HasSmallClass result }
{
    let mut bits = 0;
    let mut class = None;
    for number in 0..tokens_len(pattern) {
        class = pair_at(pattern, number);
        bits = with_class(bits, class);
    }
    Need { bits, class }
}

/// The bits, plus the bit of the class if there is one.
fn with_class(bits: u128, class: Option<u8>) -> u128
    requires { IfSome class (λ k. k < 128) }
    ensures { MatchOption class (result ≡ bits) (λ k. result ≡ bit_or bits (class_bit k)) }
{
    match class {
        Some(class) => bits | class_bit(class),
        None => bits,
    }
}

/// The class of the byte of token `number` and the byte before it, if both are known.
fn pair_at<A: Allocator>(pattern: &Pattern<A>, number: usize) -> Option<u8>
    ensures pair { IfSome result (IsPairAt pattern.now number) }
    ensures small { IfSome result (λ class. class < 128) }
{
    let byte = byte_at(pattern, number)?;
    if number == 0 {
        return Some(pair_class(0, byte));
    }
    let before = byte_at(pattern, number - 1)?;
    Some(pair_class(before, byte))
}

/// The byte of token `number`, if that is an ASCII literal.
pub fn byte_at<A: Allocator>(pattern: &Pattern<A>, number: usize) -> Option<u8>
    ensures literal { IfSome result (HasLiteral (chars pattern.now) number) }
    ensures ascii { IfSome result (λ b. b < 128) }
{
    match literal_at(pattern, number) {
        Some(c) if c.is_ascii() => Some(c as u8),
        _ => None,
    }
}
