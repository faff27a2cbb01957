//! Asking the patterns of a set that may match a text.
ghost use Rattle.std.specs.Prelude.{◌≡◌, ◌≢◌, ℕ, [], ◌<◌, false, ◌⊎◌, ◌↔◌, length, bit_or, All, Contains, IfSome};
ghost use Rattle.std.specs.Prelude.{IsSomeAnd, IsTrue, IsOk, IfOk, OnOk};
ghost use Rattle.std.specs.List.Sorted.{IsNonDecreasing};
ghost use Rattle.glob_set.specs.Private.Asking.{AreAsked, AreMatches, IsFirstOf, IsLastOf, earlier, later};
ghost use Rattle.glob_set.specs.Private.Pairs.{text_bits};
ghost use Rattle.glob_set.specs.Sets.{AreShort, MatchesAt};

use crate::found::Found;
use crate::pairs::{Need, text_bits, text_class};
use crate::set::PatternSet;
use std::alloc::{AllocError, Allocator};

/// How many patterns there must be to ask before the bits of a text are computed. Fewer are asked faster without them.
const FEWEST_WITH_BITS: usize = 3;

impl<A: Allocator + Copy> PatternSet<A> {
    /// The patterns without a key that may match the text. Those with a key go into `found`. If an allocation for them
    /// fails, all patterns are listed.
    #[inline(always)]
    pub(crate) fn listed_for(&self, text: &str, found: &mut Found<A>) -> &[usize]
        requires { found.old ≡ record { items = []; is_full = false } }
        ensures { AreAsked self.now.options self.now.patterns text.now result.now found.new.items }
    {
        let bytes = text.as_bytes();
        self.keyed.find_in(bytes, found);
        if found.is_full() {
            return self.all.numbers();
        }
        self.buckets.of_class(text_class(bytes))
    }

    /// The first of these numbers whose pattern matches the text.
    #[inline(always)]
    pub(crate) fn first_of(
        &self,
        numbers: &[usize],
        text: &str,
        bits: Option<u128>,
    ) -> Result<Option<usize>, AllocError>
        requires within { All (λ k. k < length self.now.patterns) numbers.now }
        requires order { IsNonDecreasing numbers.now }
        requires bits { IfSome bits (λ known. known ≡ text_bits text.now) }
        ensures answer { IfOk result
            (IsFirstOf self.now.options self.now.patterns text.now numbers.now) }
        ensures short { AreShort self.now.patterns → IsOk result }
    {
        for number in numbers {
            if self.matches_at(*number, text, bits)? {
                return Ok(Some(*number));
            }
        }
        Ok(None)
    }

    /// The last of these numbers whose pattern matches the text.
    #[inline(always)]
    pub(crate) fn last_of(
        &self,
        numbers: &[usize],
        text: &str,
        bits: Option<u128>,
    ) -> Result<Option<usize>, AllocError>
        requires within { All (λ k. k < length self.now.patterns) numbers.now }
        requires order { IsNonDecreasing numbers.now }
        requires bits { IfSome bits (λ known. known ≡ text_bits text.now) }
        ensures answer { IfOk result
            (IsLastOf self.now.options self.now.patterns text.now numbers.now) }
        ensures short { AreShort self.now.patterns → IsOk result }
    {
        let mut left = numbers.len();
        while left > 0 {
            left -= 1;
            if self.matches_at(numbers[left], text, bits)? {
                return Ok(Some(numbers[left]));
            }
        }
        Ok(None)
    }

    /// Replaces the content of `numbers` with the numbers of all patterns that match the text, in any order.
    pub(crate) fn find_matches<B: Allocator>(
        &self,
        text: &str,
        numbers: &mut Vec<usize, B>,
    ) -> Result<(), AllocError>
        ensures { OnOk result
            (AreMatches self.now.options self.now.patterns text.now numbers.new.items) }
    {
        numbers.clear();
        self.push_matches(text, numbers)
    }

    /// Adds the numbers of all patterns that match the text, in any order.
    fn push_matches<B: Allocator>(
        &self,
        text: &str,
        numbers: &mut Vec<usize, B>,
    ) -> Result<(), AllocError>
        requires { numbers.old.items ≡ [] }
        ensures { OnOk result
            (AreMatches self.now.options self.now.patterns text.now numbers.new.items) }
    {
        let mut found = Found::new(*self.patterns.allocator());
        let listed = self.listed_for(text, &mut found);
        let bits = bits_for(text, listed, found.numbers());
        self.push_of(listed, text, bits, numbers)?;
        self.push_of(found.numbers(), text, bits, numbers)
    }

    /// Adds the asked numbers whose patterns match the text.
    fn push_of<B: Allocator>(
        &self,
        asked: &[usize],
        text: &str,
        bits: Option<u128>,
        numbers: &mut Vec<usize, B>,
    ) -> Result<(), AllocError>
        requires within { All (λ k. k < length self.now.patterns) asked.now }
        requires bits { IfSome bits (λ known. known ≡ text_bits text.now) }
        ensures only { (k : ℕ) → Contains numbers.new.items k
            → Contains numbers.old.items k
            ⊎ MatchesAt self.now.options self.now.patterns text.now k }
        ensures kept { (k : ℕ) → Contains numbers.old.items k → Contains numbers.new.items k }
        ensures all { OnOk result ((k : ℕ) → Contains asked.now k
            → MatchesAt self.now.options self.now.patterns text.now k
            → Contains numbers.new.items k) }
    {
        for number in asked {
            if self.matches_at(*number, text, bits)? {
                numbers.push(*number)?;
            }
        }
        Ok(())
    }

    /// Whether pattern `number` matches the text. `bits` are the bits of the text, if they are known.
    #[inline(always)]
    fn matches_at(&self, number: usize, text: &str, bits: Option<u128>) -> Result<bool, AllocError>
        requires number { number < length self.now.patterns }
        requires bits { IfSome bits (λ known. known ≡ text_bits text.now) }
        ensures answer { IfOk result (λ yes. IsTrue yes
            ↔ MatchesAt self.now.options self.now.patterns text.now number) }
        ensures short { AreShort self.now.patterns → IsOk result }
    {
        if lacks(&self.needs[number], bits) {
            return Ok(false);
        }
        self.patterns[number].matches_with(text, self.options)
    }
}

/// Whether a text with these bits, if they are known, lacks one that is needed.
#[inline(always)]
fn lacks(need: &Need, bits: Option<u128>) -> bool
    ensures { IsTrue result → IsSomeAnd bits (λ known. bit_or need.now.bits known ≢ known) }
{
    match bits {
        Some(known) => need.bits | known != known,
        None => false,
    }
}

/// The bits of the text, unless only few patterns are asked about it.
#[inline(always)]
pub(crate) fn bits_for(text: &str, listed: &[usize], found: &[usize]) -> Option<u128>
    ensures { IfSome result (λ known. known ≡ text_bits text.now) }
{
    if listed.len() < FEWEST_WITH_BITS && found.len() < FEWEST_WITH_BITS {
        return None;
    }
    Some(text_bits(text.as_bytes()))
}

/// The lower of two numbers, or the only one, or none.
pub(crate) fn earlier(one: Option<usize>, other: Option<usize>) -> Option<usize>
    ensures { result ≡ earlier one other }
{
    match (one, other) {
        (Some(one), Some(other)) => Some(one.min(other)),
        (one, None) => one,
        (None, other) => other,
    }
}

/// The higher of two numbers, or the only one, or none.
pub(crate) fn later(one: Option<usize>, other: Option<usize>) -> Option<usize>
    ensures { result ≡ later one other }
{
    match (one, other) {
        (Some(one), Some(other)) => Some(one.max(other)),
        (one, None) => one,
        (None, other) => other,
    }
}
