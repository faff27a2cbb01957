//! Sets of patterns: which of them match a text.
ghost use Rattle.std.specs.Prelude.{◌≡◌, ℕ, List, [], ◌↔◌, length, map, IsTrue, IsOk, IfOk, IfErr, OnOk, OnErr};
ghost use Rattle.std.specs.Path.{path_bytes};
ghost use Rattle.glob_set.specs.BraceSets.{AnyAlternativeMatches, AreAccepted, AreAlternativesOf, RefusesBraceTexts};
ghost use Rattle.glob_set.specs.Sets.{AnyMatch, FirstMatch, LastMatch, all_matches, AreShort, RefusesTexts};

mod asking;

use crate::buckets::{Bucket, Buckets, bucket_of_all};
use crate::error::{BraceSetRefusal, SetRefusal};
use crate::found::Found;
use crate::keyed::{Keyed, slots_for};
use crate::needs::needs_of;
use crate::pairs::Need;
use crate::rarest::keys_of;
use crate::reading::{read_braces, read_patterns};
use asking::{bits_for, earlier, later};
use glob_pattern::{MatchOptions, Pattern};
use std::alloc::{AllocError, Allocator, Global};
use std::marker::Model;
use std::path::Path;

/// A list of patterns and the options that they match by. The set reports patterns by their **numbers**, counted from
/// 0. It rejects most patterns without trying them, because the text lacks bytes that every match has. A large set
/// looks up the text's components, their beginnings and the text's ending in a table, and so finds the patterns in
/// which one of these is rare. No clause says how many patterns are tried.
///
/// ```text
/// let ignored = PatternSet::from_texts(alloc, &["**/*.o", "**/target/**"], options)?;
/// ignored.first_match("src/a.o")?    // Some(0)
/// ignored.is_match("src/a.rs")?      // false
/// ```
///
/// A call that fails leaves the set as it was.
#[derive(Drop)]
pub struct PatternSet<A: Allocator = Global> {
    patterns: Vec<Pattern<A>, A>,
    // for each pattern, what all texts have that it matches
    needs: Vec<Need, A>,
    // the patterns that are found by a key
    keyed: Keyed<A>,
    // the numbers of the other patterns, by the class of the texts that they may match
    buckets: Buckets<A>,
    // the numbers of all patterns, which are asked if a text finds many and an allocation fails
    all: Bucket<A>,
    options: MatchOptions,
}

impl<A: Allocator> Model for PatternSet<A> {
    ghost use Rattle.std.specs.Prelude.{length};
    ghost use Rattle.glob_set.specs.Private.Buckets.{AreBuckets, IsAll};
    ghost use Rattle.glob_set.specs.Private.Keys.{AreKeys};
    ghost use Rattle.glob_set.specs.Private.Pairs.{AreNeeds};
    ghost use Rattle.glob_set.specs.Sets.{Set};

    ghost Value = { Set };

    ghost view = { λ set. record { patterns = set.patterns.items; options = set.options } };

    ghost invariant = { λ set. AreNeeds set.patterns.items set.needs.items
        × AreKeys set.patterns.items set.keyed
        × AreBuckets set.needs.items set.keyed (length set.needs.items) set.buckets
        × IsAll (length set.patterns.items) set.all };
}

impl<A: Allocator> PatternSet<A> {
    /// The patterns in order, number 0 first.
    pub fn patterns(&self) -> &[Pattern<A>]
        ensures { result.now ≡ self.now.patterns }
    {
        self.patterns.as_slice()
    }

    /// The options that the patterns match by.
    pub fn options(&self) -> MatchOptions
        ensures { result ≡ self.now.options }
    {
        self.options
    }

    /// The number of patterns: 2 for `*.o` and `target/**`.
    pub fn len(&self) -> usize
        ensures { result ≡ length self.now.patterns }
    {
        self.patterns.len()
    }

    /// Whether the set has no patterns, and so matches nothing.
    pub fn is_empty(&self) -> bool
        ensures { IsTrue result ↔ (length self.now.patterns ≡ 0) }
    {
        self.patterns.len() == 0
    }
}

impl<A: Allocator + Copy> PatternSet<A> {
    /// A set of these patterns, numbered in this order. Fails only if allocation fails.
    pub fn new(
        alloc: A,
        patterns: Vec<Pattern<A>, A>,
        options: MatchOptions,
    ) -> Result<Self, AllocError>
        ensures { IfOk result
            (λ set. set ≡ record { patterns = patterns.items; options = options }) }
    {
        let needs = needs_of(alloc, patterns.as_slice())?;
        let keys = keys_of(alloc, patterns.as_slice())?;
        let buckets = Buckets::new(alloc, needs.as_slice(), keys.as_slice())?;
        let keyed = Keyed::new(alloc, keys, slots_for(patterns.len()))?;
        let all = bucket_of_all(alloc, patterns.len())?;
        Ok(PatternSet {
            patterns,
            needs,
            keyed,
            buckets,
            all,
            options,
        })
    }

    /// Parses the texts, such as `*.o` and `target/**`, and makes a set of the patterns, in this order.
    ///
    /// The error is [`Syntax`](SetRefusal::Syntax) with the number and the fault of the first text that is not
    /// accepted, or [`Memory`](SetRefusal::Memory) if an allocation fails.
    pub fn from_texts(alloc: A, texts: &[&str], options: MatchOptions) -> Result<Self, SetRefusal>
        ensures set { IfOk result
            (λ set. set ≡ record { patterns = map (λ t. t.now) texts.now; options = options }) }
        ensures accepted { IfOk result (λ _. AreAccepted (map (λ t. t.now) texts.now)) }
        ensures refused { IfErr result (RefusesTexts (map (λ t. t.now) texts.now)) }
    {
        let patterns = read_patterns(alloc, texts)?;
        Ok(Self::new(alloc, patterns, options)?)
    }

    /// Parses all alternatives of all texts, such as `src/*.{c,h}`, and makes a set of the patterns: text by text, each
    /// in the order of [`expand`](crate::braces::expand). The set matches a text exactly when an alternative of one of
    /// the texts does.
    ///
    /// The error is [`Braces`](BraceSetRefusal::Braces) or [`Pattern`](BraceSetRefusal::Pattern) for the first text
    /// with a fault, or [`Memory`](BraceSetRefusal::Memory) if an allocation fails.
    pub fn from_braces(
        alloc: A,
        texts: &[&str],
        options: MatchOptions,
    ) -> Result<Self, BraceSetRefusal>
        ensures alternatives { IfOk result
            (λ set. AreAlternativesOf (map (λ t. t.now) texts.now) set.patterns) }
        ensures options { IfOk result (λ set. set.options ≡ options) }
        ensures matches { IfOk result (λ set. (text : List ℕ) → AnyMatch options set.patterns text
            ↔ AnyAlternativeMatches options (map (λ t. t.now) texts.now) text) }
        ensures refused { IfErr result (RefusesBraceTexts (map (λ t. t.now) texts.now)) }
    {
        let patterns = read_braces(alloc, texts)?;
        Ok(Self::new(alloc, patterns, options)?)
    }

    /// Whether a pattern of the set matches the text: for `*.o` and `target/**`, `a.o` is matched, and `a.rs` is not.
    ///
    /// The error is a failed allocation. If each pattern has at most 63 tokens (characters, wildcards and brackets),
    /// the call succeeds.
    pub fn is_match(&self, text: &str) -> Result<bool, AllocError>
        ensures answer { IfOk result
            (λ yes. IsTrue yes ↔ AnyMatch self.now.options self.now.patterns text.now) }
        ensures short { AreShort self.now.patterns → IsOk result }
    {
        Ok(self.first_match(text)?.is_some())
    }

    /// The number of the first pattern that matches the text, or `None`. For `a*` and `*b` it is 0 for `ab` and 1 for
    /// `b`.
    ///
    /// The error is that of [`is_match`](Self::is_match).
    pub fn first_match(&self, text: &str) -> Result<Option<usize>, AllocError>
        ensures answer { IfOk result
            (FirstMatch self.now.options self.now.patterns text.now) }
        ensures short { AreShort self.now.patterns → IsOk result }
    {
        let mut found = Found::new(*self.patterns.allocator());
        let listed = self.listed_for(text, &mut found);
        let bits = bits_for(text, listed, found.numbers());
        let listed = self.first_of(listed, text, bits)?;
        let found = self.first_of(found.numbers(), text, bits)?;
        Ok(earlier(listed, found))
    }

    /// The number of the last pattern that matches the text, or `None`. For `a*` and `*b` it is 1 for `ab` and 0 for
    /// `a`.
    ///
    /// The error is that of [`is_match`](Self::is_match).
    pub fn last_match(&self, text: &str) -> Result<Option<usize>, AllocError>
        ensures answer { IfOk result
            (LastMatch self.now.options self.now.patterns text.now) }
        ensures short { AreShort self.now.patterns → IsOk result }
    {
        let mut found = Found::new(*self.patterns.allocator());
        let listed = self.listed_for(text, &mut found);
        let bits = bits_for(text, listed, found.numbers());
        let listed = self.last_of(listed, text, bits)?;
        let found = self.last_of(found.numbers(), text, bits)?;
        Ok(later(listed, found))
    }

    /// Replaces the content of `numbers` with the numbers of all patterns that match the text, in ascending order. For
    /// `a*` and `*b` these are 0 and 1 for `ab`, and none for `c`.
    ///
    /// The error is a failed allocation, for `numbers` or for a match, after which `numbers` is empty.
    pub fn matches_into<B: Allocator>(
        &self,
        text: &str,
        numbers: &mut Vec<usize, B>,
    ) -> Result<(), AllocError>
        ensures all { OnOk result
            (numbers.new.items ≡ all_matches self.now.options self.now.patterns text.now) }
        ensures none { OnErr result (numbers.new.items ≡ []) }
    {
        match self.find_matches(text, numbers) {
            Ok(()) => {
                // Patterns with a key come after the others, and twice if all patterns were asked.
                numbers.as_mut_slice().sort_unstable();
                numbers.dedup();
                Ok(())
            }
            Err(error) => {
                numbers.clear();
                Err(error)
            }
        }
    }

    /// [`is_match`](Self::is_match) for the path's text, with the same error.
    pub fn is_match_path(&self, path: Path<'_>) -> Result<bool, AllocError>
        ensures answer { IfOk result (λ yes. IsTrue yes
            ↔ AnyMatch self.now.options self.now.patterns (path_bytes path.entry)) }
        ensures short { AreShort self.now.patterns → IsOk result }
    {
        self.is_match(path.as_str())
    }

    /// [`first_match`](Self::first_match) for the path's text, with the same error.
    pub fn first_match_path(&self, path: Path<'_>) -> Result<Option<usize>, AllocError>
        ensures answer { IfOk result
            (FirstMatch self.now.options self.now.patterns (path_bytes path.entry)) }
        ensures short { AreShort self.now.patterns → IsOk result }
    {
        self.first_match(path.as_str())
    }

    /// [`last_match`](Self::last_match) for the path's text, with the same error.
    pub fn last_match_path(&self, path: Path<'_>) -> Result<Option<usize>, AllocError>
        ensures answer { IfOk result
            (LastMatch self.now.options self.now.patterns (path_bytes path.entry)) }
        ensures short { AreShort self.now.patterns → IsOk result }
    {
        self.last_match(path.as_str())
    }

    /// [`matches_into`](Self::matches_into) for the path's text, with the same error.
    pub fn matches_path_into<B: Allocator>(
        &self,
        path: Path<'_>,
        numbers: &mut Vec<usize, B>,
    ) -> Result<(), AllocError>
        ensures all { OnOk result (numbers.new.items
            ≡ all_matches self.now.options self.now.patterns (path_bytes path.entry)) }
        ensures none { OnErr result (numbers.new.items ≡ []) }
    {
        self.matches_into(path.as_str(), numbers)
    }
}
