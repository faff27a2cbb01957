//! Ignore lists: which paths they ignore, and by which rule.
ghost use Rattle.std.specs.Prelude.{◌≡◌, ◌<◌, ◌≤◌, length, IfOk, IfErr, IfSome, IsOk, OnOk, Bool};
ghost use Rattle.glob_set.specs.Sets.{AreShort};
ghost use Rattle.glob_rules.specs.Deciding.{names, last_naming, last_named, naming_rule, ignores, deciding, deciding_rule, is_ignored};
ghost use Rattle.glob_rules.specs.Lists.{refusals_of, rules_of, RefusesText, AreTaken, rule_options};

use crate::error::RuleRefusal;
use crate::rule::Rule;
use crate::rules::Rules;
use glob_pattern::MatchOptions;
use glob_set::PatternSet;
use std::alloc::{AllocError, Allocator, Global};
use std::marker::Model;

/// The rules of one ignore file, as gitignore(5) has them, for the paths below its directory.
///
/// ```text
/// let list = IgnoreList::new(alloc, "*.o\ntarget/\n!keep.o\n")?;
/// list.is_ignored("src/a.o", false)?         // true
/// list.is_ignored("src/keep.o", false)?      // false
/// list.is_ignored("target", false)?          // false
/// list.is_ignored("target/keep.o", false)?   // true
/// ```
///
/// Paths are relative to the list's directory. They have `/` between names, and none at the start or the end.
#[derive(Drop)]
pub struct IgnoreList<A: Allocator = Global> {
    lines: usize,
    rules: Vec<Rule, A>,
    // the patterns of the rules, in their order
    set: PatternSet<A>,
}

impl<A: Allocator> Model for IgnoreList<A> {
    ghost use Rattle.std.specs.Prelude.{◌≡◌, length};
    ghost use Rattle.glob_rules.specs.Lists.{Ignores, rule_options};

    ghost Value = { Ignores };

    ghost view = { λ list. record {
      lines = list.lines;
      rules = list.rules.items;
      patterns = list.set.patterns;
    } };

    ghost invariant = { λ list. (length list.rules.items ≡ length list.set.patterns)
        × (list.set.options ≡ rule_options) };
}

impl<A: Allocator + Copy> IgnoreList<A> {
    /// Parses a text, with one rule per line. Comments, blank lines and lines that can match nothing give no rule.
    ///
    /// The error is [`Line`](RuleRefusal::Line) for the first refused line, or [`Memory`](RuleRefusal::Memory) if an
    /// allocation fails.
    pub fn new(alloc: A, text: &str) -> Result<Self, RuleRefusal>
        ensures rules { IfOk result (λ list. list ≡ rules_of text.now) }
        ensures taken { IfOk result (λ _. AreTaken text.now) }
        ensures refused { IfErr result (RefusesText text.now) }
    {
        let (list, refusals) = Self::lenient(alloc, text)?;
        match refusals.into_iter().next() {
            Some(refusal) => Err(refusal),
            None => Ok(list),
        }
    }

    /// Parses a text that somebody else wrote: skips the refused lines, and returns why each was refused. The other
    /// lines keep their numbers: in `*.o`, `[é]` and `target/`, the last is line 3.
    ///
    /// All refusals are [`Line`](RuleRefusal::Line), in the order of the lines. The error is a failed allocation.
    #[tactic(auto, unfolding(crate::specs::Lists::rules_of, crate::specs::Lists::refusals_of))]
    pub fn lenient(alloc: A, text: &str) -> Result<(Self, Vec<RuleRefusal, A>), AllocError>
        ensures rules { IfOk result (λ read. read.0 ≡ rules_of text.now) }
        ensures refusals { IfOk result (λ read. read.1.items ≡ refusals_of text.now) }
    {
        let (lines, rules, patterns, refusals) = Rules::read(alloc, text)?.into_parts();
        let set = PatternSet::new(alloc, patterns, rule_options())?;
        Ok((IgnoreList { lines, rules, set }, refusals))
    }

    /// Whether the list ignores a path. `is_directory` says whether the path is a directory, which a symbolic link is
    /// not. A path in an ignored directory is ignored: with `a/` and `!a/b`, so is `a/b`. Otherwise the last rule that
    /// matches the path decides.
    ///
    /// The error is a failed allocation. If each rule's pattern has at most 63 tokens, the call succeeds.
    #[tactic(auto, unfolding(crate::specs::Deciding::is_ignored))]
    pub fn is_ignored(&self, path: &str, is_directory: bool) -> Result<bool, AllocError>
        ensures answer { IfOk result (λ yes. yes ≡ is_ignored self.now path.now is_directory) }
        ensures short { AreShort self.now.patterns → IsOk result }
    {
        let decides = self.deciding(path, is_directory)?;
        Ok(self.ignores(decides))
    }

    /// The rule that decides whether the list ignores a path, or `None` if no rule matches it. With `a/` and `!a/b`,
    /// line 1 decides about `a/b`. The error is that of [`is_ignored`](Self::is_ignored).
    #[tactic(auto, unfolding(crate::specs::Deciding::deciding_rule))]
    pub fn deciding_rule(&self, path: &str, is_directory: bool) -> Result<Option<Rule>, AllocError>
        ensures rule { IfOk result
            (λ rule. rule ≡ deciding_rule self.now path.now is_directory) }
        ensures short { AreShort self.now.patterns → IsOk result }
    {
        match self.deciding(path, is_directory)? {
            Some(number) => Ok(Some(self.rules[number])),
            None => Ok(None),
        }
    }

    /// The last rule that matches the path itself, whatever the list says about the directories above it, or `None` if
    /// no rule does: with `a/` and `!a/b`, it is line 2 for `a/b`. A search that enters no ignored directory needs
    /// nothing more. The error is that of [`is_ignored`](Self::is_ignored).
    #[tactic(auto, unfolding(crate::specs::Deciding::naming_rule))]
    pub fn naming_rule(&self, path: &str, is_directory: bool) -> Result<Option<Rule>, AllocError>
        ensures rule { IfOk result
            (λ rule. rule ≡ naming_rule self.now path.now is_directory) }
        ensures short { AreShort self.now.patterns → IsOk result }
    {
        match self.last_naming(path, is_directory)? {
            Some(number) => Ok(Some(self.rules[number])),
            None => Ok(None),
        }
    }

    /// The number of the rule that decides, counted from 0.
    fn deciding(&self, path: &str, is_directory: bool) -> Result<Option<usize>, AllocError>
        ensures number { IfOk result (λ number. number ≡ deciding self.now path.now is_directory) }
        ensures within { IfOk result
            (λ number. IfSome number (λ k. k < length self.now.rules)) }
        ensures short { AreShort self.now.patterns → IsOk result }
    {
        let bytes = path.as_bytes();
        for place in 0..bytes.len() {
            if bytes[place] == b'/' {
                let above = self.last_naming(&path[..place], true)?;
                if self.ignores(above) {
                    return Ok(above);
                }
            }
        }
        self.last_naming(path, is_directory)
    }

    /// Whether there is a rule, and it is not negative.
    fn ignores(&self, number: Option<usize>) -> bool
        requires { IfSome number (λ k. k < length self.now.rules) }
        ensures { result ≡ ignores self.now number }
    {
        match number {
            Some(number) => !self.rules[number].negative,
            None => false,
        }
    }

    /// The number of the last rule that matches a path.
    fn last_naming(&self, path: &str, is_directory: bool) -> Result<Option<usize>, AllocError>
        ensures number { IfOk result
            (λ number. number ≡ last_named self.now path.now is_directory) }
        ensures within { IfOk result
            (λ number. IfSome number (λ k. k < length self.now.rules)) }
        ensures short { AreShort self.now.patterns → IsOk result }
    {
        match self.set.last_match(path)? {
            Some(number) => self.last_naming_below(path, is_directory, number + 1),
            None => Ok(None),
        }
    }

    /// The number of the last rule below `end` that matches a path.
    fn last_naming_below(
        &self,
        path: &str,
        is_directory: bool,
        end: usize,
    ) -> Result<Option<usize>, AllocError>
        requires { end ≤ length self.now.rules }
        ensures number { IfOk result
            (λ number. number ≡ last_naming self.now path.now is_directory end) }
        ensures within { IfOk result
            (λ number. IfSome number (λ k. k < length self.now.rules)) }
        ensures short { AreShort self.now.patterns → IsOk result }
    {
        let mut left = end;
        while left > 0 {
            left -= 1;
            if self.names(left, path, is_directory)? {
                return Ok(Some(left));
            }
        }
        Ok(None)
    }

    /// Whether rule `number` matches a path.
    fn names(&self, number: usize, path: &str, is_directory: bool) -> Result<bool, AllocError>
        requires { number < length self.now.rules }
        ensures answer { IfOk result
            (λ yes. yes ≡ names self.now path.now is_directory number) }
        ensures short { AreShort self.now.patterns → IsOk result }
    {
        if self.rules[number].directories && !is_directory {
            return Ok(false);
        }
        self.set.patterns()[number].matches_with(path, rule_options())
    }
}

/// The options by which a rule's pattern matches: case-sensitive, with the separator rule, and without the dot rule.
fn rule_options() -> MatchOptions
    ensures { result ≡ rule_options }
{
    MatchOptions {
        require_literal_separator: true,
        ..MatchOptions::new()
    }
}
