//! Patterns: parsing them, and matching texts.
ghost use Rattle.std.specs.Prelude.{◌≡◌, ℕ, ◌*◌, ◌≤◌, ◌↔◌, [], length, IsTrue, IsOk, IfOk, IfErr, IfNone, IfSome, chars};
ghost use Rattle.std.specs.Str.{is_utf8};
ghost use Rattle.glob_pattern.specs.Matching.Literals.{HasLiteral};
ghost use Rattle.glob_pattern.specs.Matching.Short.{IsShort};
ghost use Rattle.std.specs.Path.{path_bytes};
ghost use Rattle.glob_pattern.specs.Grammar.Units.{IsAccepted};
ghost use Rattle.glob_pattern.specs.Grammar.Faults.{Refuses};
ghost use Rattle.glob_pattern.specs.Matching.Texts.{Matches};
ghost use Rattle.glob_pattern.specs.Matching.Options.{new_options};

mod automaton;
mod char_masks;
mod classes;
mod compare;
mod compiled;
mod ends;
mod escape;
mod judge;
mod needle;
mod tokens;

use crate::error::PatternRefusal;
use crate::grammar;
use crate::options::MatchOptions;
use compiled::Compiled;
use std::alloc::{AllocError, Allocator, Global};
use std::marker::Model;
use std::path::Path;
pub use tokens::{TokenKind, token_kind, token_takes, tokens_len};

/// A parsed pattern.
///
/// | In a pattern | Matches |
/// |---|---|
/// | `?` | any one character |
/// | `*` | any number of characters |
/// | `**` | any number of whole components; it must be a whole component itself |
/// | `[abc]`, `[a-z]` | one character that is listed or in a range |
/// | `[!abc]` | one character that is not listed |
/// | any other character | itself |
#[derive(Drop)]
pub struct Pattern<A: Allocator = Global> {
    text: String<A>,
    compiled: Compiled<A>,
}

impl<A: Allocator> Model for Pattern<A> {
    ghost use Rattle.std.specs.Prelude.{List, ℕ, string_bytes, chars};
    ghost use Rattle.glob_pattern.specs.Grammar.Units.{HasTokens};

    ghost Value = { List ℕ };

    ghost view = { λ p. string_bytes p.text };

    ghost invariant = { λ p. HasTokens (chars (string_bytes p.text)) p.compiled };
}

impl<A: Allocator> Pattern<A> {
    /// The text that the pattern was parsed from, such as `a/*.rs`. It is accepted: parsing it again gives an equal
    /// pattern.
    ///
    /// ```text
    /// assert_eq!(Pattern::new(alloc, "a/*.rs")?.as_str(), "a/*.rs");
    /// ```
    #[tactic(auto, unfolding(crate::specs::Grammar::Units::IsAccepted))]
    pub fn as_str(&self) -> &str
        ensures text { result.now ≡ self.now }
        ensures accepted { IsAccepted (chars self.now) }
    {
        self.text.as_str()
    }
}

impl<A: Allocator + Copy> Pattern<A> {
    /// Parses a pattern. `src/**/*.rs` is accepted, and `src/**.rs` is not.
    ///
    /// The error is [`Syntax`](PatternRefusal::Syntax) with the first fault from the left, its place in characters from
    /// 0, if the text is not accepted, or [`Memory`](PatternRefusal::Memory) if an allocation fails.
    ///
    /// ```text
    /// let pattern = Pattern::new(alloc, "src/**/*.rs")?;
    /// assert!(pattern.matches("src/walk/main.rs")?);
    /// ```
    #[tactic(auto, unfolding(crate::specs::Grammar::Units::IsAccepted))]
    pub fn new(alloc: A, pattern: &str) -> Result<Self, PatternRefusal>
        ensures accepted { IfOk result (λ _. IsAccepted (chars pattern.now)) }
        ensures text { IfOk result (λ p. p ≡ pattern.now) }
        ensures refused { IfErr result (Refuses (chars pattern.now)) }
    {
        let tokens = grammar::read_tokens(alloc, pattern)?;
        let compiled = Compiled::new(alloc, tokens)?;
        let text = String::from_str(alloc, pattern)?;
        Ok(Pattern { text, compiled })
    }

    /// [`new`](Self::new) by the name that the trait `FromStr` uses, with the same errors. `from_str(alloc, "*.rs")`
    /// equals `new(alloc, "*.rs")`.
    pub fn from_str(alloc: A, s: &str) -> Result<Self, PatternRefusal>
        ensures accepted { IfOk result (λ _. IsAccepted (chars s.now)) }
        ensures text { IfOk result (λ p. p ≡ s.now) }
        ensures refused { IfErr result (Refuses (chars s.now)) }
    {
        Self::new(alloc, s)
    }

    /// The empty pattern, which matches only the empty text: `""`, not `"a"`. It allocates nothing.
    pub fn default(alloc: A) -> Self
        ensures { result ≡ [] }
    {
        Pattern {
            text: String::new(alloc),
            compiled: Compiled::empty(alloc),
        }
    }

    /// An equal pattern on the same allocator: a clone of `*.rs` is `*.rs` and matches the same texts. Fails only if
    /// allocation fails.
    pub fn clone(&self) -> Result<Self, AllocError>
        ensures { IfOk result (λ p. p ≡ self.now) }
    {
        Ok(Pattern {
            text: self.text.clone()?,
            compiled: self.compiled.clone()?,
        })
    }

    /// Whether the pattern matches the whole text, case-sensitively, with neither the separator rule nor the dot rule.
    /// This is [`matches_with`](Self::matches_with) under `MatchOptions::new()`: `*.rs` matches `main.rs` and
    /// `src/main.rs`.
    ///
    /// The error is a failed allocation. With at most 63 tokens (characters, wildcards and brackets) the call succeeds.
    ///
    /// ```text
    /// let pattern = Pattern::new(alloc, "*.rs")?;
    /// assert!(pattern.matches("src/main.rs")?);
    /// assert!(!pattern.matches("src/main.c")?);
    /// ```
    #[inline(always)]
    pub fn matches(&self, str: &str) -> Result<bool, AllocError>
        ensures answer { IfOk result
            (λ yes. IsTrue yes ↔ Matches new_options (chars self.now) (chars str.now)) }
        ensures short { IsShort (chars self.now) → IsOk result }
    {
        self.matches_with(str, MatchOptions::new())
    }

    /// Whether the pattern matches the whole text: whether the text splits into one allowed piece per token. `*.rs`
    /// matches `src/main.rs`, but not under the separator rule.
    ///
    /// The error is a failed allocation. With at most 63 tokens (characters, wildcards and brackets) the call succeeds.
    ///
    /// ```text
    /// let options = MatchOptions {
    ///     require_literal_separator: true,
    ///     ..MatchOptions::new()
    /// };
    /// assert!(!Pattern::new(alloc, "*.rs")?.matches_with("src/main.rs", options)?);
    /// ```
    #[inline(always)]
    pub fn matches_with(&self, str: &str, options: MatchOptions) -> Result<bool, AllocError>
        ensures answer { IfOk result
            (λ yes. IsTrue yes ↔ Matches options (chars self.now) (chars str.now)) }
        ensures short { IsShort (chars self.now) → IsOk result }
    {
        self.compiled.matches(self.text.as_str(), str, options)
    }

    /// The answer of [`matches_with`](Self::matches_with), and a count of questions: how often it would ask a token
    /// whether it takes a character, without comparing the ends first. The count is at most the pattern's characters
    /// times the text's, and for a match at least the text's characters: `a` against the text `a` gives `(true, 1)`.
    /// Fails only as [`matches_with`](Self::matches_with) does.
    #[inline(always)]
    pub fn matches_counted(
        &self,
        str: &str,
        options: MatchOptions,
    ) -> Result<(bool, u128), AllocError>
        ensures answer { IfOk result
            (λ counted. IsTrue counted.0 ↔ Matches options (chars self.now) (chars str.now)) }
        ensures most { IfOk result
            (λ counted. counted.1 ≤ length (chars self.now) * length (chars str.now)) }
        ensures least { IfOk result
            (λ counted. IsTrue counted.0 → length (chars str.now) ≤ counted.1) }
        ensures short { IsShort (chars self.now) → IsOk result }
    {
        self.compiled.matches_counted(str, options)
    }

    /// [`matches`](Self::matches) for the path's text, with the same error: `src/*` matches the path `src/a.rs`.
    pub fn matches_path(&self, path: Path<'_>) -> Result<bool, AllocError>
        ensures answer { IfOk result (λ yes. IsTrue yes
            ↔ Matches new_options (chars self.now) (chars (path_bytes path.entry))) }
        ensures short { IsShort (chars self.now) → IsOk result }
    {
        self.matches(path.as_str())
    }

    /// [`matches_with`](Self::matches_with) for the path's text, with the same error. Under the dot rule `src/*` does
    /// not match the path `src/.git`.
    pub fn matches_path_with(
        &self,
        path: Path<'_>,
        options: MatchOptions,
    ) -> Result<bool, AllocError>
        ensures answer { IfOk result (λ yes. IsTrue yes
            ↔ Matches options (chars self.now) (chars (path_bytes path.entry))) }
        ensures short { IsShort (chars self.now) → IsOk result }
    {
        self.matches_with(path.as_str(), options)
    }
}

/// A quick test of a text's bytes: `false` means that the pattern does not match the text; `true` promises nothing. It
/// looks only for the pattern's literals at both ends and for a needle. `*.rs` rejects `main.c`, but not `main.rs`. The
/// bytes need not be UTF-8.
#[inline(always)]
pub fn may_match<A: Allocator>(pattern: &Pattern<A>, bytes: &[u8], options: MatchOptions) -> bool
    ensures { IsTrue (is_utf8 bytes.now)
        → Matches options (chars pattern.now) (chars bytes.now) → IsTrue result }
{
    pattern
        .compiled
        .may_match(pattern.text.as_str(), bytes, options)
}

/// The character of token `number`, counted from 0, if that is a literal: `.` for token 2 of `a*.rs`. `None` if it is a
/// wildcard or a bracket, or if there is no such token.
pub fn literal_at<A: Allocator>(pattern: &Pattern<A>, number: usize) -> Option<char>
    ensures literal { IfSome result (HasLiteral (chars pattern.now) number) }
    ensures none { IfNone result ((c : ℕ) → ¬ (HasLiteral (chars pattern.now) number c)) }
{
    pattern.compiled.literal_at(number)
}
