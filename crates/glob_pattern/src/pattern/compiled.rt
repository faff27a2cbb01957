//! What a match reads of a pattern, and how it goes: it compares the ends of the text, searches for a needle, and runs
//! the automaton over what is between.
ghost use Rattle.std.specs.Prelude.{◌≡◌, ℕ, ◌+◌, ◌*◌, ◌<◌, ◌≤◌, ◌↔◌, [], length, map, IsTrue, IsOk, IfOk, IfNone, IfSome, chars, slice_index_or};
ghost use Rattle.std.specs.Str.{is_utf8};
ghost use Rattle.glob_pattern.specs.Grammar.Units.{HasTokens};
ghost use Rattle.glob_pattern.specs.Matching.Taking.{has_rules};
ghost use Rattle.glob_pattern.specs.Matching.Texts.{TokensMatch};
ghost use Rattle.glob_pattern.specs.declared.token.Token.TheVariants.{Literal, AnyChar};

use crate::matcher::{Judge, decide_all};
use crate::options::MatchOptions;
use crate::pattern::automaton::Automaton;
use crate::pattern::ends::Ends;
use crate::pattern::judge::TextJudge;
use crate::pattern::needle::Needle;
use crate::token::Token;
use crate::token::bracket::Bracket;
use std::alloc::{AllocError, Allocator};
use std::marker::Model;

/// How many tokens between the ends are searched for a needle. Later literals would seldom reject more texts.
const SEARCHED: usize = 128;

/// What a match reads of a pattern's tokens, made once at parsing.
#[derive(Drop)]
pub struct Compiled<A: Allocator> {
    tokens: Vec<Token<Bracket<A>>, A>,
    ends: Ends,
    needle: Needle,
    // the automaton of the tokens between the ends
    automaton: Automaton<A>,
}

impl<A: Allocator> Model for Compiled<A> {
    ghost use Rattle.std.specs.Prelude.{List};
    ghost use Rattle.glob_pattern.specs.Grammar.Tokens.{Token};
    ghost use Rattle.glob_pattern.specs.Private.Compiled.{IsCompiled};

    ghost Value = { List Token };

    ghost view = { λ c. c.tokens.items };

    ghost invariant = { λ c. IsCompiled c.tokens.items c.ends c.needle c.automaton };
}

impl<A: Allocator> Compiled<A> {
    /// The tokens, in the order of the pattern.
    #[inline(always)]
    pub fn tokens(&self) -> &[Token<Bracket<A>>]
        ensures { result.now ≡ self.now }
    {
        self.tokens.as_slice()
    }

    /// A quick test of a text's bytes: `false` means that the pattern's tokens do not match the text; `true` promises
    /// nothing. The bytes need not be UTF-8.
    #[inline(always)]
    pub fn may_match(&self, pattern: &str, bytes: &[u8], options: MatchOptions) -> bool
        requires { HasTokens (chars pattern.now) self.now }
        ensures { IsTrue (is_utf8 bytes.now) → TokensMatch options self.now (chars bytes.now)
            → IsTrue result }
    {
        let tokens = self.tokens.as_slice();
        self.ends.have_literals(tokens, pattern, bytes, options) && self.needle.may_be_in(bytes)
    }

    /// The character of token `number`, if there is such a token and it is a literal.
    pub fn literal_at(&self, number: usize) -> Option<char>
        ensures literal { IfSome result (λ c. slice_index_or self.now number AnyChar ≡ Literal c) }
        ensures none { IfNone result
            ((c : ℕ) → ¬ (slice_index_or self.now number AnyChar ≡ Literal c)) }
    {
        match self.tokens.get(number) {
            Some(Token::Literal(c)) => Some(*c),
            _ => None,
        }
    }
}

impl<A: Allocator + Copy> Compiled<A> {
    /// Compiles the tokens. Fails only if allocation fails.
    pub fn new(alloc: A, tokens: Vec<Token<Bracket<A>>, A>) -> Result<Self, AllocError>
        ensures { IfOk result (λ compiled. compiled ≡ tokens.items) }
    {
        let list = tokens.as_slice();
        let ends = Ends::of(list);
        let rest = &list[ends.lead..];
        let between = list.len() - ends.trail - ends.lead;
        // The first and the last token between the ends are wildcards, so that a literal needs three.
        let needle = if between < 3 {
            Needle::NONE
        } else {
            Needle::of(&rest[..between.min(SEARCHED)])
        };
        Ok(Compiled {
            automaton: Automaton::new(alloc, rest, between)?,
            tokens,
            ends,
            needle,
        })
    }

    /// No tokens. It allocates nothing.
    pub fn empty(alloc: A) -> Self
        ensures { result ≡ [] }
    {
        Compiled {
            tokens: Vec::new(alloc),
            ends: Ends::NONE,
            needle: Needle::NONE,
            automaton: Automaton::empty(alloc),
        }
    }

    /// A copy on the same allocator. Fails only if allocation fails.
    pub fn clone(&self) -> Result<Self, AllocError>
        ensures { IfOk result (λ compiled. compiled ≡ self.now) }
    {
        Ok(Compiled {
            tokens: self.tokens.clone()?,
            ends: self.ends,
            needle: self.needle,
            automaton: self.automaton.clone()?,
        })
    }

    /// Whether the pattern's tokens match the text. With at most 63 tokens the call succeeds.
    #[inline(always)]
    pub fn matches(
        &self,
        pattern: &str,
        text: &str,
        options: MatchOptions,
    ) -> Result<bool, AllocError>
        requires { HasTokens (chars pattern.now) self.now }
        ensures answer { IfOk result
            (λ yes. IsTrue yes ↔ TokensMatch options self.now (chars text.now)) }
        ensures short { length self.now < 64 → IsOk result }
    {
        let tokens = self.tokens.as_slice();
        if self.ends.reject(tokens, pattern, text, options) {
            return Ok(false);
        }
        self.matches_in_full(pattern, text, options)
    }

    /// [`matches`](Self::matches) out of line, for texts that [`Ends::reject`] lets through.
    #[inline(never)]
    fn matches_in_full(
        &self,
        pattern: &str,
        text: &str,
        options: MatchOptions,
    ) -> Result<bool, AllocError>
        requires { HasTokens (chars pattern.now) self.now }
        ensures answer { IfOk result
            (λ yes. IsTrue yes ↔ TokensMatch options self.now (chars text.now)) }
        ensures short { length self.now < 64 → IsOk result }
    {
        // The count is dropped here, and the compiler leaves it out.
        let (answer, _) = self.matches_asking(pattern, text, options)?;
        Ok(answer)
    }

    /// The answer of [`matches`](Self::matches), and how many times a token was asked whether it takes a character.
    /// Each token at an end counts, even if the text is rejected before the token is asked. If the text is not empty, one
    /// more counts for each end that has a token, since [`Ends::reject`] may compare the first and the last byte.
    #[inline(always)]
    fn matches_asking(
        &self,
        pattern: &str,
        text: &str,
        options: MatchOptions,
    ) -> Result<(bool, u128), AllocError>
        requires { HasTokens (chars pattern.now) self.now }
        ensures answer { IfOk result
            (λ counted. IsTrue counted.0 ↔ TokensMatch options self.now (chars text.now)) }
        ensures most { IfOk result (λ counted. counted.1
            ≤ length self.now + length self.now * length (chars text.now)) }

        // With a rule set, a match asks about each character: no last wildcard takes the rest.
        ensures least { IfOk result (λ counted. IsTrue counted.0 → IsTrue (has_rules options)
            → length (chars text.now) ≤ counted.1) }
        ensures short { length self.now < 64 → IsOk result }
    {
        let tokens = self.tokens.as_slice();
        let ends = self.ends;
        let first = ends.lead.min(text.len()).min(1);
        let last = ends.trail.min(text.len()).min(1);
        let asked = (ends.lead + ends.trail + (first + last)) as u128;
        let Some(part) = ends.strip(tokens, pattern, text, options) else {
            return Ok((false, asked));
        };
        let between = tokens.len() - ends.trail - ends.lead;
        if between == 0 {
            return Ok((part.text.is_empty(), asked));
        }
        if !self.needle.may_be_in(part.text.as_bytes()) {
            return Ok((false, asked));
        }
        let rest = &tokens[ends.lead..];
        let (answer, count) = self
            .automaton
            .matches(rest, between, part.text, part.opening, options)?;
        Ok((answer, asked + count))
    }

    /// Whether the tokens match the text, and how many questions that takes if the automaton runs all tokens over all
    /// of the text. With at most 63 tokens the call succeeds.
    #[inline(never)]
    pub fn matches_counted(
        &self,
        text: &str,
        options: MatchOptions,
    ) -> Result<(bool, u128), AllocError>
        ensures answer { IfOk result
            (λ counted. IsTrue counted.0 ↔ TokensMatch options self.now (chars text.now)) }
        ensures most { IfOk result
            (λ counted. counted.1 ≤ length self.now * length (chars text.now)) }
        ensures least { IfOk result
            (λ counted. IsTrue counted.0 → length (chars text.now) ≤ counted.1) }
        ensures short { length self.now < 64 → IsOk result }
    {
        let tokens = self.tokens.as_slice();
        let mut judge = TextJudge::new(tokens, text, true, options);
        let answer = decide_all(*self.tokens.allocator(), tokens, &mut judge)?;
        Ok((answer, judge.asked()))
    }
}
