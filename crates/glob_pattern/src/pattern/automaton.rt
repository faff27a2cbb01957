//! The automaton of the tokens between a pattern's ends: their shapes as words of bits, and the characters they take.
ghost use Rattle.std.specs.Prelude.{◌≡◌, ℕ, ◌+◌, ◌*◌, ◌<◌, ◌≤◌, ◌↔◌, Bool, List, [], length, map, take, IsTrue, IsOk, IfOk, chars};
ghost use Rattle.std.specs.Int.{IsBitSet};
ghost use Rattle.glob_text.specs.Text.{Text};
ghost use Rattle.glob_pattern.specs.Grammar.Tokens.{Token as TokenOf, shape_of};
ghost use Rattle.glob_pattern.specs.Matching.Taking.{has_rules};
ghost use Rattle.glob_pattern.specs.Private.Automata.{IsAutomaton};
ghost use Rattle.glob_pattern.specs.Private.Parts.{SplitsPart};
ghost use Rattle.glob_pattern.specs.Private.Positions.{AreShapeWords, EndsFreely, TakesRest, word_before};
ghost use Rattle.glob_pattern.specs.Private.TextTable.{table_within};

use crate::matcher::{Judge, Shape, ShapeWord, Shaped, Span, WORD, decide, shape_words};
use crate::options::MatchOptions;
use crate::pattern::char_masks::CharMasks;
use crate::pattern::judge::{MaskJudge, TextJudge};
use crate::token::Token;
use crate::token::bracket::Bracket;
use crate::token::taking::has_rules;
use std::alloc::{AllocError, Allocator};
use std::slice;

/// What a run over tokens needs beside the tokens.
#[derive(Drop)]
pub struct Automaton<A: Allocator> {
    // the shapes as bits: of the first 63 tokens, and of all tokens if there are more
    first: ShapeWord,
    words: Vec<ShapeWord, A>,
    // the bit of the last token in its word, if it is a wildcard whose pieces may end anywhere
    accepting: u64,
    masks: CharMasks<A>,
}

impl<A: Allocator + Copy> Automaton<A> {
    /// The automaton of the tokens before `end`. Later tokens matter only to a last `**`: if there are none, it may end
    /// anywhere. Fails only if allocation fails.
    pub fn new(alloc: A, tokens: &[Token<Bracket<A>>], end: usize) -> Result<Self, AllocError>
        requires { end ≤ length tokens.now }
        ensures { IfOk result (IsAutomaton tokens.now end) }
    {
        let words = if end <= WORD {
            Vec::new(alloc)
        } else {
            shape_words(alloc, tokens, end)?
        };
        let masks = CharMasks::new(alloc, &tokens[..end], end.div_ceil(WORD))?;
        Ok(Automaton {
            first: ShapeWord::new(tokens, end, 0),
            words,
            accepting: free_end(tokens, end),
            masks,
        })
    }

    /// The automaton of no tokens. It allocates nothing.
    pub fn empty(alloc: A) -> Self
        ensures { IsAutomaton [] 0 result }
    {
        Automaton {
            first: ShapeWord::NONE,
            words: Vec::new(alloc),
            accepting: 0,
            masks: CharMasks::Plain([0; 3]),
        }
    }

    /// A copy on the same allocator. Fails only if allocation fails.
    pub fn clone(&self) -> Result<Self, AllocError>
        ensures { IfOk result (λ a. (tokens : List TokenOf) (end : ℕ)
            → IsAutomaton tokens end self.now → IsAutomaton tokens end a) }
    {
        Ok(Automaton {
            first: self.first,
            words: self.words.clone()?,
            accepting: self.accepting,
            masks: self.masks.clone()?,
        })
    }

    /// Whether the tokens before `end` split the text, and how many questions that took. `opening`: a component starts
    /// at the start of the text. With at most 63 tokens the call succeeds.
    #[inline(always)]
    pub fn matches(
        &self,
        tokens: &[Token<Bracket<A>>],
        end: usize,
        text: &str,
        opening: bool,
        options: MatchOptions,
    ) -> Result<(bool, u128), AllocError>
        requires { IsAutomaton tokens.now end self.now }
        ensures answer { IfOk result (λ counted. IsTrue counted.0
            ↔ SplitsPart options opening tokens.now end (chars text.now)) }
        ensures most { IfOk result (λ counted. counted.1 ≤ end * length (chars text.now)) }
        ensures least { IfOk result (λ counted. IsTrue counted.0 → IsTrue (has_rules options)
            → length (chars text.now) ≤ counted.1) }
        ensures short { end < 64 → IsOk result }
    {
        if has_rules(options) {
            return self.run(tokens, end, text, opening, options);
        }
        // The same options, written so that the compiler sees that no rule is set and leaves the tests for rules out of
        // this loop.
        let free = MatchOptions {
            require_literal_separator: false,
            require_literal_leading_dot: false,
            ..options
        };
        self.run(tokens, end, text, opening, free)
    }

    /// [`matches`](Self::matches), inlined once for options with a rule and once for those without.
    #[inline(always)]
    fn run(
        &self,
        tokens: &[Token<Bracket<A>>],
        end: usize,
        text: &str,
        opening: bool,
        options: MatchOptions,
    ) -> Result<(bool, u128), AllocError>
        requires { IsAutomaton tokens.now end self.now }
        ensures answer { IfOk result (λ counted. IsTrue counted.0
            ↔ SplitsPart options opening tokens.now end (chars text.now)) }
        ensures most { IfOk result (λ counted. counted.1 ≤ end * length (chars text.now)) }
        ensures least { IfOk result (λ counted. IsTrue counted.0 → IsTrue (has_rules options)
            → length (chars text.now) ≤ counted.1) }
        ensures short { end < 64 → IsOk result }
    {
        let accepting = self.accepting(options);
        // The only token takes everything.
        if end == 1 && accepting != 0 {
            return Ok((true, 0));
        }
        let span = Span { end, accepting };
        let one_by_one = TextJudge::new(&tokens[..end], text, opening, options);
        let mut judge = MaskJudge::new(one_by_one, &self.masks, end.div_ceil(WORD));
        let alloc = *self.words.allocator();
        let answer = decide(alloc, tokens, self.words(tokens, end), span, &mut judge)?;
        Ok((answer, judge.asked()))
    }

    /// The shapes as bits.
    #[inline(always)]
    fn words(&self, tokens: &[Token<Bracket<A>>], end: usize) -> &[ShapeWord]
        requires { IsAutomaton tokens.now end self.now }
        ensures words { AreShapeWords (map shape_of tokens.now) end result.now }
        ensures short { end < 64 → length result.now ≡ 1 }
    {
        if end <= WORD {
            slice::from_ref(&self.first)
        } else {
            self.words.as_slice()
        }
    }

    /// The bit of the last token in its word, if it takes all that is left of any text: once it is alive, the tokens
    /// match.
    #[inline(always)]
    fn accepting(&self, options: MatchOptions) -> u64
        ensures ruled { IsTrue (has_rules options) → result ≡ 0 }
        ensures rest { (tokens : List TokenOf) (end : ℕ) → IsAutomaton tokens end self.now
            → (opening : Bool) (text : Text) (j : ℕ) → IsBitSet result j
            → TakesRest (table_within opening options (take end tokens) text) (map shape_of tokens)
            end (63 * word_before end + j) }
    {
        if has_rules(options) {
            0
        } else {
            self.accepting
        }
    }
}

/// The bit of the last token before `end` in its word, if it is a wildcard whose pieces may end anywhere, or else 0.
fn free_end<A: Allocator>(tokens: &[Token<Bracket<A>>], end: usize) -> u64
    requires { end ≤ length tokens.now }
    ensures { (j : ℕ) → IsBitSet result j
        → EndsFreely (map shape_of tokens.now) end (63 * word_before end + j) }
{
    if end == 0 {
        return 0;
    }
    let last = 1 << ((end - 1) % WORD);
    match tokens[end - 1].shape() {
        Shape::Run => last,
        Shape::Deep if end == tokens.len() => last,
        Shape::One | Shape::Deep => 0,
    }
}
