//! The judge of a text's characters and a pattern's tokens.
ghost use Rattle.std.specs.Prelude.{◌≡◌, false, ◌+◌, ◌-◌, ◌<◌, ◌≤◌, length, ◌==◌, IsTrue, chars};
ghost use Rattle.glob_text.specs.Characters.{slash};
ghost use Rattle.std.specs.Str.Iter.{chars_rest};
ghost use Rattle.glob_pattern.specs.Private.Stepping.{IsSteppedTo, place_before};
ghost use Rattle.glob_pattern.specs.Private.TextTable.{table_within};

mod mask_judge;

use crate::matcher::Judge;
use crate::options::MatchOptions;
use crate::token::Token;
use crate::token::bracket::Bracket;
use crate::token::taking::takes;
pub use mask_judge::MaskJudge;
use std::alloc::Allocator;
use std::str::Chars;

/// A judge of a text's characters and a pattern's tokens. It asks the tokens one by one.
#[derive(Drop)]
pub struct TextJudge<'a, A: Allocator> {
    tokens: &'a [Token<Bracket<A>>],
    options: MatchOptions,
    text: &'a str,
    // a component starts at the start of the text
    opening: bool,
    rest: Chars<'a>,
    // the last character stepped over and the one before it; if a component starts at the start of the text, the text
    // counts as preceded by `/`
    current: char,
    before: char,
    count: u128,
    ghost stepped: { IsSteppedTo opening (chars text.now) (chars (chars_rest rest)) current
        (before == slash) (current == slash) },
}

impl<'a, A: Allocator> TextJudge<'a, A> {
    /// A judge at the start of a text, with no questions asked. `opening`: a component starts there, as at the start of
    /// a whole text, or of `b/c` in `a/b/c`.
    #[inline(always)]
    pub fn new(
        tokens: &'a [Token<Bracket<A>>],
        text: &'a str,
        opening: bool,
        options: MatchOptions,
    ) -> Self
        ensures tokens { result.tokens.now ≡ tokens.now }
        ensures text { result.text.now ≡ text.now }
        ensures opening { result.opening ≡ opening }
        ensures options { result.options ≡ options }
        ensures count { result.count ≡ 0 }
        ensures start { place_before (chars text.now) (chars (chars_rest result.rest)) ≡ 0 }
    {
        TextJudge {
            tokens,
            options,
            text,
            opening,
            rest: text.chars(),
            current: if opening { '/' } else { '\0' },
            before: '/',
            count: 0,
        }
    }

    /// Steps over the next character. Returns whether there was one.
    #[inline(always)]
    fn advance(&mut self) -> bool
        ensures tokens { self.new.tokens ≡ self.old.tokens }
        ensures text { self.new.text ≡ self.old.text }
        ensures opening { self.new.opening ≡ self.old.opening }
        ensures options { self.new.options ≡ self.old.options }
        ensures count { self.new.count ≡ self.old.count }
        ensures stepped { IsTrue result
            → (place_before (chars self.new.text.now) (chars (chars_rest self.new.rest))
            ≡ place_before (chars self.old.text.now) (chars (chars_rest self.old.rest)) + 1)
            × (place_before (chars self.new.text.now) (chars (chars_rest self.new.rest))
            ≤ length (chars self.new.text.now)) }
        ensures ended { result ≡ false
            → (place_before (chars self.new.text.now) (chars (chars_rest self.new.rest))
            ≡ place_before (chars self.old.text.now) (chars (chars_rest self.old.rest)))
            × (length (chars self.new.text.now)
            ≡ place_before (chars self.old.text.now) (chars (chars_rest self.old.rest))) }
        ensures stays { result ≡ false
            → (self.new.before ≡ self.old.before) × (self.new.current ≡ self.old.current) }
    {
        // Named for the proof: the rest is UTF-8.
        let _left = self.rest.as_str();
        let Some(c) = self.rest.next() else {
            return false;
        };
        self.before = self.current;
        self.current = c;
        true
    }

    /// Whether the token takes the last character stepped over.
    #[inline(always)]
    fn is_taken(&self, token: usize) -> bool
        requires stepped { 0 < place_before (chars self.now.text.now)
            (chars (chars_rest self.now.rest)) }
        requires token { token < length self.now.tokens.now }
        ensures { result
            ≡ (table_within self.now.opening self.now.options self.now.tokens.now
            (chars self.now.text.now)).takes token
            (place_before (chars self.now.text.now) (chars (chars_rest self.now.rest)) - 1) }
    {
        takes(
            &self.tokens[token],
            self.options,
            self.before == '/',
            self.current,
        )
    }
}

#[tactic(auto, unfolding(crate::specs::Private::TextTable::table_within))]
impl<A: Allocator> Judge for TextJudge<'_, A> {
    ghost table = { λ j. table_within j.opening j.options j.tokens.now (chars j.text.now) };

    ghost place = { λ j. place_before (chars j.text.now) (chars (chars_rest j.rest)) };

    ghost count = { λ j. j.count };

    #[inline(always)]
    fn step(&mut self) -> bool {
        self.advance()
    }

    #[inline(always)]
    fn opens(&self) -> bool {
        self.current == '/'
    }

    #[inline(always)]
    fn takes(&mut self, token: usize) -> bool {
        self.count += 1;
        self.is_taken(token)
    }

    #[inline(always)]
    fn asked(&self) -> u128 {
        self.count
    }
}
