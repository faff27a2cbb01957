//! A judge that answers for all tokens of a word at once.
ghost use Rattle.glob_text.specs.Characters.{slash};
ghost use Rattle.glob_pattern.specs.Private.Classes.{partition_of};
ghost use Rattle.std.specs.Prelude.{◌≡◌, ◌*◌, ◌<◌, ◌≤◌, ◌==◌, length, chars};
ghost use Rattle.std.specs.Str.Iter.{chars_rest};
ghost use Rattle.glob_pattern.specs.Private.CharMasks.{AreCharMasks, AreRowsOf, class_of};
ghost use Rattle.glob_pattern.specs.Private.Stepping.{place_before};
ghost use Rattle.glob_pattern.specs.Private.TextTable.{table_within};

use super::TextJudge;
use crate::matcher::Judge;
use crate::pattern::char_masks::{CharMasks, Rows};
use std::alloc::Allocator;

/// A judge that looks up in masks which tokens take a character.
#[derive(Drop)]
pub struct MaskJudge<'a, A: Allocator> {
    judge: TextJudge<'a, A>,
    rows: Rows<'a>,
    // the number of words in the masks
    words: usize,
    // the class of the last character stepped over
    class: usize,
    ghost enough: { length judge.tokens.now ≤ 63 * words },
    ghost masked: { AreRowsOf judge.tokens.now words judge.options.case_sensitive rows },
    ghost classed: { 0 < place_before (chars judge.text.now) (chars (chars_rest judge.rest))
        → class ≡ class_of (partition_of rows.classes) judge.options (judge.before == slash)
        judge.current },
}

impl<'a, A: Allocator> MaskJudge<'a, A> {
    /// The judge, which must not have stepped, with the masks of its tokens in `words` words.
    #[inline(always)]
    pub fn new(judge: TextJudge<'a, A>, masks: &'a CharMasks<A>, words: usize) -> Self
        requires enough { length judge.tokens.now ≤ 63 * words }
        requires masks { AreCharMasks judge.tokens.now words masks.now }
        requires start { place_before (chars judge.text.now) (chars (chars_rest judge.rest)) ≡ 0 }
        ensures { result.judge ≡ judge.entry }
    {
        let rows = masks.rows(judge.options.case_sensitive);
        MaskJudge {
            judge,
            rows,
            words,
            class: 0,
        }
    }
}

#[tactic(auto, unfolding(crate::specs::Private::TextTable::table_within))]
impl<A: Allocator> Judge for MaskJudge<'_, A> {
    ghost table = { λ j. table_within j.judge.opening j.judge.options j.judge.tokens.now
        (chars j.judge.text.now) };

    ghost place = { λ j. place_before (chars j.judge.text.now) (chars (chars_rest j.judge.rest)) };

    ghost count = { λ j. j.judge.count };

    #[inline(always)]
    fn step(&mut self) -> bool {
        if !self.judge.advance() {
            return false;
        }
        let judge = &self.judge;
        self.class = self
            .rows
            .class_of(judge.options, judge.before == '/', judge.current);
        true
    }

    #[inline(always)]
    fn opens(&self) -> bool {
        self.judge.opens()
    }

    #[inline(always)]
    fn takes(&mut self, token: usize) -> bool {
        self.judge.count += 1;
        self.judge.is_taken(token)
    }

    #[inline(always)]
    fn takes_each(&mut self, word: usize, asked: u64) -> u64 {
        if asked == 0 {
            return 0;
        }
        self.judge.count += u128::from(asked.count_ones());
        asked & self.rows.taking(word, self.class)
    }

    #[inline(always)]
    fn asked(&self) -> u128 {
        self.judge.asked()
    }
}
