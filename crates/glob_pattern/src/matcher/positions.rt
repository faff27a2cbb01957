//! A bit-parallel automaton (NFA). Its states are positions: position n is alive if the first n tokens split the
//! characters so far, or if token n has begun a piece that may go on. Each position is a bit, and a character moves all
//! of them at once.
ghost use Rattle.std.specs.Prelude.{IfNone, IfSome, false, ◌≡◌, ℕ, ◌+◌, ◌*◌, ◌^◌, ◌<◌, ◌≤◌, ◌↔◌, List, [], ◌∷◌, length, slice_index, slice_index_or, IsTrue, IsOk, IfOk, map};
ghost use Rattle.glob_pattern.specs.Matching.Splits.{Table};
ghost use Rattle.glob_pattern.specs.Private.Prefixes.{PrefixSplits};
ghost use Rattle.glob_pattern.specs.Private.Positions.{word_end, word_before, AreShapeWords, IsAliveWord, IsTakenWord, AreAlive, IsFlat, IsLive, CanRun, HasRun, HasDecided, CanAsk, WereAsked, CanStep, HasStepped, CanSet};

use super::shape_word::ShapeWord;
use super::{Judge, Shape, Shaped, WORD};
use std::alloc::{AllocError, Allocator};

/// The shapes that a run goes over.
#[derive(Clone, Copy)]
pub struct Span {
    /// The number of leading shapes that have to split all characters. Whether shapes follow decides where a last
    /// `Deep` ends.
    pub end: usize,
    /// Bits in the word of the last shape before `end`: once one is alive, this shape takes all characters that are
    /// left.
    pub accepting: u64,
}

/// Words `low..high`. Nothing is alive in any other word.
#[derive(Clone, Copy)]
struct Live {
    low: usize,
    high: usize,
}

/// Whether the shapes before the span's end split the characters. With one word it allocates nothing, and succeeds.
/// Only contracts read `tokens`, here and below.
#[inline(always)]
pub fn decide<A: Allocator + Copy, T: Shaped, J: Judge>(
    alloc: A,
    tokens: &[T],
    words: &[ShapeWord],
    span: Span,
    judge: &mut J,
) -> Result<bool, AllocError>
    requires { CanRun (J.table judge.old) (map T.shape tokens.now) words.now span
        (J.place judge.old) (J.count judge.old) }
    ensures answer { IfOk result (λ yes. IsTrue yes
        ↔ PrefixSplits (J.table judge.old) (map T.shape tokens.now)
        span.end (J.table judge.old).characters) }
    ensures most { J.count judge.new
        ≤ J.count judge.old + span.end * (J.table judge.old).characters }
    ensures least { IfOk result (λ yes. IsTrue yes → span.accepting ≡ 0
        → J.count judge.old + (J.table judge.old).characters ≤ J.count judge.new) }
    ensures monotone { J.count judge.old ≤ J.count judge.new }
    ensures same { J.table judge.new ≡ J.table judge.old }
    ensures short { length words.now ≡ 1 → IsOk result }
{
    match words {
        [word] if word.is_flat() => Ok(run(tokens, *word, true, span, judge)),
        [word] => Ok(run(tokens, *word, false, span, judge)),
        _ => {
            let mut alive = vec![in alloc; 0; words.len()]?;
            Ok(run_words(tokens, words, alive.as_mut_slice(), span, judge))
        }
    }
}

/// [`decide`] for one word. Flat shapes have a faster step, which `flat` chooses.
#[inline(always)]
fn run<T: Shaped, J: Judge>(
    tokens: &[T],
    word: ShapeWord,
    flat: bool,
    span: Span,
    judge: &mut J,
) -> bool
    requires ready { CanRun (J.table judge.old) (map T.shape tokens.now) (word ∷ []) span
        (J.place judge.old) (J.count judge.old) }
    requires flat { IsTrue flat → IsFlat word }
    ensures decided { HasDecided (J.table judge.old) (map T.shape tokens.now) span
        (J.count judge.old) (J.count judge.new) result }
    ensures same { J.table judge.new ≡ J.table judge.old }
{
    let mut alive = word.step(0, judge.opens(), true);
    while alive != 0 {
        if alive & span.accepting != 0 {
            return true;
        }
        if !judge.step() {
            return is_whole(tokens, span.end, &[alive]);
        }
        let took = ask(tokens, span.end, word, 0, alive, judge);
        alive = word.step_by(flat, took, judge.opens());
    }
    false
}

/// [`decide`] for several words. `alive` is room for the position set: a zero for each word.
#[inline(always)]
fn run_words<T: Shaped, J: Judge>(
    tokens: &[T],
    words: &[ShapeWord],
    alive: &mut [u64],
    span: Span,
    judge: &mut J,
) -> bool
    requires ready { CanRun (J.table judge.old) (map T.shape tokens.now) words.now span
        (J.place judge.old) (J.count judge.old) }
    requires many { 1 < length words.now }
    requires length { length alive.old ≡ length words.now }
    requires none { IsLive alive.old (length alive.old) 0 0 }
    ensures decided { HasDecided (J.table judge.old) (map T.shape tokens.now) span
        (J.count judge.old) (J.count judge.new) result }
    ensures same { J.table judge.new ≡ J.table judge.old }
{
    let Some(mut live) = run_first(tokens, span, words, alive, judge) else {
        return false;
    };
    let last = word_before(span.end);
    while live.high != 0 {
        if alive[last] & span.accepting != 0 {
            return true;
        }
        if !judge.step() {
            return is_whole(tokens, span.end, alive);
        }
        live = step_words(tokens, span.end, words, alive, live, judge);
    }
    false
}

/// Steps the first word, in a loop of its own, until a position in another word is alive: then it returns the live
/// words. Returns `None` if the characters end first or nothing is alive: then the shapes do not split the characters.
#[inline(always)]
fn run_first<T: Shaped, J: Judge>(
    tokens: &[T],
    span: Span,
    words: &[ShapeWord],
    alive: &mut [u64],
    judge: &mut J,
) -> Option<Live>
    requires ready { CanRun (J.table judge.old) (map T.shape tokens.now) words.now span
        (J.place judge.old) (J.count judge.old) }
    requires many { 1 < length words.now }
    requires length { length alive.old ≡ length words.now }
    requires none { IsLive alive.old (length alive.old) 0 0 }
    ensures length { length alive.new ≡ length alive.old }
    ensures run { IfSome result (λ live.
        HasRun (J.table judge.old) (map T.shape tokens.now) span.end (J.count judge.old)
        (J.place judge.new) (J.count judge.new) alive.new
        × IsLive alive.new (length alive.new) live.low live.high) }
    ensures decided { IfNone result (HasDecided (J.table judge.old) (map T.shape tokens.now) span
        (J.count judge.old) (J.count judge.new) false) }
    ensures same { J.table judge.new ≡ J.table judge.old }
{
    let word = words[0];
    let mut first = word.step(0, judge.opens(), true);
    if first >> WORD != 0 {
        return Some(set_words(tokens, span.end, words, judge.opens(), 0, alive));
    }
    while first != 0 {
        if !judge.step() {
            return None;
        }
        let took = ask(tokens, span.end, word, 0, first, judge);
        first = word.step(took, judge.opens(), false);
        if first >> WORD != 0 {
            alive[0] = first;
            return Some(set_words(tokens, span.end, words, judge.opens(), 1, alive));
        }
    }
    None
}

/// Asks the tokens of word `n` that are alive about the last character stepped over. Returns those that take it.
#[inline(always)]
fn ask<T: Shaped, J: Judge>(
    tokens: &[T],
    end: usize,
    word: ShapeWord,
    n: usize,
    alive: u64,
    judge: &mut J,
) -> u64
    requires { CanAsk (J.table judge.old) (map T.shape tokens.now) end word n alive
        (J.place judge.old) (J.count judge.old) }
    ensures taken { IsTakenWord (J.table judge.old) (map T.shape tokens.now) end (63 * n)
        (J.place judge.old) result }
    ensures asked { WereAsked (J.table judge.old) (map T.shape tokens.now) (63 * n)
        (word_end end (63 * n)) (J.place judge.old) (J.count judge.old) (J.count judge.new) }
    ensures place { J.place judge.new ≡ J.place judge.old }
    ensures same { J.table judge.new ≡ J.table judge.old }
{
    judge.takes_each(n, alive & word.tokens)
}

/// Sets the words from number `from` on, which must be 0, where the shapes before them split the characters so far and
/// no token of theirs has taken the last one. Returns the live words.
fn set_words<T: Shaped>(
    tokens: &[T],
    end: usize,
    words: &[ShapeWord],
    opens: bool,
    from: usize,
    alive: &mut [u64],
) -> Live
    requires words { AreShapeWords (map T.shape tokens.now) end words.now }
    requires length { length alive.old ≡ length words.now }
    requires from { from ≤ length alive.old }
    requires none { (i : ℕ) → from ≤ i → i < length alive.old → slice_index alive.old i ≡ 0 }
    ensures length { length alive.new ≡ length alive.old }
    ensures live { IsLive alive.new (length alive.new) result.low result.high }
    ensures alive { (table : Table) (k : ℕ)
        → CanSet table (map T.shape tokens.now) end from k opens alive.old
        → AreAlive table (map T.shape tokens.now) end k 0 (length alive.new) alive.new }
{
    let mut whole = true;
    for n in from..alive.len() {
        if !whole {
            return Live { low: 0, high: n };
        }
        let word = words[n].step(0, opens, whole);
        alive[n] = word;
        whole = word >> WORD != 0;
    }
    Live {
        low: 0,
        high: alive.len(),
    }
}

/// The number of the word with the last shape before `end`; 0 if there is no such shape.
#[inline(always)]
fn word_before(end: usize) -> usize
    ensures { result ≡ word_before end }
{
    end.saturating_sub(1) / WORD
}

/// Whether the shapes before `end` split the characters: whether the position after the last one is alive.
#[inline(always)]
fn is_whole<T: Shaped>(tokens: &[T], end: usize, alive: &[u64]) -> bool
    requires some { 0 < length alive.now }
    requires all { end ≤ 63 * length alive.now }
    ensures { (table : Table) (k : ℕ)
        → AreAlive table (map T.shape tokens.now) end k 0 (length alive.now) alive.now
        → IsTrue result ↔ PrefixSplits table (map T.shape tokens.now) end k }
{
    // In a full last word this is the highest bit.
    let word = word_before(end);
    (alive[word] >> (end - WORD * word)) & 1 != 0
}

/// Steps the words to the judge's place. Returns the words that are live there. A word with nothing alive is skipped,
/// unless the shapes before it split the characters so far.
#[inline(always)]
fn step_words<T: Shaped, J: Judge>(
    tokens: &[T],
    end: usize,
    words: &[ShapeWord],
    alive: &mut [u64],
    live: Live,
    judge: &mut J,
) -> Live
    requires { CanStep (J.table judge.old) (map T.shape tokens.now) end words.now alive.old
        live.low live.high (J.place judge.old) (J.count judge.old) }
    ensures stepped { HasStepped (J.table judge.old) (map T.shape tokens.now) end alive.old
        alive.new (J.place judge.old) (J.count judge.old) (J.count judge.new) }
    ensures live { IsLive alive.new (length alive.new) result.low result.high }
    ensures place { J.place judge.new ≡ J.place judge.old }
    ensures same { J.table judge.new ≡ J.table judge.old }
{
    let opens = judge.opens();
    let mut next = Live {
        low: alive.len(),
        high: 0,
    };
    let mut whole = false;
    for n in live.low..alive.len() {
        if !whole && live.high <= n {
            return next;
        }
        let word = step_word(tokens, end, words[n], n, alive[n], opens, whole, judge);
        alive[n] = word;
        next = next.with(n, word);
        whole = word >> WORD != 0;
    }
    next
}

/// What is alive in word `n` after the last character stepped over. `opens` and `whole` are as in [`ShapeWord::step`].
#[inline(always)]
fn step_word<T: Shaped, J: Judge>(
    tokens: &[T],
    end: usize,
    word: ShapeWord,
    n: usize,
    alive: u64,
    opens: bool,
    whole: bool,
    judge: &mut J,
) -> u64
    requires ready { CanAsk (J.table judge.old) (map T.shape tokens.now) end word n alive
        (J.place judge.old) (J.count judge.old) }
    requires opens { opens ≡ (J.table judge.old).opens (J.place judge.old) }
    requires whole { IsTrue whole
        ↔ PrefixSplits (J.table judge.old) (map T.shape tokens.now) (63 * n) (J.place judge.old) }
    ensures alive { IsAliveWord (J.table judge.old) (map T.shape tokens.now) end (63 * n)
        (J.place judge.old) result }
    ensures asked { WereAsked (J.table judge.old) (map T.shape tokens.now) (63 * n)
        (word_end end (63 * n)) (J.place judge.old) (J.count judge.old) (J.count judge.new) }
    ensures place { J.place judge.new ≡ J.place judge.old }
    ensures same { J.table judge.new ≡ J.table judge.old }
{
    if alive == 0 && !whole {
        return 0;
    }
    let took = ask(tokens, end, word, n, alive, judge);
    word.step(took, opens, whole)
}

impl Live {
    /// These words and word `n`, unless that is 0.
    #[inline(always)]
    fn with(self, n: usize, word: u64) -> Self
        requires { n + 1 < 2 ^ 64 }
        ensures { (words : List ℕ) → n < length words → slice_index words n ≡ word
            → IsLive words n self.low self.high
            → IsLive words (n + 1) result.low result.high }
    {
        if word == 0 {
            self
        } else {
            Live {
                low: self.low.min(n),
                high: n + 1,
            }
        }
    }
}
