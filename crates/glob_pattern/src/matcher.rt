//! Matching over any alphabet: a judge says which tokens take each character, and a run says whether the characters
//! split into pieces that the tokens allow.
ghost use Rattle.std.specs.Prelude.{◌≡◌, ℕ, ◌+◌, ◌-◌, ◌*◌, ◌^◌, ◌<◌, ◌≤◌, ◌↔◌, false, length, map, IsTrue, IsOk, IfOk, count_ones};
ghost use Rattle.glob_pattern.specs.Matching.Splits.{Table, Splits};
ghost use Rattle.std.specs.Int.{IsBitSet};

mod positions;
mod shape_word;

pub use positions::{Span, decide};
pub use shape_word::{ShapeWord, shape_words, with_bit};
use std::alloc::{AllocError, Allocator};

/// The number of tokens in a word of 64 bits. Bit 63 is the position after them, which is bit 0 of the next word.
pub const WORD: usize = 63;

/// Which pieces of a text a token can match. The shapes of `**/*a` are `Deep`, `Run` and `One`.
#[derive(Clone, Copy, Debug, PartialEq, Eq)]
pub enum Shape {
    /// One character.
    One,
    /// Any number of characters.
    Run,
    /// Any number of characters. If shapes follow, the piece is empty or ends where a component starts.
    Deep,
}

/// Something with a shape: a shape itself, or a token.
pub trait Shaped {
    ghost use Rattle.glob_pattern.specs.declared.matcher.Shape.{Shape};

    ghost shape: { Self → Shape };

    /// Its shape.
    fn shape(&self) -> Shape
        ensures { result ≡ shape self.now };
}

impl Shaped for Shape {
    ghost shape = { λ shape. shape };

    fn shape(&self) -> Shape {
        *self
    }
}

/// Answers which token takes which character, for a list of characters and a list of tokens, both numbered from 0. A
/// judge has a place, which is the number of characters it has stepped over, and a count of its questions.
///
/// A new judge for the text `ab` and the tokens of `a*` returns true for `step()`, `takes(0)` and `takes(1)`. After
/// another `step()` it returns false for `takes(0)` and true for `takes(1)`. Then `asked()` is 4, and `step()` returns
/// false.
pub trait Judge {
    ghost table: { Self → Table };

    ghost place: { Self → ℕ };

    ghost count: { Self → ℕ };

    /// Steps over the next character. Returns whether there was one.
    fn step(&mut self) -> bool
        ensures same { table self.new ≡ table self.old }
        ensures count { count self.new ≡ count self.old }
        ensures stepped { IsTrue result
            → (place self.new ≡ place self.old + 1)
            × (place self.new ≤ (table self.new).characters) }
        ensures ended { result ≡ false
            → (place self.new ≡ place self.old)
            × ((table self.new).characters ≡ place self.old) };

    /// Whether a component starts at the judge's place. In the text `a/b` components start at the places 0 and 2.
    fn opens(&self) -> bool
        ensures { result ≡ (table self.now).opens (place self.now) };

    /// Whether the token takes the last character stepped over. Adds one to the count. There must be such a character
    /// and such a token, and the count must be below `u128::MAX`.
    fn takes(&mut self, token: usize) -> bool
        requires stepped { 0 < place self.old }
        requires token { token < (table self.old).tokens }
        requires room { count self.old + 1 < 2 ^ 128 }
        ensures same { table self.new ≡ table self.old }
        ensures place { place self.new ≡ place self.old }
        ensures count { count self.new ≡ count self.old + 1 }
        ensures value { result ≡ (table self.old).takes token (place self.old - 1) };

    /// Which of up to 63 tokens take the last character stepped over. Bit n of `asked` asks token 63 · `word` + n, and
    /// bit n of the result is its answer: `takes_each(1, 0b101)` asks tokens 63 and 65. Adds one to the count for each
    /// bit of `asked`. There must be such a character, each bit must be below 63 and have a token, and the count must
    /// have room.
    ///
    /// This body calls [`takes`](Self::takes) for one token after another. A judge that knows many answers at once may
    /// have a body of its own.
    #[inline]
    fn takes_each(&mut self, word: usize, asked: u64) -> u64
        requires stepped { 0 < place self.old }
        requires tokens { (j : ℕ) → IsBitSet asked j
            → (j < 63) × (63 * word + j < 2 ^ 64) × (63 * word + j < (table self.old).tokens) }
        requires room { count self.old + count_ones asked < 2 ^ 128 }
        ensures same { table self.new ≡ table self.old }
        ensures place { place self.new ≡ place self.old }
        ensures count { count self.new ≡ count self.old + count_ones asked }
        ensures took { (j : ℕ) → j < 64
            → IsBitSet result j
            ↔ (IsBitSet asked j
            × IsTrue ((table self.old).takes (63 * word + j) (place self.old - 1))) }
    {
        let mut left = asked;
        let mut took = 0u64;
        while left != 0 {
            let bit = left.trailing_zeros();
            if self.takes(WORD * word + bit as usize) {
                took |= 1 << bit;
            }
            left &= left - 1;
        }
        took
    }

    /// The count: how many questions were asked.
    fn asked(&self) -> u128
        ensures { result ≡ count self.now };
}

/// Whether the judge's characters split into one piece per shape, such that each piece has a form that its shape
/// allows, and token n takes all characters of piece n. The shapes of `*a` split `bca` into `bc` and `a`.
///
/// This takes at most shapes times characters questions, and for a match at least one per character. The judge must be
/// at the place 0, have a token for each shape, and have room in its count for that many questions. The error is a
/// failed allocation; with at most 63 shapes the call succeeds.
#[inline(always)]
pub fn run_positions<A: Allocator + Copy, J: Judge>(
    alloc: A,
    shapes: &[Shape],
    judge: &mut J,
) -> Result<bool, AllocError>
    requires tokens { length shapes.now ≤ (J.table judge.old).tokens }
    requires start { J.place judge.old ≡ 0 }
    requires room { J.count judge.old
        + length shapes.now * (J.table judge.old).characters < 2 ^ 128 }
    ensures answer { IfOk result
        (λ yes. IsTrue yes ↔ Splits (J.table judge.old) shapes.now) }

    // At most tokens times characters questions, and for a match at least one per character.
    ensures most { J.count judge.new
        ≤ J.count judge.old + length shapes.now * (J.table judge.old).characters }
    ensures least { IfOk result
        (λ yes. IsTrue yes
        → J.count judge.old + (J.table judge.old).characters ≤ J.count judge.new) }
    ensures monotone { J.count judge.old ≤ J.count judge.new }
    ensures same { J.table judge.new ≡ J.table judge.old }

    // With at most 63 shapes it succeeds.
    ensures small { length shapes.now < 64 → IsOk result }
{
    decide_all(alloc, shapes, judge)
}

/// [`run_positions`] for the shapes of tokens.
#[inline(always)]
pub fn decide_all<A: Allocator + Copy, T: Shaped, J: Judge>(
    alloc: A,
    tokens: &[T],
    judge: &mut J,
) -> Result<bool, AllocError>
    requires tokens { length tokens.now ≤ (J.table judge.old).tokens }
    requires start { J.place judge.old ≡ 0 }
    requires room { J.count judge.old
        + length tokens.now * (J.table judge.old).characters < 2 ^ 128 }
    ensures answer { IfOk result
        (λ yes. IsTrue yes ↔ Splits (J.table judge.old) (map T.shape tokens.now)) }
    ensures most { J.count judge.new
        ≤ J.count judge.old + length tokens.now * (J.table judge.old).characters }
    ensures least { IfOk result
        (λ yes. IsTrue yes
        → J.count judge.old + (J.table judge.old).characters ≤ J.count judge.new) }
    ensures monotone { J.count judge.old ≤ J.count judge.new }
    ensures same { J.table judge.new ≡ J.table judge.old }
    ensures small { length tokens.now < 64 → IsOk result }
{
    let span = Span {
        end: tokens.len(),
        accepting: 0,
    };
    if tokens.len() <= WORD {
        decide(
            alloc,
            tokens,
            &[ShapeWord::new(tokens, span.end, 0)],
            span,
            judge,
        )
    } else {
        let words = shape_words(alloc, tokens, span.end)?;
        decide(alloc, tokens, words.as_slice(), span, judge)
    }
}
