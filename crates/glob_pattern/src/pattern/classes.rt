//! Classes of characters: all characters of a class are taken by the same tokens.
//!
//! Tokens list intervals of characters. No token tells apart the characters between two neighbouring boundaries of
//! intervals, so these are one class. The tokens of `*[a-z]x` have one class for `a` to `w`, one for `x`, one for `y`
//! and `z`, the same three in upper case, and one each for what is before, between and after these.
ghost use Rattle.std.specs.Prelude.{◌≡◌, ℕ, ◌+◌, ◌<◌, ◌≤◌, Bool, List, length, slice_index, nat_le, IsTrue, IfOk};
ghost use Rattle.std.specs.List.{All, Contains, prefix_len};
ghost use Rattle.std.specs.List.Sorted.{IsNonDecreasing};
ghost use Rattle.glob_pattern.specs.Private.Classes.{IsPartition, AreAsciiClasses, AreNumbered, AreCounts, HasInterval, Grows, EachInterval, EachCase, EntryIntervals, TokenIntervals, HasCut, partition_of, class_in, columns_of, are_letters};

use crate::token::Token;
use crate::token::bracket::{Bracket, Entry};
use std::alloc::{AllocError, Allocator};

/// The class of the first characters, up to the first boundary.
pub const FIRST: u8 = 2;

/// The number of ASCII characters.
pub const ASCII: usize = 128;

/// The length of a table of how many boundaries there are up to a character, which begins at the first boundary beyond
/// ASCII.
const COUNTED: usize = 128;

/// The class of each character.
#[derive(Clone, Copy)]
pub struct Classes<'a> {
    /// The class of each ASCII character.
    pub ascii: &'a [u8; ASCII],
    /// The boundaries beyond ASCII, ascending. Each begins the class with the next number.
    pub beyond: &'a [u32],
    /// How many of these boundaries there are up to a character, for the first characters from the first boundary on.
    pub begun: &'a [u8],
}

impl Classes<'_> {
    /// All characters in the class `FIRST`.
    pub const NONE: Classes<'static> = Classes {
        ascii: &[FIRST; ASCII],
        beyond: &[],
        begun: &[],
    };

    /// The number of classes. Every class is below it.
    #[inline(always)]
    pub fn count(self) -> usize
        ensures { result ≡ columns_of (partition_of self.entry) }
    {
        usize::from(self.ascii[ASCII - 1]) + 1 + self.beyond.len()
    }

    /// The class of a character, without regard to the rules.
    #[inline(always)]
    pub fn class(self, c: char) -> usize
        requires { IsPartition (partition_of self) }
        ensures { result ≡ class_in (partition_of self.entry) c }
    {
        let ascii = self.ascii;
        match ascii.get(c as usize) {
            Some(class) => usize::from(*class),
            None if self.beyond.is_empty() => usize::from(ascii[ASCII - 1]),
            None => usize::from(ascii[ASCII - 1]) + begun_at(self.beyond, self.begun, c),
        }
    }
}

/// The number of boundaries up to `c`.
#[inline(always)]
fn begun_at(boundaries: &[u32], counts: &[u8], c: char) -> usize
    requires rising { IsNonDecreasing boundaries.now }
    requires counts { AreCounts boundaries.now counts.now }
    ensures { result ≡ prefix_len (λ first. nat_le first c) boundaries.now }
{
    let c = c as u32;
    let Some(base) = boundaries.first() else {
        return 0;
    };
    if c < *base {
        return 0;
    }
    match counts.get((c - *base) as usize) {
        Some(count) => usize::from(*count),
        None => begun_by_search(boundaries, c),
    }
}

/// The boundaries of character intervals.
#[derive(Drop)]
pub struct Boundaries<A: Allocator> {
    /// Whether an interval begins at this ASCII character or ends right before it.
    ascii: [bool; ASCII],
    /// The boundaries beyond ASCII.
    pub beyond: Vec<u32, A>,
}

impl<A: Allocator> Boundaries<A> {
    /// The boundaries of the intervals of all literals and brackets, in both cases. Fails only if allocation fails.
    pub fn of(alloc: A, tokens: &[Token<Bracket<A>>]) -> Result<Self, AllocError>
        ensures marked { IfOk result (λ b. EachInterval (HasInterval b) tokens.now) }
        ensures order { IfOk result (λ b. IsNonDecreasing b.beyond.items) }
    {
        let mut boundaries = Boundaries {
            ascii: [false; ASCII],
            beyond: Vec::new(alloc),
        };
        for token in tokens {
            boundaries.mark_token(token)?;
        }
        boundaries.sort();
        Ok(boundaries)
    }

    /// Adds the token's intervals. Fails only if allocation fails.
    fn mark_token(&mut self, token: &Token<Bracket<A>>) -> Result<(), AllocError>
        ensures marked { IfOk result (λ _. TokenIntervals (HasInterval self.new) token.now) }
        ensures grows { IfOk result (λ _. Grows self.old self.new) }
    {
        match token {
            Token::Literal(c) => self.mark_cases(*c, *c),
            Token::AnyChar | Token::AnySequence | Token::Recursive => Ok(()),
            Token::OneOf(bracket) | Token::NoneOf(bracket) => self.mark_all(bracket.entries()),
        }
    }

    /// Adds the intervals of the entries. Fails only if allocation fails.
    fn mark_all(&mut self, entries: &[Entry]) -> Result<(), AllocError>
        ensures marked { IfOk result (λ _. All (EntryIntervals (HasInterval self.new)) entries.now) }
        ensures grows { IfOk result (λ _. Grows self.old self.new) }
    {
        for entry in entries {
            let (first, last) = entry.ends();
            self.mark_cases(first, last)?;
        }
        Ok(())
    }

    /// Adds the characters from `first` to `last`, in both cases if both are letters. Fails only if allocation fails.
    fn mark_cases(&mut self, first: char, last: char) -> Result<(), AllocError>
        ensures marked { IfOk result (λ _. EachCase (HasInterval self.new) first last) }
        ensures grows { IfOk result (λ _. Grows self.old self.new) }
    {
        self.mark(first, last)?;
        if !are_letters(first, last) {
            return Ok(());
        }
        self.mark(first.to_ascii_lowercase(), last.to_ascii_lowercase())?;
        self.mark(first.to_ascii_uppercase(), last.to_ascii_uppercase())?;
        Ok(())
    }

    /// Adds the characters from `first` to `last`. Fails only if allocation fails.
    fn mark(&mut self, first: char, last: char) -> Result<(), AllocError>
        ensures marked { IfOk result (λ _. HasInterval self.new first last) }
        ensures grows { IfOk result (λ _. Grows self.old self.new) }
    {
        self.begin(first as u32)?;
        self.begin(last as u32 + 1)?;
        Ok(())
    }

    /// Adds a boundary. Fails only if allocation fails.
    #[inline(always)]
    fn begin(&mut self, c: u32) -> Result<(), AllocError>
        ensures ascii { IfOk result (λ _. c < 128 → HasCut self.new.ascii c) }
        ensures beyond { IfOk result (λ _. 128 ≤ c → Contains self.new.beyond.items c) }
        ensures grows { IfOk result (λ _. Grows self.old self.new) }
    {
        if c < ASCII as u32 {
            self.ascii[c as usize] = true;
        } else {
            self.beyond.push(c)?;
        }
        Ok(())
    }

    /// Sorts the boundaries beyond ASCII and removes duplicates.
    fn sort(&mut self)
        ensures order { IsNonDecreasing self.new.beyond.items }
        ensures grows { Grows self.old self.new }
    {
        self.beyond.sort_unstable();
        self.beyond.dedup();
    }

    /// The class of each ASCII character. Each boundary raises it by one.
    pub fn ascii_classes(&self) -> [u8; ASCII]
        ensures { AreAsciiClasses self.now.ascii 128 result }
    {
        let mut classes = [FIRST; ASCII];
        let mut class = FIRST;
        for n in 0..ASCII / 8 {
            class = self.number(&mut classes, 8 * n, class);
        }
        classes
    }

    /// Writes the classes of eight characters, given the class before them. Returns the class of the last one.
    #[inline(always)]
    fn number(&self, classes: &mut [u8; ASCII], start: usize, last: u8) -> u8
        requires within { start + 8 ≤ 128 }
        requires before { AreNumbered self.now.ascii start last classes.old }
        ensures { AreNumbered self.now.ascii (start + 8) result classes.new }
    {
        if self.has_none(start) {
            keep(classes, start, last);
            return last;
        }
        let mut class = last;
        for c in start..start + 8 {
            class += u8::from(self.ascii[c]);
            classes[c] = class;
        }
        class
    }

    /// Whether none of eight characters has a boundary, by one comparison.
    #[inline(always)]
    fn has_none(&self, start: usize) -> bool
        requires { start + 8 ≤ 128 }
        ensures { IsTrue result
            → (c : ℕ) → start ≤ c → c < start + 8 → ¬ (HasCut self.now.ascii c) }
    {
        let eight = &self.ascii[start..start + 8];
        let none: &[bool] = &[false; 8];
        eight == none
    }
}

/// Gives eight characters the same class.
#[inline(always)]
fn keep(classes: &mut [u8; ASCII], start: usize, class: u8)
    requires { start + 8 ≤ 128 }
    ensures { (cuts : List Bool) → AreNumbered cuts start class classes.old
        → ((c : ℕ) → start ≤ c → c < start + 8 → ¬ (HasCut cuts c))
        → AreNumbered cuts (start + 8) class classes.new }
{
    for c in start..start + 8 {
        classes[c] = class;
    }
}

/// The number of boundaries up to `c`, by binary search.
#[inline(never)]
fn begun_by_search(boundaries: &[u32], c: u32) -> usize
    requires { IsNonDecreasing boundaries.now }
    ensures { result ≡ prefix_len (λ first. nat_le first c) boundaries.now }
{
    boundaries.partition_point(
        |first: &u32| -> bool
            ensures { result ≡ nat_le first.now c }
        { *first <= c },
    )
}

/// The number of boundaries up to each of `COUNTED` characters, from the first boundary on: most alphabets then need no
/// search. The list is empty if there is no boundary, or if there are too many for a byte. Fails only if allocation
/// fails.
pub fn counts_of<A: Allocator>(alloc: A, boundaries: &[u32]) -> Result<Vec<u8, A>, AllocError>
    requires { IsNonDecreasing boundaries.now }
    ensures { IfOk result (λ counts. AreCounts boundaries.now counts.items) }
{
    match boundaries.first() {
        Some(base) if boundaries.len() < 256 => counts_from(alloc, boundaries, *base),
        _ => Ok(Vec::new(alloc)),
    }
}

/// The number of boundaries up to each of `COUNTED` characters, from `base` on, which is the first boundary. It is `n`
/// for those before boundary `n` and not before an earlier one.
fn counts_from<A: Allocator>(
    alloc: A,
    boundaries: &[u32],
    base: u32,
) -> Result<Vec<u8, A>, AllocError>
    requires few { length boundaries.now < 256 }
    requires rising { IsNonDecreasing boundaries.now }
    requires base { (i : ℕ) → i < length boundaries.now → base ≤ slice_index boundaries.now i }
    ensures { IfOk result (λ counts. (i : ℕ) → i < length counts.items
        → slice_index counts.items i
        ≡ prefix_len (λ first. nat_le first (base + i)) boundaries.now) }
{
    let mut counts = Vec::with_capacity(alloc, COUNTED)?;
    for n in 0..boundaries.len() {
        let end = (boundaries[n] - base) as usize;
        counts.resize(end.min(COUNTED), n as u8)?;
    }
    counts.resize(COUNTED, boundaries.len() as u8)?;
    Ok(counts)
}

/// Whether both are ASCII letters.
pub fn are_letters(x: char, y: char) -> bool
    ensures { result ≡ are_letters x y }
{
    x.is_ascii_alphabetic() && y.is_ascii_alphabetic()
}
