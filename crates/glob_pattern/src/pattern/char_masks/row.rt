//! A row of masks: for each class of characters, which of 63 neighbouring tokens take them.
ghost use Rattle.std.specs.Prelude.{◌≡◌, ℕ, ◌+◌, ◌<◌, ◌≤◌, ◌↔◌, ◌==◌, ◌&&◌, not, List, length, true, false, bit_xor};
ghost use Rattle.std.specs.List.{All};
ghost use Rattle.glob_pattern.specs.Grammar.Brackets.{is_same, in_range, holds, entry_holds};
ghost use Rattle.glob_pattern.specs.Grammar.Tokens.{Token as TokenOf, is_recursive};
ghost use Rattle.glob_pattern.specs.Private.Classes.{IsPartition, Separates, EachInterval, EachCase, EntryIntervals, TokenIntervals, partition_of, class_in, columns_of, are_letters};
ghost use Rattle.glob_pattern.specs.Private.CharMasks.{IsRow, AreListed, IsWith, mask_at, lists, is_bracket, takes_all_but_listed};
ghost use Rattle.glob_pattern.specs.declared.token.bracket.Entry.TheVariants.{Range};

use crate::matcher::{WORD, with_bit};
use crate::pattern::classes::{Classes, are_letters};
use crate::token::Token;
use crate::token::bracket::{Bracket, Entry};
use std::alloc::Allocator;

/// The class of a `/` that the separator rule excludes from wildcards.
pub const SEPARATOR: usize = 0;

/// The class of a `.` that the dot rule excludes from wildcards.
pub const DOT: usize = 1;

/// Some kinds of tokens, among 63 neighbouring ones.
#[derive(Clone, Copy)]
struct Kinds {
    /// Tokens that take all characters except those they list: wildcards and `[!..]`.
    others: u64,
    /// Brackets.
    brackets: u64,
    /// Recursive wildcards.
    recursive: u64,
}

impl Kinds {
    /// No tokens.
    const NONE: Kinds = Kinds {
        others: 0,
        brackets: 0,
        recursive: 0,
    };
}

/// Turns two rows of zeros into the case-sensitive and the case-insensitive row of the tokens from `start` on.
pub fn fill<A: Allocator>(
    plain: &mut [u64],
    folded: &mut [u64],
    classes: Classes<'_>,
    tokens: &[Token<Bracket<A>>],
    start: usize,
)
    requires partition { IsPartition (partition_of classes) }
    requires long { length plain.old ≡ columns_of (partition_of classes) }
    requires long_folded { length folded.old ≡ columns_of (partition_of classes) }
    requires apart { EachInterval (Separates (partition_of classes)) tokens.now }
    requires start { start ≤ length tokens.now }
    requires empty { (r : ℕ) → mask_at plain.old r ≡ 0 }
    requires empty_folded { (r : ℕ) → mask_at folded.old r ≡ 0 }
    ensures plain { IsRow tokens.now start (partition_of classes.entry) true plain.new 0 }
    ensures folded { IsRow tokens.now start (partition_of classes.entry) false folded.new 0 }
{
    let mut kinds = Kinds::NONE;
    for n in start..tokens.len().min(start.saturating_add(WORD)) {
        kinds = list_token(plain, folded, classes, kinds, n - start, &tokens[n]);
    }
    finish(plain, classes, kinds, true);
    finish(folded, classes, kinds, false);
}

/// Turns the masks of tokens that list a character into those of tokens that take it.
#[inline(always)]
fn finish(row: &mut [u64], classes: Classes<'_>, kinds: Kinds, case_sensitive: bool)
    requires partition { IsPartition (partition_of classes) }
    requires long { length row.old ≡ columns_of (partition_of classes) }
    ensures { (tokens : List TokenOf) (start end : ℕ)
        → AreListed tokens start end (partition_of classes.entry) case_sensitive row.old kinds
        → ((j : ℕ) → j < 63 → (start + j < end) ↔ (start + j < length tokens))
        → IsRow tokens start (partition_of classes.entry) case_sensitive row.new 0 }
{
    let separator = (row[classes.class('/')] & !kinds.brackets) | kinds.recursive;
    let dot = row[classes.class('.')] & !kinds.brackets;
    invert(row, kinds.others);
    row[SEPARATOR] = separator;
    row[DOT] = dot;
}

/// Inverts these bits in all masks.
fn invert(row: &mut [u64], bits: u64)
    ensures { (n : ℕ) → n < length row.old
        → mask_at row.new n ≡ bit_xor (mask_at row.old n) bits }
{
    for mask in row.iter_mut() {
        *mask ^= bits;
    }
}

/// Lists a token: sets its bit in the masks of the characters that it lists, and in the masks of its kinds. Returns the
/// kinds.
#[inline(always)]
fn list_token<A: Allocator>(
    plain: &mut [u64],
    folded: &mut [u64],
    classes: Classes<'_>,
    kinds: Kinds,
    bit: usize,
    token: &Token<Bracket<A>>,
) -> Kinds
    requires partition { IsPartition (partition_of classes) }
    requires bit { bit < 63 }
    requires long { length plain.old ≡ columns_of (partition_of classes) }
    requires long_folded { length folded.old ≡ columns_of (partition_of classes) }
    requires apart { TokenIntervals (Separates (partition_of classes)) token.now }
    ensures plain { (c : ℕ) → IsWith (mask_at plain.old (class_in (partition_of classes.entry) c))
        (mask_at plain.new (class_in (partition_of classes.entry) c)) bit
        (lists true c token.now) }
    ensures folded { (c : ℕ) → IsWith (mask_at folded.old (class_in (partition_of classes.entry) c))
        (mask_at folded.new (class_in (partition_of classes.entry) c)) bit
        (lists false c token.now) }
    ensures others { IsWith kinds.others result.others bit (takes_all_but_listed token.now) }
    ensures brackets { IsWith kinds.brackets result.brackets bit (is_bracket token.now) }
    ensures recursive { IsWith kinds.recursive result.recursive bit (is_recursive token.now) }
{
    match token {
        Token::Literal(c) => {
            list_cases(plain, folded, classes, bit, *c, *c);
            kinds
        }
        Token::AnyChar | Token::AnySequence => Kinds {
            others: with_bit(kinds.others, bit),
            ..kinds
        },
        Token::Recursive => Kinds {
            others: with_bit(kinds.others, bit),
            recursive: with_bit(kinds.recursive, bit),
            ..kinds
        },
        Token::OneOf(bracket) => {
            list_all(plain, folded, classes, bit, bracket.entries());
            Kinds {
                brackets: with_bit(kinds.brackets, bit),
                ..kinds
            }
        }
        Token::NoneOf(bracket) => {
            list_all(plain, folded, classes, bit, bracket.entries());
            Kinds {
                others: with_bit(kinds.others, bit),
                brackets: with_bit(kinds.brackets, bit),
                ..kinds
            }
        }
    }
}

/// Sets the bit in the masks of the characters that an entry holds.
fn list_all(
    plain: &mut [u64],
    folded: &mut [u64],
    classes: Classes<'_>,
    bit: usize,
    entries: &[Entry],
)
    requires partition { IsPartition (partition_of classes) }
    requires bit { bit < 63 }
    requires long { length plain.old ≡ columns_of (partition_of classes) }
    requires long_folded { length folded.old ≡ columns_of (partition_of classes) }
    requires apart { All (EntryIntervals (Separates (partition_of classes))) entries.now }
    ensures plain { (c : ℕ) → IsWith (mask_at plain.old (class_in (partition_of classes.entry) c))
        (mask_at plain.new (class_in (partition_of classes.entry) c)) bit
        (holds true c entries.now) }
    ensures folded { (c : ℕ) → IsWith (mask_at folded.old (class_in (partition_of classes.entry) c))
        (mask_at folded.new (class_in (partition_of classes.entry) c)) bit
        (holds false c entries.now) }
{
    for entry in entries {
        let (first, last) = entry.ends();
        list_cases(plain, folded, classes, bit, first, last);
    }
}

/// Sets the bit in the masks of the characters from `first` to `last`. If both are letters, also sets it in the
/// case-insensitive masks of the same letters in the other case.
#[inline(always)]
fn list_cases(
    plain: &mut [u64],
    folded: &mut [u64],
    classes: Classes<'_>,
    bit: usize,
    first: char,
    last: char,
)
    requires partition { IsPartition (partition_of classes) }
    requires bit { bit < 63 }
    requires long { length plain.old ≡ columns_of (partition_of classes) }
    requires long_folded { length folded.old ≡ columns_of (partition_of classes) }
    requires apart { EachCase (Separates (partition_of classes)) first last }
    ensures plain { (c : ℕ) → IsWith (mask_at plain.old (class_in (partition_of classes.entry) c))
        (mask_at plain.new (class_in (partition_of classes.entry) c)) bit
        (entry_holds true c (Range first last)) }
    ensures folded { (c : ℕ) → IsWith (mask_at folded.old (class_in (partition_of classes.entry) c))
        (mask_at folded.new (class_in (partition_of classes.entry) c)) bit
        (entry_holds false c (Range first last)) }
{
    list_both(plain, folded, classes, bit, first, last);
    if !are_letters(first, last) {
        return;
    }
    let (lower, last_lower) = (first.to_ascii_lowercase(), last.to_ascii_lowercase());
    list_interval(folded, classes, bit, lower, last_lower);
    let (upper, last_upper) = (first.to_ascii_uppercase(), last.to_ascii_uppercase());
    list_interval(folded, classes, bit, upper, last_upper);
}

/// Sets the bit in the masks of the characters from `first` to `last`, in both rows.
#[inline(always)]
fn list_both(
    plain: &mut [u64],
    folded: &mut [u64],
    classes: Classes<'_>,
    bit: usize,
    first: char,
    last: char,
)
    requires partition { IsPartition (partition_of classes) }
    requires bit { bit < 63 }
    requires long { length plain.old ≡ columns_of (partition_of classes) }
    requires long_folded { length folded.old ≡ columns_of (partition_of classes) }
    requires apart { first ≤ last → Separates (partition_of classes) first last }
    ensures plain { (c : ℕ) → IsWith (mask_at plain.old (class_in (partition_of classes.entry) c))
        (mask_at plain.new (class_in (partition_of classes.entry) c)) bit
        (in_range first last c) }
    ensures folded { (c : ℕ) → IsWith (mask_at folded.old (class_in (partition_of classes.entry) c))
        (mask_at folded.new (class_in (partition_of classes.entry) c)) bit
        (in_range first last c) }
{
    if first <= last {
        let (from, to) = classes_of(classes, first, last);
        paint(plain, bit, from, to);
        paint(folded, bit, from, to);
    }
}

/// The classes of both characters. If they are equal, it is looked up once.
#[inline(always)]
fn classes_of(classes: Classes<'_>, first: char, last: char) -> (usize, usize)
    requires { IsPartition (partition_of classes) }
    ensures from { result.0 ≡ class_in (partition_of classes.entry) first }
    ensures to { result.1 ≡ class_in (partition_of classes.entry) last }
{
    let from = classes.class(first);
    if first == last {
        return (from, from);
    }
    (from, classes.class(last))
}

/// Sets the bit in the masks of the characters from `first` to `last`.
#[inline(always)]
fn list_interval(row: &mut [u64], classes: Classes<'_>, bit: usize, first: char, last: char)
    requires partition { IsPartition (partition_of classes) }
    requires bit { bit < 63 }
    requires long { length row.old ≡ columns_of (partition_of classes) }
    requires apart { first ≤ last → Separates (partition_of classes) first last }
    ensures { (c : ℕ) → IsWith (mask_at row.old (class_in (partition_of classes.entry) c))
        (mask_at row.new (class_in (partition_of classes.entry) c)) bit
        (in_range first last c) }
{
    if first <= last {
        paint(row, bit, classes.class(first), classes.class(last));
    }
}

/// Sets the bit in the masks from `first` to `last`.
#[inline(always)]
fn paint(row: &mut [u64], bit: usize, first: usize, last: usize)
    requires bit { bit < 63 }
    requires last { last < length row.old }
    ensures { (n : ℕ) → IsWith (mask_at row.old n) (mask_at row.new n) bit (in_range first last n) }
{
    for class in first..last + 1 {
        list_class(row, bit, class);
    }
}

/// Sets the bit in the mask of the class.
#[inline(always)]
fn list_class(row: &mut [u64], bit: usize, class: usize)
    requires bit { bit < 63 }
    requires class { class < length row.old }
    ensures { (n : ℕ) → IsWith (mask_at row.old n) (mask_at row.new n) bit (n == class) }
{
    row[class] = with_bit(row[class], bit);
}
