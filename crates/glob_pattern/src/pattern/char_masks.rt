//! Masks: for each class of characters, which of 63 neighbouring tokens take them.
ghost use Rattle.std.specs.Prelude.{◌≡◌, ℕ, ◌+◌, ◌*◌, ◌<◌, ◌≤◌, ◌==◌, ◌/◌, ◌%◌, Bool, List, not, length, IfOk};
ghost use Rattle.std.specs.List.{list_all};
ghost use Rattle.glob_pattern.specs.Grammar.Tokens.{Token as TokenOf};
ghost use Rattle.glob_pattern.specs.Private.Classes.{IsPartition, Separates, EachInterval, partition_of, columns_of};
ghost use Rattle.glob_pattern.specs.Private.CharMasks.{AreCharMasks, AreRowsOf, AreRows, IsRow, class_of, mask_at, half_of, partition_in, is_plain, has_table};

mod row;

use crate::matcher::WORD;
use crate::options::MatchOptions;
use crate::pattern::classes::{ASCII, Boundaries, Classes, counts_of};
use crate::token::Token;
use crate::token::bracket::Bracket;
use crate::token::taking::{has_rules, is_excluded_dot, is_excluded_separator};
use row::{DOT, SEPARATOR, fill};
use std::alloc::{AllocError, Allocator};

/// For each class of characters, which tokens take them.
#[derive(Drop)]
pub enum CharMasks<A: Allocator> {
    /// At most 63 tokens that list no character: a mask for each of the two rules, and one for all other characters.
    Plain([u64; 3]),
    /// More tokens that list no character: two rows of three such masks for each word.
    PlainWords(Vec<u64, A>),
    /// Tokens some of which list characters.
    Listed(Box<Listed<A>, A>),
}

/// The masks of tokens, some of which list characters.
#[derive(Drop)]
pub struct Listed<A: Allocator> {
    /// The class of each ASCII character.
    ascii: [u8; ASCII],
    /// Where the classes beyond ASCII begin, and for some characters how many have begun.
    beyond: Vec<u32, A>,
    begun: Vec<u8, A>,
    /// Two rows for each word of tokens, case-sensitive and case-insensitive, with a mask for each class.
    masks: Vec<u64, A>,
}

/// The masks of case-sensitive or of case-insensitive matching.
#[derive(Clone, Copy)]
pub struct Rows<'a> {
    classes: Classes<'a>,
    /// The masks, from the first row for this case-sensitivity on. Every second row is for it.
    masks: &'a [u64],
    /// The number of masks in a row.
    columns: usize,
}

impl<A: Allocator + Copy> CharMasks<A> {
    /// The masks of the tokens, in `words` words. The last word may have no token. Fails only if allocation fails.
    pub fn new(alloc: A, tokens: &[Token<Bracket<A>>], words: usize) -> Result<Self, AllocError>
        requires { 63 * words ≤ length tokens.now + 63 }
        ensures masks { IfOk result (λ masks. AreCharMasks tokens.now words masks) }
        ensures table { IfOk result (λ masks. has_table masks ≡ not (list_all is_plain tokens.now)) }
    {
        if !are_plain(tokens) {
            let listed = Listed::new(alloc, tokens, words)?;
            return Ok(CharMasks::Listed(Box::new(alloc, listed)?));
        }
        if words > 1 {
            let masks = rows_of(alloc, tokens, words, Classes::NONE)?;
            return Ok(CharMasks::PlainWords(masks));
        }
        let (mut masks, mut folded) = ([0; 3], [0; 3]);
        fill(&mut masks, &mut folded, Classes::NONE, tokens, 0);
        Ok(CharMasks::Plain(masks))
    }
}

/// A copy on the same allocator. Fails only if allocation fails.
impl<A: Allocator + Copy> Clone for CharMasks<A> {
    ghost is_clone = { λ masks copy. (tokens : List TokenOf) (words : ℕ)
        → AreCharMasks tokens words masks → AreCharMasks tokens words copy };

    fn clone(&self) -> Result<Self, AllocError> {
        match self {
            CharMasks::Plain(masks) => Ok(CharMasks::Plain(*masks)),
            CharMasks::PlainWords(masks) => Ok(CharMasks::PlainWords(masks.clone()?)),
            CharMasks::Listed(listed) => {
                let copy = listed.as_ref().clone()?;
                let alloc = *Box::allocator(listed);
                Ok(CharMasks::Listed(Box::new(alloc, copy)?))
            }
        }
    }
}

impl<A: Allocator> CharMasks<A> {
    /// The masks of case-sensitive or of case-insensitive matching.
    #[inline(always)]
    pub fn rows(&self, case_sensitive: bool) -> Rows<'_>
        ensures { (tokens : List TokenOf) (words : ℕ) → AreCharMasks tokens words self.now
            → AreRowsOf tokens words case_sensitive result }
    {
        match self {
            CharMasks::Plain(masks) => Rows {
                classes: Classes::NONE,
                masks,
                columns: 3,
            },
            CharMasks::PlainWords(masks) => {
                Rows::of(Classes::NONE, masks.as_slice(), case_sensitive)
            }
            CharMasks::Listed(listed) => {
                let classes = Classes {
                    ascii: &listed.ascii,
                    beyond: listed.beyond.as_slice(),
                    begun: listed.begun.as_slice(),
                };
                Rows::of(classes, listed.masks.as_slice(), case_sensitive)
            }
        }
    }
}

impl<A: Allocator + Copy> Listed<A> {
    /// The masks of the tokens, in `words` words. Fails only if allocation fails.
    fn new(alloc: A, tokens: &[Token<Bracket<A>>], words: usize) -> Result<Self, AllocError>
        requires { 63 * words ≤ length tokens.now + 63 }
        ensures { IfOk result (λ l. (case : Bool)
            → AreRows tokens.now words case (partition_in l) l.masks.items (half_of case)) }
    {
        let boundaries = Boundaries::of(alloc, tokens)?;
        let ascii = boundaries.ascii_classes();
        let begun = counts_of(alloc, boundaries.beyond.as_slice())?;
        let classes = Classes {
            ascii: &ascii,
            beyond: boundaries.beyond.as_slice(),
            begun: begun.as_slice(),
        };
        let masks = rows_of(alloc, tokens, words, classes)?;
        Ok(Listed {
            ascii,
            beyond: boundaries.beyond,
            begun,
            masks,
        })
    }
}

/// A copy on the same allocator. Fails only if allocation fails.
impl<A: Allocator + Copy> Clone for Listed<A> {
    ghost is_clone = { λ l copy. (partition_in copy ≡ partition_in l)
        × (copy.masks.items ≡ l.masks.items) };

    fn clone(&self) -> Result<Self, AllocError> {
        Ok(Listed {
            ascii: self.ascii,
            beyond: self.beyond.clone()?,
            begun: self.begun.clone()?,
            masks: self.masks.clone()?,
        })
    }
}

impl<'a> Rows<'a> {
    /// Picks the case-sensitive or the case-insensitive masks.
    #[inline(always)]
    fn of(classes: Classes<'a>, masks: &'a [u64], case_sensitive: bool) -> Self
        ensures { (tokens : List TokenOf) (words : ℕ)
            → ((case : Bool)
            → AreRows tokens words case (partition_of classes.entry) masks.now (half_of case))
            → AreRowsOf tokens words case_sensitive result }
    {
        let columns = classes.count();
        let start = if case_sensitive { 0 } else { columns };
        Rows {
            classes,
            masks: &masks[start.min(masks.len())..],
            columns,
        }
    }
}

impl Rows<'_> {
    /// The word's tokens that take the characters of the class.
    #[inline(always)]
    pub fn taking(self, word: usize, class: usize) -> u64
        requires row { 2 * word * self.columns + self.columns ≤ length self.masks.now }
        requires class { class < self.columns }
        ensures { result ≡ mask_at self.entry.masks.now
            (2 * word * self.entry.columns + class) }
    {
        self.masks[2 * word * self.columns + class]
    }

    /// The class of a character under the options. `opening`: a component starts at its place.
    #[inline(always)]
    pub fn class_of(self, options: MatchOptions, opening: bool, c: char) -> usize
        requires { IsPartition (partition_of self.classes) }
        ensures { result ≡ class_of (partition_of self.entry.classes) options opening c }
    {
        // Rules exclude no other characters.
        if has_rules(options) && (c == '.' || c == '/') {
            if is_excluded_separator(options, c) {
                return SEPARATOR;
            }
            if is_excluded_dot(options, opening, c) {
                return DOT;
            }
        }
        self.classes.class(c)
    }
}

/// The rows of masks of `words` words of tokens. Fails only if allocation fails.
fn rows_of<A: Allocator + Copy>(
    alloc: A,
    tokens: &[Token<Bracket<A>>],
    words: usize,
    classes: Classes<'_>,
) -> Result<Vec<u64, A>, AllocError>
    requires partition { IsPartition (partition_of classes) }
    requires apart { EachInterval (Separates (partition_of classes)) tokens.now }
    requires words { 63 * words ≤ length tokens.now + 63 }
    ensures { IfOk result (λ masks. (case : Bool)
        → AreRows tokens.now words case (partition_of classes.entry) masks.items (half_of case)) }
{
    let rows = 2 * words;
    let mut masks = vec![in alloc; 0; rows.saturating_mul(classes.count())]?;
    fill_rows(masks.as_mut_slice(), classes, tokens, words);
    Ok(masks)
}

/// Turns zeros into two rows of masks for each word.
fn fill_rows<A: Allocator>(
    masks: &mut [u64],
    classes: Classes<'_>,
    tokens: &[Token<Bracket<A>>],
    words: usize,
)
    requires partition { IsPartition (partition_of classes) }
    requires apart { EachInterval (Separates (partition_of classes)) tokens.now }
    requires words { 63 * words ≤ length tokens.now + 63 }
    requires long { length masks.old ≡ words * (2 * columns_of (partition_of classes)) }
    requires empty { (r : ℕ) → mask_at masks.old r ≡ 0 }
    ensures long { length masks.new ≡ length masks.old }
    ensures rows { (word : ℕ) (case : Bool) → word < words
        → IsRow tokens.now (63 * word) (partition_of classes.entry) case masks.new
        ((2 * word + half_of case) * columns_of (partition_of classes.entry)) }
{
    let columns = classes.count();
    for word in 0..words {
        let long = 2 * columns;
        let at = word * long;
        let rows = &mut masks[at..at + long];
        fill_word(rows, classes, tokens, WORD * word);
    }
}

/// Turns two rows of zeros into those of the word of tokens from `start` on.
fn fill_word<A: Allocator>(
    rows: &mut [u64],
    classes: Classes<'_>,
    tokens: &[Token<Bracket<A>>],
    start: usize,
)
    requires partition { IsPartition (partition_of classes) }
    requires apart { EachInterval (Separates (partition_of classes)) tokens.now }
    requires start { start ≤ length tokens.now }
    requires long { length rows.old ≡ 2 * columns_of (partition_of classes) }
    requires empty { (r : ℕ) → mask_at rows.old r ≡ 0 }
    ensures long { length rows.new ≡ length rows.old }
    ensures rows { (case : Bool) → IsRow tokens.now start (partition_of classes.entry) case rows.new
        (half_of case * columns_of (partition_of classes.entry)) }
{
    let (plain, folded) = rows.split_at_mut(classes.count());
    fill(plain, folded, classes, tokens, start);
}

/// Whether no token lists a character.
fn are_plain<A: Allocator>(tokens: &[Token<Bracket<A>>]) -> bool
    ensures { result ≡ list_all is_plain tokens.now }
{
    tokens.iter().all(is_plain)
}

/// Whether the token lists no character: it is a wildcard.
fn is_plain<A: Allocator>(token: &Token<Bracket<A>>) -> bool
    ensures { result ≡ is_plain token.now }
{
    matches!(
        token,
        Token::AnyChar | Token::AnySequence | Token::Recursive
    )
}
