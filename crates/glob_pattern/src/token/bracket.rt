//! Brackets: which characters they hold.
ghost use Rattle.std.specs.Prelude.{◌≡◌, IfOk};
ghost use Rattle.glob_pattern.specs.Grammar.Brackets.{entries_of, is_same, in_folded_range, entry_holds, holds};
ghost use Rattle.glob_pattern.specs.Private.Brackets.{first_of, last_of};

use std::alloc::{AllocError, Allocator, Global};
use std::marker::Model;
use std::slice;

/// The initial capacity of a list of entries. Most brackets never need more.
const FEW: usize = 16;

/// An entry of a bracket.
#[derive(Clone, Copy)]
pub enum Entry {
    /// One character.
    Single(char),
    /// The characters from the first to the second, by code point.
    Range(char, char),
}

impl Entry {
    /// The first and the last character, which are equal for a single one.
    pub fn ends(self) -> (char, char)
        ensures first { result.0 ≡ first_of self }
        ensures last { result.1 ≡ last_of self }
    {
        match self {
            Entry::Single(x) => (x, x),
            Entry::Range(x, y) => (x, y),
        }
    }

    /// Whether the entry holds `c`.
    fn holds(self, c: char, case_sensitive: bool) -> bool
        ensures { result ≡ entry_holds case_sensitive c self }
    {
        match self {
            Entry::Single(x) => is_same(case_sensitive, c, x),
            Entry::Range(x, y) => {
                (x <= c && c <= y) || (!case_sensitive && is_in_folded_range(x, y, c))
            }
        }
    }
}

/// The content of a bracket: its entries, in the order of the pattern.
#[derive(Drop)]
pub struct Bracket<A: Allocator = Global> {
    entries: Entries<A>,
}

/// The entries of a bracket. Most brackets have one, as in `[0-9]`, which takes no allocation.
#[derive(Drop)]
enum Entries<A: Allocator> {
    One(Entry),
    Many(Vec<Entry, A>),
}

impl<A: Allocator> Model for Bracket<A> {
    ghost use Rattle.std.specs.Prelude.{List};
    ghost use Rattle.glob_pattern.specs.declared.token.bracket.Entry.{Entry};
    ghost use Rattle.glob_pattern.specs.Private.Brackets.{entries_in};

    ghost Value = { List Entry };

    ghost view = { λ c. entries_in c.entries };
}

impl<A: Allocator> Bracket<A> {
    /// Reads the entries of a bracket's content. Fails only if allocation fails.
    pub fn read(alloc: A, content: &[char]) -> Result<Self, AllocError>
        ensures { IfOk result (λ bracket. bracket ≡ entries_of content.now) }
    {
        let entries = match content {
            [only] => Entries::One(Entry::Single(*only)),
            [first, '-', last] => Entries::One(Entry::Range(*first, *last)),
            _ => Entries::Many(read_entries(alloc, content)?),
        };
        Ok(Bracket { entries })
    }

    /// The entries, in the order of the pattern.
    pub fn entries(&self) -> &[Entry]
        ensures { result.now ≡ self.now }
    {
        match &self.entries {
            Entries::One(entry) => slice::from_ref(entry),
            Entries::Many(entries) => entries.as_slice(),
        }
    }

    /// Whether an entry holds `c`. Case-insensitively, a single ASCII letter holds either case, and a range between two
    /// of them also holds the ASCII characters whose lower case is between those of its ends.
    pub fn holds(&self, c: char, case_sensitive: bool) -> bool
        ensures { result ≡ holds case_sensitive c self.now }
    {
        self.entries()
            .iter()
            .any(|entry| entry.holds(c, case_sensitive))
    }
}

/// A copy of the entries on the same allocator. Fails only if allocation fails.
impl<A: Allocator + Copy> Clone for Bracket<A> {
    ghost is_clone = { λ bracket copy. copy ≡ bracket };

    fn clone(&self) -> Result<Self, AllocError> {
        let entries = match &self.entries {
            Entries::One(entry) => Entries::One(*entry),
            Entries::Many(entries) => {
                Entries::Many(Vec::from_slice(*entries.allocator(), entries.as_slice())?)
            }
        };
        Ok(Bracket { entries })
    }
}

/// Reads the entries of a bracket's content into a list. Fails only if allocation fails.
fn read_entries<A: Allocator>(alloc: A, content: &[char]) -> Result<Vec<Entry, A>, AllocError>
    ensures { IfOk result (λ entries. entries.items ≡ entries_of content.now) }
{
    let mut entries = Vec::with_capacity(alloc, content.len().min(FEW))?;
    let mut rest = content;
    while let [first, others @ ..] = rest {
        let (entry, after) = match others {
            [hyphen, last, after @ ..] if *hyphen == '-' => (Entry::Range(*first, *last), after),
            _ => (Entry::Single(*first), others),
        };
        entries.push(entry)?;
        rest = after;
    }
    Ok(entries)
}

/// Whether `c` and `x` are equal, or, case-insensitively, are ASCII characters with the same lower case.
pub fn is_same(case_sensitive: bool, c: char, x: char) -> bool
    ensures { result ≡ is_same case_sensitive c x }
{
    c == x
        || (!case_sensitive
            && c.is_ascii()
            && x.is_ascii()
            && c.to_ascii_lowercase() == x.to_ascii_lowercase())
}

/// Whether `c` is in the range from `x` to `y` once all are in lower case. False unless all three are ASCII and both
/// ends are letters.
fn is_in_folded_range(x: char, y: char, c: char) -> bool
    ensures { result ≡ in_folded_range x y c }
{
    if !x.is_ascii() || !y.is_ascii() || !c.is_ascii() {
        return false;
    }
    let first = x.to_ascii_lowercase();
    let last = y.to_ascii_lowercase();
    let lower = c.to_ascii_lowercase();
    first.is_ascii_lowercase() && last.is_ascii_lowercase() && first <= lower && lower <= last
}
