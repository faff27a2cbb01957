//! A tree that counts what it is asked. Contracts know nothing about its content, so it may give any answer.
ghost use Rattle.std.specs.Prelude.{◌≡◌, ◌+◌, None};

use crate::contents::tree_of;
use crate::counts::{Counts, raise};
use crate::ration::Memory;
use crate::streams::error_of;
use crate::words::unusable;
use glob_tree::{Asks, Entry, ListError, Look, MemTree, Name, Tree};
use std::alloc::AllocError;
use std::io;

/// The answer of a listing.
pub type Listed<A> = Result<Vec<Entry<A>, A>, ListError>;

/// Where the answers come from.
#[derive(Drop)]
pub enum Source<'a, M: Memory> {
    /// From a tree in memory.
    Known(MemTree<M>),
    /// From words in this memory, one list for lookups and one for listings: the first word answers the first call, and
    /// so on. The last word answers all later calls.
    Written(M, &'a str, &'a str),
}

impl<M: Memory> Source<'_, M> {
    fn look(&mut self, path: &str) -> Result<Look, AllocError> {
        match self {
            Source::Known(tree) => tree.look(path),
            Source::Written(_, looks, _) => match next_word(looks) {
                "Dir" => Ok(Look::Dir),
                "Other" => Ok(Look::Other),
                "Missing" => Ok(Look::Missing),
                _ => Err(AllocError),
            },
        }
    }

    fn list(&mut self, path: &str) -> Listed<M> {
        match self {
            Source::Known(tree) => tree.list(path),
            Source::Written(alloc, _, lists) => match next_word(lists) {
                "~" => Err(ListError::Memory),
                word => match word.strip_prefix('!') {
                    Some(name) => Err(ListError::Read(error_of(name).unwrap_or(unusable()))),
                    None => entries_of(*alloc, word),
                },
            },
        }
    }
}

/// Returns the first of the words, and removes it unless it is the last.
fn next_word<'a>(words: &mut &'a str) -> &'a str {
    let (word, rest) = words.split_once(' ').unwrap_or((*words, *words));
    *words = rest;
    word
}

/// The entries of a word: names separated by commas, with `/` after directories. `''` has none.
fn entries_of<M: Memory>(alloc: M, names: &str) -> Listed<M> {
    let mut entries = Vec::new(alloc);
    for name in names.split(',').filter(|name| *name != "''") {
        let is_dir = name.ends_with('/');
        if let Ok(name) = Name::new(String::from_str(alloc, name.trim_end_matches('/'))?) {
            entries.push(Entry { name, is_dir })?;
        }
    }
    Ok(entries)
}

/// A tree that counts what it is asked.
#[derive(Drop)]
pub struct AskedTree<'a, M: Memory> {
    source: Source<'a, M>,
    pub counts: &'a Counts,
    asks: Asks,
}

impl<'a, M: Memory> AskedTree<'a, M> {
    /// A tree that counts in `counts`.
    pub fn new(source: Source<'a, M>, counts: &'a Counts) -> Self {
        AskedTree {
            source,
            counts,
            asks: Asks::new(),
        }
    }

    /// A tree in memory with a content, which counts in `counts`.
    pub fn of(alloc: M, content: &str, counts: &'a Counts) -> io::Result<Self> {
        let tree = tree_of(alloc, alloc.inner(), ("", ""), content)?;
        Ok(AskedTree::new(Source::Known(tree), counts))
    }

    /// Counts this many lookups, listings or entries.
    fn count(&mut self, more: usize)
        ensures asks { self.new.asks ≡ self.old.asks + more }
    {
        self.asks = self.asks.after(more);
        raise(&self.counts.asked, more);
    }
}

impl<M: Memory> Tree for AskedTree<'_, M> {
    type Alloc = M;

    ghost tells = { λ _. None };

    ghost asks = { λ tree. tree.asks };

    fn look(&mut self, path: &str) -> Result<Look, AllocError> {
        raise(&self.counts.looks, 1);
        self.count(1);
        self.source.look(path)
    }

    fn list(&mut self, path: &str) -> Listed<M> {
        raise(&self.counts.listings, 1);
        self.count(1);
        let entries = self.source.list(path)?;
        self.count(entries.len());
        Ok(entries)
    }

    fn list_names(&mut self, path: &str) -> Listed<M> {
        raise(&self.counts.namings, 1);
        self.list(path)
    }
}
