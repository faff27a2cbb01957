//! A directory that a search is in, or enters next.
ghost use Rattle.std.specs.Prelude.{◌≡◌, false, map, string_bytes};
ghost use Rattle.glob_search.specs.Private.Listings.{known_kind};
ghost use Rattle.glob_search.specs.Private.Steps.{IsAbsent, NextFile};

use glob_tree::Entry;
use std::alloc::Allocator;

/// A directory that is to be entered.
#[derive(Drop)]
pub struct Opening<A: Allocator> {
    pub path: String<A>,
    /// The beginnings that are alive in it.
    pub alive: Vec<usize, A>,
}

/// How the entries of a directory are known.
#[derive(Clone, Copy, PartialEq, Eq)]
pub enum Source {
    /// Some names were looked up, and these exist. There may be others.
    LookedUp,
    /// All of them, with their kinds.
    Listed,
    /// All of them, without their kinds.
    Named,
}

/// A directory that was entered.
#[derive(Drop)]
pub struct Frame<A: Allocator> {
    pub path: String<A>,
    /// The beginnings that are alive in it.
    pub alive: Vec<usize, A>,
    pub source: Source,
    /// The entries that are still to be met, each name once, in descending order: the last is met first.
    pub entries: Vec<Entry<A>, A>,
    /// How many names of ignore files are done: the file was read, or is known to be missing.
    pub files: usize,
    /// How many lists of `ActiveRules::files` were there when it was entered.
    pub active: usize,
}

impl<A: Allocator> Frame<A> {
    /// The index of the next name of an ignore file that may exist in it. A later call goes on after it.
    pub fn next_file(&mut self, names: &[String<A>]) -> Option<usize>
        ensures entries { self.new.entries ≡ self.old.entries }
        ensures passes { NextFile (map (λ name. string_bytes name) names.now)
            self.old result self.new }
    {
        while self.files < names.len() {
            let number = self.files;
            self.files += 1;
            if self.may_have(names[number].as_str()) {
                return Some(number);
            }
        }
        None
    }

    /// Whether an entry of it is a directory, if that is known.
    pub fn kind_of(&self, entry: &Entry<A>) -> Option<bool>
        ensures { result ≡ known_kind self.now.source entry.now }
    {
        match self.source {
            Source::LookedUp | Source::Listed => Some(entry.is_dir),
            Source::Named => None,
        }
    }

    /// Whether the name may exist in it; if its names are known, whether the name is one of them.
    fn may_have(&self, name: &str) -> bool
        ensures { result ≡ false → IsAbsent self.now name.now }
    {
        match self.source {
            Source::LookedUp => true,
            Source::Listed | Source::Named => self
                .entries
                .as_slice()
                .binary_search_by(|entry| name.cmp(entry.name.as_str()))
                .is_ok(),
        }
    }
}
