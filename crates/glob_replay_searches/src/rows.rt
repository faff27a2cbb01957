//! Rows about random searches.

use crate::case::Case;
use crate::chance::Chance;
use glob_replay::calls::{Calls, Make};
use glob_replay::ration::Memory;
use glob_replay::words::{number_of, unusable};
use std::alloc::Global;
use std::io::{self, Write};

/// Random searches. The first word of a row names its calls, and the others are its fields.
#[derive(Clone, Copy)]
pub struct Searches;

impl Make for Searches {
    fn make<M: Memory>(&self, calls: &mut Calls<M>, row: &[&str]) -> io::Result<()> {
        match row {
            ["search at random", count, seed] => {
                let tally = search_at_random(
                    &mut calls.words,
                    number_of(count)?,
                    number_of(seed)?,
                )?;
                tally.add_to(&mut calls.words)
            }
            _ => Err(unusable()),
        }
    }
}

/// How many searches there are, how many agree with the filter, how many of these find something, and how many leave
/// something out by rules.
#[derive(Default, Drop)]
struct Tally {
    all: usize,
    agree: usize,
    find: usize,
    ignore: usize,
}

impl Tally {
    /// Adds how many agree, whether a quarter of all find something, and whether a tenth leave something out by rules.
    fn add_to(&self, words: &mut String) -> io::Result<()> {
        let find = amount(self.find, self.all / 4);
        let ignore = amount(self.ignore, self.all / 10);
        Ok(write!(words, "{} agree, {find} find, {ignore} ignore", self.agree)?)
    }

    /// Makes a search, and counts it if it finds the same as the filter. Otherwise adds what it finds.
    fn compare(&mut self, words: &mut String, case: &Case) -> io::Result<()> {
        let alloc = *words.allocator();
        let (filtered, found) = (case.filtered(alloc)?, case.found(alloc)?);
        self.all = self.all.saturating_add(1);
        if found != filtered.lines {
            return add_difference(words, case, found.as_str(), filtered.lines.as_str());
        }
        self.agree = self.agree.saturating_add(1);
        if !found.is_empty() {
            self.find = self.find.saturating_add(1);
        }
        if filtered.ignored > 0 {
            self.ignore = self.ignore.saturating_add(1);
        }
        Ok(())
    }
}

/// Whether there are at least that many, in words.
fn amount<'a>(number: usize, least: usize) -> &'a str {
    if number >= least { "many" } else { "few" }
}

/// Makes this many random searches, from a seed on, and adds those that do not agree with the filter.
fn search_at_random(words: &mut String, count: usize, seed: usize) -> io::Result<Tally> {
    let alloc = *words.allocator();
    let mut chance = Chance::new(alloc, seed as u64);
    let mut tally = Tally::default();
    for _ in 0..count {
        let case = Case::random(alloc, &mut chance)?;
        tally.compare(words, &case)?;
    }
    Ok(tally)
}

/// Adds the patterns of a search that does not agree with the filter, what it finds, and what the filter finds.
fn add_difference(words: &mut String, case: &Case, found: &str, filtered: &str) -> io::Result<()> {
    for text in case.patterns.as_slice() {
        write!(words, "{text} ")?;
    }
    Ok(write!(words, "finds {found}and not {filtered}")?)
}
