//! Random searches.

use crate::chance::Chance;
use crate::forest::{Forest, random_rules};
use glob_pattern::MatchOptions;
use glob_search::Wanted;
use std::alloc::{AllocError, Global};
use std::io;

/// Components of patterns.
static COMPONENTS: [&str; 25] = [
    "*", "*", "*", "**", "**", "**", "a", "b", "ab", "?", "a*", "*b*", "[ab]*", "[!a]?", "*.c",
    ".*", "é", "B", "a.c", "??", "[[]a]", "x", "*[b-c]", "[.a]*", "rules",
];

/// The names of the files with rules that a search reads. The last one is asked first.
static RULE_NAMES: [&str; 4] = ["", "rules", "rules .more", ".more rules"];

/// A search, and the tree that it is made in.
#[derive(Drop)]
pub struct Case {
    pub patterns: Vec<String>,
    pub options: MatchOptions,
    pub wanted: Wanted,
    pub kinds: bool,
    pub depth: usize,
    /// Lists of rules that override the rules of files, and lists that the files override.
    pub first: Vec<String>,
    pub last: Vec<String>,
    /// The names of the files with rules that a search reads, with blanks between.
    pub rule_names: String,
    pub forest: Forest,
}

impl Case {
    /// A random search in a random tree.
    pub fn random(alloc: Global, chance: &mut Chance) -> io::Result<Self> {
        Ok(Case {
            patterns: random_patterns(alloc, chance)?,
            options: random_options(chance),
            wanted: random_wanted(chance),
            kinds: chance.is_one_in(2),
            depth: random_depth(chance),
            first: random_lists(alloc, chance)?,
            last: random_lists(alloc, chance)?,
            rule_names: String::from_str(alloc, chance.pick(&RULE_NAMES))?,
            forest: Forest::random(alloc, chance)?,
        })
    }
}

/// From one to four patterns, each of one to four components.
fn random_patterns(alloc: Global, chance: &mut Chance) -> Result<Vec<String>, AllocError> {
    let mut patterns = Vec::new(alloc);
    for _ in 0..=chance.below(4) {
        patterns.push(chance.joined(&COMPONENTS, 4, '/')?)?;
    }
    Ok(patterns)
}

fn random_options(chance: &mut Chance) -> MatchOptions {
    MatchOptions {
        case_sensitive: chance.is_one_in(2),
        require_literal_separator: chance.is_one_in(2),
        require_literal_leading_dot: chance.is_one_in(2),
    }
}

fn random_wanted(chance: &mut Chance) -> Wanted {
    match chance.below(4) {
        0 => Wanted::Directories,
        1 => Wanted::Others,
        _ => Wanted::All,
    }
}

/// A depth below six names, or no limit.
fn random_depth(chance: &mut Chance) -> usize {
    if chance.is_one_in(2) {
        usize::MAX
    } else {
        chance.below(6)
    }
}

/// Two lists of rules, one, or, in half of all cases, none.
fn random_lists(alloc: Global, chance: &mut Chance) -> Result<Vec<String>, AllocError> {
    let mut lists = Vec::new(alloc);
    for _ in 0..chance.below(4).saturating_sub(1) {
        lists.push(random_rules(chance)?)?;
    }
    Ok(lists)
}
