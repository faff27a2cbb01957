//! Random trees in memory.

use crate::chance::Chance;
use glob_replay::words::unusable;
use glob_tree::MemTree;
use std::alloc::{AllocError, Global};
use std::collections::BTreeMap;
use std::io;

/// The names in trees.
static NAMES: [&str; 10] = ["a", "b", "ab", "a.c", ".a", "é", "abc", "B", "b.c", "[a]"];

/// The names of files with rules.
static RULE_FILES: [&str; 2] = ["rules", ".more"];

/// Lines of rules.
static RULES: [&str; 21] = [
    "a", "b/", "/ab", "*.c", "!a.c", "a/b", "**/ab", "/a/**", "!b", "#b", "!/a/a", "a/*/b",
    "\\[a]", "?b", "/*/b*", "!*", "!*/", "rules", "[!a]*/", "a/**/b", "!/é",
];

/// The directories in which searches start.
static STARTS: [&str; 2] = ["", "/start"];

/// What is in a tree, below the directory in which searches start.
#[derive(Drop)]
pub struct Forest {
    /// Each path, and whether it is a directory. Paths have a NUL in place of each `/`, so that they sort by their
    /// names.
    pub places: BTreeMap<String, bool>,
    /// The paths of directories, each after its parent's. The first is empty: the start.
    pub directories: Vec<String>,
    /// The texts of files with rules, by their paths.
    pub texts: BTreeMap<String, String>,
    start: String,
    alloc: Global,
}

impl Forest {
    /// A random tree.
    pub fn random(alloc: Global, chance: &mut Chance) -> io::Result<Self> {
        let mut directories = Vec::new(alloc);
        directories.push(String::new(alloc))?;
        let mut forest = Forest {
            places: BTreeMap::new(alloc),
            directories,
            texts: BTreeMap::new(alloc),
            start: String::from_str(alloc, chance.pick(&STARTS))?,
            alloc,
        };
        forest.add_texts("", chance)?;
        for _ in 0..chance.below(12).saturating_add(4) {
            forest.add_somewhere(chance)?;
        }
        Ok(forest)
    }

    /// The tree in memory.
    pub fn tree(&self) -> io::Result<MemTree> {
        let mut tree = MemTree::new(self.alloc)?;
        if !self.start.is_empty() {
            tree.add_dir(self.start.as_str()).map_err(|_| unusable())?;
            tree.set_current(self.start.as_str())
                .map_err(|_| unusable())?;
        }
        for (place, is_dir) in self.places.iter() {
            let path = place.replace(self.alloc, "\0", "/")?;
            let full = format!(in self.alloc; "{}/{path}", self.start)?;
            let added = if *is_dir {
                tree.add_dir(full.as_str())
            } else {
                tree.add_other(full.as_str())
            };
            added.map_err(|_| unusable())?;
        }
        Ok(tree)
    }

    /// Adds a file, or a directory and its files with rules, unless something is there.
    fn add_somewhere(&mut self, chance: &mut Chance) -> io::Result<()> {
        let number = chance.below(self.directories.len());
        let above = self
            .directories
            .get(number)
            .map_or("", |path| path.as_str());
        let path = path_in(self.alloc, above, chance.pick(&NAMES))?;
        let is_dir = !chance.is_one_in(3);
        if self.add(path.as_str(), is_dir)? && is_dir {
            self.add_texts(path.as_str(), chance)?;
            self.directories.push(path)?;
        }
        Ok(())
    }

    /// Adds files with rules to a directory.
    fn add_texts(&mut self, directory: &str, chance: &mut Chance) -> io::Result<()> {
        for name in &RULE_FILES {
            if chance.is_one_in(3) {
                let path = path_in(self.alloc, directory, name)?;
                self.add(path.as_str(), false)?;
                self.texts.insert(path, random_rules(chance)?)?;
            }
        }
        Ok(())
    }

    /// Adds something at a path, and returns whether the path was free.
    fn add(&mut self, path: &str, is_dir: bool) -> io::Result<bool> {
        let place = path.replace(self.alloc, "/", "\0")?;
        if self.places.contains_key(place.as_str()) {
            return Ok(false);
        }
        self.places.insert(place, is_dir)?;
        Ok(true)
    }
}

/// The path of a name in a directory.
pub fn path_in(alloc: Global, directory: &str, name: &str) -> Result<String, AllocError> {
    if directory.is_empty() {
        return String::from_str(alloc, name);
    }
    format!(in alloc; "{directory}/{name}")
}

/// Random rules, one a line.
pub fn random_rules(chance: &mut Chance) -> Result<String, AllocError> {
    chance.joined(&RULES, 4, '\n')
}
