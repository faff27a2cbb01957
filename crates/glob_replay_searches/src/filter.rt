//! What a search has to find, computed by filtering all paths.
//!
//! A search has many lists of rules, each for the paths below one directory. The filter has a single list, for the
//! paths below the start: the rule `b/` of a file in `a` becomes `/a/**/b/` there, and `!/b` becomes `!/a/b`. Since the
//! last rule that names a path decides, the rules that a search asks last come first: `last`, then the rules of files
//! (a directory's before those of the directories in it), then `first`.

use crate::case::Case;
use crate::forest::path_in;
use glob_pattern::Pattern;
use glob_replay::words::{pattern_of, unusable};
use glob_rules::IgnoreList;
use glob_search::Wanted;
use std::alloc::{AllocError, Global};
use std::io::{self, Write};

/// What is to be found.
#[derive(Drop)]
pub struct Filtered {
    /// Each path on a line, with `/` after a directory if kinds are asked for.
    pub lines: String,
    /// How many paths rules leave out.
    pub ignored: usize,
}

impl Case {
    /// The paths that some pattern matches under the separator rule and that are wanted, not too deep, and not ignored.
    pub fn filtered(&self, alloc: Global) -> io::Result<Filtered> {
        let (list, patterns) = (self.list(alloc)?, self.compiled(alloc)?);
        let mut filtered = Filtered {
            lines: String::new(alloc),
            ignored: 0,
        };
        for (place, is_dir) in self.forest.places.iter() {
            let path = place.replace(alloc, "\0", "/")?;
            if !self.is_taken(patterns.as_slice(), path.as_str(), *is_dir)? {
                continue;
            }
            if list.is_ignored(path.as_str(), *is_dir)? {
                filtered.ignored = filtered.ignored.saturating_add(1);
            } else {
                self.add_line(&mut filtered.lines, path.as_str(), Some(*is_dir))?;
            }
        }
        Ok(filtered)
    }

    /// Adds a line: a path, and `/` if it is a directory, or `?` if that is not known, if kinds are asked for.
    pub fn add_line(
        &self,
        lines: &mut String,
        path: &str,
        is_dir: Option<bool>,
    ) -> Result<(), AllocError> {
        let mark = match is_dir {
            Some(true) if self.kinds => "/",
            None if self.kinds => "?",
            _ => "",
        };
        write!(lines, "{path}{mark}\n")
    }

    /// Whether a path is found if no rule ignores it.
    fn is_taken(&self, patterns: &[Pattern], path: &str, is_dir: bool) -> Result<bool, AllocError> {
        let is_wanted = match self.wanted {
            Wanted::All => true,
            Wanted::Directories => is_dir,
            Wanted::Others => !is_dir,
        };
        if !is_wanted || path.split('/').count() > self.depth {
            return Ok(false);
        }
        let mut options = self.options;
        options.require_literal_separator = true;
        for pattern in patterns {
            if pattern.matches_with(path, options)? {
                return Ok(true);
            }
        }
        Ok(false)
    }

    /// The patterns.
    fn compiled(&self, alloc: Global) -> io::Result<Vec<Pattern>> {
        let mut patterns = Vec::new(alloc);
        for text in self.patterns.as_slice() {
            patterns.push(pattern_of(alloc, text.as_str())?)?;
        }
        Ok(patterns)
    }

    /// All rules as one list at the start.
    fn list(&self, alloc: Global) -> io::Result<IgnoreList> {
        let mut rules = String::new(alloc);
        add_texts(&mut rules, self.last.as_slice())?;
        for directory in self.forest.directories.as_slice() {
            self.add_rules_in(&mut rules, directory.as_str())?;
        }
        add_texts(&mut rules, self.first.as_slice())?;
        IgnoreList::new(alloc, rules.as_str()).map_err(|_| unusable())
    }

    /// Adds the rules of the rule files in a directory that a search reads.
    fn add_rules_in(&self, rules: &mut String, directory: &str) -> Result<(), AllocError> {
        let alloc = *rules.allocator();
        for name in self.rule_names.split_whitespace() {
            let path = path_in(alloc, directory, name)?;
            if let Some(text) = self.forest.texts.get(path.as_str()) {
                add_rules_from(rules, directory, text.as_str())?;
            }
        }
        Ok(())
    }
}

/// Adds lists of rules, each rule on a line.
fn add_texts(rules: &mut String, texts: &[String]) -> Result<(), AllocError> {
    for text in texts {
        write!(rules, "{text}\n")?;
    }
    Ok(())
}

/// Adds the rules of a text in a directory, without its comments.
fn add_rules_from(rules: &mut String, directory: &str, text: &str) -> Result<(), AllocError> {
    for rule in text.lines() {
        if !rule.starts_with('#') {
            add_rule_from(rules, directory, rule)?;
        }
    }
    Ok(())
}

/// Adds a rule of a file in a directory. A rule with a `/` before its end is about paths from the directory on; any
/// other rule is about the names of everything below the directory.
fn add_rule_from(rules: &mut String, directory: &str, rule: &str) -> Result<(), AllocError> {
    let (sign, rule) = match rule.strip_prefix('!') {
        Some(rule) => ("!", rule),
        None => ("", rule),
    };
    let depths = if rule.trim_end_matches('/').contains('/') {
        ""
    } else {
        "**/"
    };
    let escaped = directory.replace(*rules.allocator(), "[", "\\[")?;
    let top = path_in(*rules.allocator(), escaped.as_str(), depths)?;
    write!(rules, "{sign}/{top}{}\n", rule.trim_start_matches('/'))
}
