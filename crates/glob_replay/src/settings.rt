//! What the lines before a row have set.

use crate::asked_tree::{AskedTree, Source};
use crate::contents::tree_of;
use crate::counts::Counts;
use crate::ration::Memory;
use crate::words::{cut, unusable};
use std::alloc::{AllocError, Global};
use std::collections::BTreeMap;
use std::io;

/// The settings for the rows that follow, by name.
#[derive(Drop)]
pub struct Settings {
    alloc: Global,
    values: BTreeMap<String, String>,
}

impl Settings {
    /// No settings.
    pub fn new(alloc: Global) -> Self {
        Settings {
            alloc,
            values: BTreeMap::new(alloc),
        }
    }

    /// The value of this name; empty if it was not set.
    pub fn get(&self, name: &str) -> &str {
        self.values.get(name).map_or("", |value| value.as_str())
    }

    /// Sets what a line `NAME: VALUE` says. A new content, tree or list of calls discards everything that was set
    /// before.
    pub fn set(&mut self, line: &str) -> io::Result<()> {
        let (name, value) = cut(line, ":")?;
        match name {
            "content" | "tree" | "calls" => self.values = BTreeMap::new(self.alloc),
            "more" | "in memory" | "in" | "shut" | "walked" | "options" | "limits of" | "refused" =>
                {}
            _ => return Err(unusable()),
        }
        let name = String::from_str(self.alloc, name)?;
        let value = String::from_str(self.alloc, value.trim())?;
        self.values.insert(name, value)?;
        Ok(())
    }

    /// The words of the content in memory.
    pub fn content(&self) -> Result<String, AllocError> {
        let (content, more, extra) = (self.get("content"), self.get("more"), self.get("in memory"));
        format!(in self.alloc; "{content} {more} {extra}")
    }

    /// The tree of the walks of a row, which counts its questions.
    pub fn tree<'a, M: Memory>(
        &'a self,
        alloc: M,
        counts: &'a Counts,
    ) -> io::Result<AskedTree<'a, M>> {
        let place = (self.get("in"), self.get("shut"));
        let source = match self.get("tree").split_once(" | ") {
            None => Source::Known(tree_of(alloc, self.alloc, place, &self.content()?)?),
            Some((looks, lists)) => Source::Written(alloc, looks, lists),
        };
        Ok(AskedTree::new(source, counts))
    }

    /// Each word of a row, with each setting of the options.
    pub fn cases<'a>(&'a self, words: &'a str) -> Result<Vec<(&'a str, &'a str)>, AllocError> {
        let settings = self.get("options");
        let settings = if settings.is_empty() { "-" } else { settings };
        let mut cases = Vec::new(self.alloc);
        for setting in settings.split_whitespace() {
            for word in words.split_whitespace() {
                cases.push((setting, word))?;
            }
        }
        Ok(cases)
    }
}
