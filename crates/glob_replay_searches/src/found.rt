//! What a search finds.

use crate::case::Case;
use crate::rule_texts::Texts;
use glob_replay::words::unusable;
use glob_rules::IgnoreList;
use glob_search::{OuterRules, Search, Settings};
use std::alloc::Global;
use std::io;

impl Case {
    /// What the search finds, each path on a line as in `Filtered`.
    pub fn found(&self, alloc: Global) -> io::Result<String> {
        let (mut search, mut tree) = (self.search(alloc)?, self.forest.tree()?);
        let mut texts = Texts {
            texts: &self.forest.texts,
            alloc,
        };
        let mut lines = String::new(alloc);
        // No search in such a small tree gives more.
        for _ in 0..1_000 {
            match search.next(&mut tree, &mut texts) {
                Some(Ok(found)) => self.add_line(&mut lines, found.path.as_str(), found.is_dir)?,
                Some(Err(_fault)) => lines.push_str("an error\n")?,
                None => break,
            }
        }
        Ok(lines)
    }

    /// The search.
    fn search(&self, alloc: Global) -> io::Result<Search> {
        let mut patterns = Vec::new(alloc);
        for text in self.patterns.as_slice() {
            patterns.push(text.as_str())?;
        }
        Search::new(alloc, patterns.as_slice(), self.settings(alloc)?).map_err(|_| unusable())
    }

    fn settings(&self, alloc: Global) -> io::Result<Settings> {
        let mut settings = Settings::new(alloc);
        settings.options = self.options;
        settings.depth = self.depth;
        settings.wanted = self.wanted;
        settings.kinds = self.kinds;
        settings.first = lists_of(alloc, self.first.as_slice())?;
        for list in lists_of(alloc, self.last.as_slice())? {
            settings.last.push(OuterRules::at_start(alloc, list))?;
        }
        for name in self.rule_names.split_whitespace() {
            settings.rule_files.push(String::from_str(alloc, name)?)?;
        }
        Ok(settings)
    }
}

/// The lists of rules of these texts.
fn lists_of(alloc: Global, texts: &[String]) -> io::Result<Vec<IgnoreList>> {
    let mut lists = Vec::new(alloc);
    for text in texts {
        lists.push(IgnoreList::new(alloc, text.as_str()).map_err(|_| unusable())?)?;
    }
    Ok(lists)
}
