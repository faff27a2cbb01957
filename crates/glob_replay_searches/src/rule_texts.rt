//! The texts of the rule files of a tree in memory.
ghost use Rattle.std.specs.Prelude.{None};

use glob_search::RuleTexts;
use glob_tree::ListError;
use std::alloc::Global;
use std::collections::BTreeMap;

/// Texts by their paths.
#[derive(Drop)]
pub struct Texts<'a> {
    pub texts: &'a BTreeMap<String, String>,
    pub alloc: Global,
}

impl RuleTexts for Texts<'_> {
    type Alloc = Global;

    ghost texts = { λ _. None };

    fn text(&mut self, path: &str) -> Result<Option<String>, ListError> {
        match self.texts.get(path) {
            Some(text) => Ok(Some(String::from_str(self.alloc, text.as_str())?)),
            None => Ok(None),
        }
    }
}
