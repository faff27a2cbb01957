//! A tree of nested directories.
ghost use Rattle.std.specs.Prelude.{None};

use glob::{Asks, Entry, ListError, Look, Name, Tree};
use std::alloc::{AllocError, Global};

/// Each directory holds one directory `d`, and the last one is empty. Unlike on a disk, paths may have any length.
#[derive(Drop)]
pub struct Chain {
    alloc: Global,
    levels: usize,
    asks: Asks,
}

impl Chain {
    /// A chain of `levels` directories below the first one.
    pub fn new(alloc: Global, levels: usize) -> Self {
        Chain {
            alloc,
            levels,
            asks: Asks::new(),
        }
    }

    /// The directory below the path, if there is one.
    fn entries(&self, path: &str) -> Result<Vec<Entry>, AllocError> {
        let mut entries = Vec::new(self.alloc);
        let level = if path == "." {
            0
        } else {
            path.len().div_ceil(2)
        };
        if level < self.levels {
            if let Ok(name) = Name::new(String::from_str(self.alloc, "d")?) {
                entries.push(Entry { name, is_dir: true })?;
            }
        }
        Ok(entries)
    }
}

impl Tree for Chain {
    type Alloc = Global;

    ghost tells = { λ _. None };

    ghost asks = { λ tree. tree.asks };

    fn look(&mut self, _path: &str) -> Result<Look, AllocError> {
        self.asks = self.asks.after(1);
        Ok(Look::Dir)
    }

    fn list(&mut self, path: &str) -> Result<Vec<Entry>, ListError> {
        self.asks = self.asks.after(1);
        let entries = self.entries(path)?;
        self.asks = self.asks.after(entries.len());
        Ok(entries)
    }
}
