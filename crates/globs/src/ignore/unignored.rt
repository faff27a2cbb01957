//! The records that an ignore list does not ignore.
ghost use Rattle.globs.specs.Unignored.{is_selected};

use crate::ignore::paths::{Paths, is_directory, is_here};
use glob_lines::Selection;
use glob_rules::IgnoreList;
use std::alloc::{AllocError, Allocator};

/// Selects the records that the list does not ignore.
///
/// The rule `/a` ignores both `a` and `./a`. The list's own directory, written `.`, `./`, `/` or as an empty record, is
/// always selected. A path that is not UTF-8 is never selected.
#[derive(Drop)]
pub struct Unignored<'l, A: Allocator> {
    pub list: &'l IgnoreList<A>,
    pub paths: Paths,
}

impl<A: Allocator + Copy> Selection for Unignored<'_, A> {
    ghost selects = { λ u bytes. is_selected u.list.now bytes };

    fn selects(&self, bytes: &[u8]) -> Result<bool, AllocError> {
        match self.paths.read(bytes) {
            Some(path) if is_here(path) => Ok(true),
            Some(path) => Ok(!self.list.is_ignored(path, is_directory(bytes))?),
            None => Ok(false),
        }
    }
}
