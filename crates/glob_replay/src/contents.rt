//! Trees in memory from the words of a content: a file is its path, a directory has `/` after it, and a directory that
//! cannot be listed has `#` before it. `a/b/` stands for the directories `a` and `a/b`.

use crate::words::{out_of_memory, unusable};
use ErrorKind::PermissionDenied;
use glob_tree::{MemTree, TreeRefusal};
use std::alloc::{Allocator, Global};
use std::io::{self, ErrorKind};

/// The tree of a content below a folder, which is its current directory. Paths are in the memory `inner`, and `shut`
/// cannot be listed.
pub fn tree_of<A: Allocator + Copy>(
    alloc: A,
    inner: Global,
    (folder, shut): (&str, &str),
    content: &str,
) -> io::Result<MemTree<A>> {
    let mut tree = MemTree::new(alloc)?;
    if !folder.is_empty() {
        tree.add_dir(folder).map_err(fault_of)?;
        tree.set_current(folder).map_err(fault_of)?;
    }
    for word in content.split_whitespace() {
        let is_shut = word.starts_with('#') || name_of(word) == shut;
        let path = format!(in inner; "{folder}/{}", word.trim_start_matches('#'))?;
        plant(&mut tree, &path, is_shut)?;
    }
    Ok(tree)
}

/// Adds what is at a path: each directory on it if it ends in `/`, otherwise a file.
fn plant<A: Allocator + Copy>(tree: &mut MemTree<A>, path: &str, is_shut: bool) -> io::Result<()> {
    let name = name_of(path);
    if is_shut {
        return tree.add_shut(name, PermissionDenied).map_err(fault_of);
    }
    if !is_directory(path) {
        return tree.add_other(name).map_err(fault_of);
    }
    for (end, _) in path.match_indices('/').skip(1) {
        let (directory, _) = path.split_at_checked(end).ok_or(unusable())?;
        match tree.add_dir(directory) {
            Ok(()) | Err(TreeRefusal::Taken) => {}
            Err(refusal) => return Err(fault_of(refusal)),
        }
    }
    Ok(())
}

/// The error for a refused change.
fn fault_of(refusal: TreeRefusal) -> io::Error {
    match refusal {
        TreeRefusal::Memory => out_of_memory(),
        _ => unusable(),
    }
}

/// The path in a word of a content: `a` for `#a` and `a/`.
pub fn name_of(word: &str) -> &str {
    word.trim_start_matches('#').trim_end_matches('/')
}

/// Whether a word of a content stands for a directory.
pub fn is_directory(word: &str) -> bool {
    word.starts_with('#') || word.ends_with('/')
}
