//! How many directories a walk keeps between two steps, over trees in memory.

use crate::{Step, WalkMachine};
use glob_pattern::MatchOptions;
use glob_tree::MemTree;
use std::alloc::Global;
use std::test::Fail;

/// A key of four names, with an entry after each of its directories.
const BRANCHED: &str = "/a/ /a/c/ /a/c/e/ /a/c/e/g /a/c/e/h /a/c/f /a/d /b";

/// A key of four names, and nothing else.
const CHAIN: &str = "/a/ /a/b/ /a/b/c/ /a/b/c/d";

/// The keys of a tree, a pattern, and how many directories its walk keeps at most. The last pattern is not plain.
const ROWS: [(&str, &str, usize); 9] = [
    ("", "*", 0),
    ("/x /y", "*", 1),
    (BRANCHED, "a/c/e/*", 1),
    (BRANCHED, "*/*/*/*", 4),
    (BRANCHED, "**", 3),
    (BRANCHED, "**/g", 4),
    (CHAIN, "*/*/*/*", 0),
    (CHAIN, "**", 1),
    ("/a/ /b/", "*/../*/../*", 3),
];

/// The tree of these keys. Directories end in `/`.
fn tree_of(alloc: Global, keys: &str) -> Result<MemTree, Fail> {
    let mut tree = MemTree::new(alloc)?;
    for key in keys.split_whitespace() {
        match key.strip_suffix('/') {
            Some(directory) => tree.add_dir(directory)?,
            None => tree.add_other(key)?,
        }
    }
    Ok(tree)
}

/// The most directories that the walk keeps between two steps, and how many after its end.
fn most_kept(alloc: Global, keys: &str, pattern: &str) -> Result<(usize, usize), Fail> {
    let mut tree = tree_of(alloc, keys)?;
    let mut walk = WalkMachine::new(alloc, pattern, MatchOptions::new(), 100)?;
    let mut most = 0;
    for _ in 0..1_000 {
        if let Step::Done = walk.advance(&mut tree) {
            break;
        }
        most = most.max(walk.kept());
    }
    Ok((most, walk.kept()))
}

#[test]
fn a_walk_keeps_directories_with_entries_left(rt: HostRuntime) -> Result<(), Fail> {
    for (keys, pattern, most) in ROWS {
        let kept = most_kept(rt.alloc(), keys, pattern)?;
        assert!(rt; kept == (most, 0), "{pattern} over {keys}");
    }
    Ok(())
}
