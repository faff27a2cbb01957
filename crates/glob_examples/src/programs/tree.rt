//! Walks a tree in memory, and prints the items.

use glob::{End, MatchOptions, MemTree, TreeRefusal, walk_in};
use std::alloc::Global;
use std::io;

/// A directory with a file and a subdirectory.
fn project(alloc: Global) -> Result<MemTree, TreeRefusal> {
    let mut tree = MemTree::new(alloc)?;
    tree.add_dir("/src")?;
    tree.add_other("/src/main.rs")?;
    tree.add_dir("/src/walk")?;
    tree.add_other("/src/walk/lines.rs")?;
    Ok(tree)
}

pub fn main(rt: HostRuntime) -> io::Result<()> {
    let Ok(tree) = project(rt.alloc()) else {
        return Err(io::Error::other("the tree could not be made"));
    };
    let Ok(walk) = walk_in(rt.alloc(), tree, "src/**/*.rs", MatchOptions::new(), 1_000) else {
        return Err(io::Error::other("it is not a pattern"));
    };
    for item in walk.items.iter() {
        match item {
            Ok(path) => rt.println(path.as_str())?,
            Err(error) => println!(rt; "{error}")?,
        }
    }
    match walk.end {
        End::Done => println!(rt; "{} units of work", walk.spent),
        End::Limit | End::Memory => Err(io::Error::other("the walk is not complete")),
    }
}
