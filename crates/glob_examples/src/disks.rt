//! Walks over a disk whose system holds a known file system.
ghost use Rattle.std.specs.Prelude.{IfOk, Some, option_and_then};
ghost use Rattle.glob_tree.specs.Disks.{content_with_links};
ghost use Rattle.glob_tree.specs.Followed.{followed};
ghost use Rattle.glob_tree.specs.declared.physical.Links.TheVariants.{Kept};
ghost use Rattle.glob_walk.specs.Goal.{FindsExactly, FindsTaken};

use glob::{Disk, MatchOptions, MemSystem, MemTree, PatternRefusal, System, Walk, walk_in};
use glob_tree::{PhysicalDisk, Strays};
use std::alloc::Allocator;

/// Walks the disk that a system reaches, for a pattern. If the system holds a known file system in which each listed
/// file can be looked up, all names are UTF-8 and no symbolic link points to a directory, the walk finds the same as a
/// walk over a tree in memory with this content.
pub fn walk_disk<S: System, A: Allocator + Copy>(
    alloc: A,
    system: S,
    pattern: &str,
    options: MatchOptions,
    limit: u64,
) -> Result<Walk<Disk<S, A>>, PatternRefusal>
    ensures exact { IfOk result
        (λ walk. FindsExactly (option_and_then followed (S.holds system))
        options pattern.now walk.end walk.items.items) }
    ensures taken { IfOk result
        (λ walk. FindsTaken (option_and_then followed (S.holds system))
        options pattern.now walk.end walk.items.items) }
{
    walk_in(alloc, Disk::new(system, alloc), pattern, options, limit)
}

/// Walks the disk that a system reaches, for a pattern, with symbolic links kept. If the system holds a known file
/// system in which each listed file can be looked up, the walk finds the same as a walk over a tree in memory in which
/// each symbolic link is a file, even a link to a directory: nothing below a link is found. Names that are not UTF-8 go
/// to `strays`.
pub fn walk_physical<R: System, S: Strays, A: Allocator + Copy>(
    alloc: A,
    system: R,
    strays: S,
    pattern: &str,
    options: MatchOptions,
    limit: u64,
) -> Result<Walk<PhysicalDisk<R, S, A>>, PatternRefusal>
    ensures exact { IfOk result
        (λ walk. FindsExactly (option_and_then (content_with_links Kept) (R.holds system))
        options pattern.now walk.end walk.items.items) }
    ensures taken { IfOk result
        (λ walk. FindsTaken (option_and_then (content_with_links Kept) (R.holds system))
        options pattern.now walk.end walk.items.items) }
{
    let disk = PhysicalDisk::new(system, strays, alloc);
    walk_in(alloc, disk, pattern, options, limit)
}

/// Walks, for a pattern, a disk that has the files of a tree in memory and reads directories in pieces of the given
/// number of bytes. The walk finds the same as a walk over the tree itself.
pub fn walk_files<A: Allocator + Copy>(
    alloc: A,
    files: MemTree<A>,
    piece: usize,
    pattern: &str,
    options: MatchOptions,
    limit: u64,
) -> Result<Walk<Disk<MemSystem<A>, A>>, PatternRefusal>
    ensures exact { IfOk result (λ walk. FindsExactly (Some files.content)
        options pattern.now walk.end walk.items.items) }
    ensures taken { IfOk result (λ walk. FindsTaken (Some files.content)
        options pattern.now walk.end walk.items.items) }
{
    walk_disk(alloc, MemSystem::new(files, piece), pattern, options, limit)
}
