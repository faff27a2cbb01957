//! A build tool's list of sources: all paths that a plain pattern matches, or why they could not all be found.
ghost use Rattle.std.specs.Prelude.{◌≡◌, true, map, IfOk, IfErr};
ghost use Rattle.std.specs.Path.{path_buf_bytes};
ghost use Rattle.glob.specs.Answers.{IsTold};
ghost use Rattle.glob.specs.Content.{Content};
ghost use Rattle.glob.specs.Goal.{is_plain};
ghost use Rattle.glob_examples.specs.Sources.{AreSources};
ghost use Rattle.glob_examples.specs.WalkFaults.{IsMet, IsWalkFault};

use crate::faults::{WalkFault, check_plain};
use glob::{End, MatchOptions, Tree, walk_in};
use std::path::PathBuf;

/// The sources of a build: each path below the current directory, or below `/` if the pattern begins with `/`, that the
/// whole pattern matches case-sensitively and with the separator rule. It is an error if the pattern is not plain, the
/// walk does not finish, or a directory on its way cannot be listed; so over a known content no source is missing.
pub fn sources<T: Tree>(
    alloc: T::Alloc,
    tree: T,
    pattern: &str,
    limit: u64,
) -> Result<Vec<PathBuf<T::Alloc>, T::Alloc>, WalkFault<T::Alloc>>
    ensures files { (c : Content) → IsTold (T.tells tree) c
        → IfOk result (λ files. AreSources c pattern.now (map path_buf_bytes files.items)) }
    ensures plain { IfOk result (λ _. is_plain pattern.now ≡ true) }
    ensures fault { IfErr result (IsWalkFault pattern.now) }
    ensures met { (c : Content) → IsTold (T.tells tree) c
        → IfErr result (IsMet c pattern.now limit) }
{
    check_plain(alloc, pattern)?;
    let walk = walk_in(alloc, tree, pattern, MatchOptions::new(), limit)?;
    match walk.end {
        End::Done => {}
        End::Limit => return Err(WalkFault::Limit),
        End::Memory => return Err(WalkFault::Memory),
    }
    let mut files = Vec::new(alloc);
    for item in walk.items {
        files.push(item?)?;
    }
    Ok(files)
}
