//! The lists and names of git's rules, for a search and for paths from elsewhere.
ghost use Rattle.std.specs.Prelude.{◌≡◌, IfOk, map, string_bytes};
ghost use Rattle.globs.specs.Find.Aiming.{first_lists, git_lists, git_names};

use crate::above::GITIGNORE;
use glob_rules::IgnoreList;
use std::alloc::{AllocError, Allocator};

/// The rule that ignores git's own directory.
pub const GIT: &str = ".git";

/// The lists that override ignore files. The list of the command line is asked first; it is left out if it has no
/// rules, so that it does not cause any lookup of kinds.
pub fn first_lists<A: Allocator + Copy>(
    alloc: A,
    is_git: bool,
    is_ruled: bool,
    list: IgnoreList<A>,
) -> Result<Vec<IgnoreList<A>, A>, AllocError>
    ensures { IfOk result (λ lists. lists.items ≡ first_lists is_git is_ruled list) }
{
    let mut lists = git_lists(alloc, is_git)?;
    if !is_ruled {
        return Ok(lists);
    }
    lists.push(list)?;
    Ok(lists)
}

/// The lists that override all others. With `--git`, they ignore each `.git`.
fn git_lists<A: Allocator + Copy>(
    alloc: A,
    is_git: bool,
) -> Result<Vec<IgnoreList<A>, A>, AllocError>
    ensures { IfOk result (λ lists. lists.items ≡ git_lists is_git) }
{
    let mut lists = Vec::new(alloc);
    if is_git {
        let Ok(list) = IgnoreList::new(alloc, GIT) else {
            return Err(AllocError);
        };
        lists.push(list)?;
    }
    Ok(lists)
}

/// The name of git's ignore files, with `--git`.
pub fn git_names<A: Allocator + Copy>(
    alloc: A,
    is_git: bool,
) -> Result<Vec<String<A>, A>, AllocError>
    ensures { IfOk result (λ names. map string_bytes names.items ≡ git_names is_git) }
{
    let mut names = Vec::new(alloc);
    if is_git {
        names.push(String::from_str(alloc, GITIGNORE)?)?;
    }
    Ok(names)
}
