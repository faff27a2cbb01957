//! Ignore rules from the start and the directories above it.
ghost use Rattle.std.specs.Prelude.{◌≡◌, [], IfOk, string_bytes};
ghost use Rattle.glob_search.specs.Aims.{outer_of};
ghost use Rattle.glob_rules.specs.Deciding.{naming_rule};
ghost use Rattle.glob_tree.specs.Paths.{join};
ghost use Rattle.glob_search.specs.Private.Asked.{last_of, seen_by_outer};
ghost use Rattle.glob_search.specs.Searching.{entered, ignores_directory};

use glob_rules::{IgnoreList, Rule};
use glob_tree::join;
use std::alloc::{AllocError, Allocator, Global};

/// A list of rules for the paths below its directory, which is the start or a directory above it.
#[derive(Drop)]
pub struct OuterRules<A: Allocator = Global> {
    /// The path of the start from that directory on, such as `src/bin`; empty if the directory is the start.
    pub prefix: String<A>,
    pub list: IgnoreList<A>,
}

impl<A: Allocator + Copy> OuterRules<A> {
    /// A list of rules for the paths below the start.
    pub fn at_start(alloc: A, list: IgnoreList<A>) -> Self
        ensures prefix { string_bytes result.prefix ≡ [] }
        ensures list { result.list ≡ list }
    {
        OuterRules {
            prefix: String::new(alloc),
            list,
        }
    }
}

/// The last of some lists with a rule that names a path below the start: its number, and its last such rule.
pub fn last_outer<A: Allocator + Copy>(
    alloc: A,
    lists: &[OuterRules<A>],
    path: &str,
    is_dir: bool,
) -> Result<Option<(usize, Rule)>, AllocError>
    ensures { IfOk result
        (λ answer. answer ≡ last_of (seen_by_outer path.now lists.now) is_dir 0) }
{
    let mut left = lists.len();
    while left > 0 {
        left -= 1;
        if let Some(rule) = naming_below(alloc, &lists[left], path, is_dir)? {
            return Ok(Some((left, rule)));
        }
    }
    Ok(None)
}

/// The last rule of a list that names a path below the start.
fn naming_below<A: Allocator + Copy>(
    alloc: A,
    outer: &OuterRules<A>,
    path: &str,
    is_dir: bool,
) -> Result<Option<Rule>, AllocError>
    ensures { IfOk result (λ rule. rule
        ≡ naming_rule outer.now.list (join (string_bytes outer.now.prefix) path.now) is_dir) }
{
    let prefix = outer.prefix.as_str();
    if prefix.is_empty() {
        return outer.list.naming_rule(path, is_dir);
    }
    let path = join(alloc, prefix, path)?;
    outer.list.naming_rule(path.as_str(), is_dir)
}

/// Whether the lists ignore a directory of this name that is directly in the start.
pub fn ignores_directory<A: Allocator + Copy>(
    alloc: A,
    lists: &[OuterRules<A>],
    name: &str,
) -> Result<bool, AllocError>
    ensures { IfOk result
        (λ ignored. ignored ≡ ignores_directory (outer_of lists.now) name.now) }
{
    match last_outer(alloc, lists, name, true)? {
        Some((_, rule)) => Ok(!rule.negative),
        None => Ok(false),
    }
}

/// The same lists, as seen from the directory with this name in the start.
pub fn entered<A: Allocator + Copy>(
    alloc: A,
    lists: Vec<OuterRules<A>, A>,
    name: &str,
) -> Result<Vec<OuterRules<A>, A>, AllocError>
    ensures { IfOk result
        (λ deeper. outer_of deeper.items ≡ entered name.now (outer_of lists.items)) }
{
    let mut deeper = Vec::new(alloc);
    for OuterRules { prefix, list } in lists {
        let prefix = join(alloc, prefix.as_str(), name)?;
        deeper.push(OuterRules { prefix, list })?;
    }
    Ok(deeper)
}
