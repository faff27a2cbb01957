//! A whole walk.
ghost use Rattle.std.specs.Prelude.{◌≡◌, ◌+◌, ◌≤◌, [], length, None, Some, Ok, Err, IfOk, IfErr};
ghost use Rattle.glob_tree.specs.Content.{Content};
ghost use Rattle.glob_tree.specs.Answers.{IsTold};
ghost use Rattle.glob_walk.specs.Components.{walk_fault};
ghost use Rattle.glob_walk.specs.Walks.{listing, HasNoRefusal, IsWalk, IsWalkAsked, RefusesWith};
ghost use Rattle.glob.specs.Private.Walking.{EndsAs};
ghost use Rattle.glob_walk.specs.Goal.{FindsGoal, FindsExactly, FindsTaken};
ghost use Rattle.glob_walk.specs.Iterating.{Walking};
ghost use Rattle.glob_walk.specs.Machines.{IsFresh};
ghost use Rattle.glob_walk.specs.Private.Walkers.{Walk as WalkOf};

use crate::paths::{Paths, glob_in};
use glob_pattern::{MatchOptions, PatternRefusal};
use glob_tree::Tree;
use glob_walk::{End, GlobResult, end_of};

/// The result of a whole walk. For `*` over a file `x` it has the item `x`, the end `Done`, and 3 units spent: for the
/// lookup of the start, its listing, and the entry.
#[derive(Debug, Drop)]
pub struct Walk<T: Tree> {
    /// The items, in order: only the first ones if the walk did not end with `Done`.
    pub items: Vec<GlobResult<T::Alloc>, T::Alloc>,
    /// How it ended.
    pub end: End,
    /// How many units of work were charged.
    pub spent: u64,
    /// The tree, as the walk left it.
    pub tree: T,
}

/// Runs the walk of [`glob_in`](crate::glob_in) to its end. Errors are as for `glob_in`, so they come before the first
/// lookup. A limit that does not suffice, and an allocation failure during the walk, are reported by `end` and not in
/// `items`. With `End::Memory` the last item that was charged for may be missing.
///
/// A pattern is plain if no component is empty, `.` or `..`, and each component that has a wildcard and begins with a
/// dot is right after a `**`. For a plain pattern, matched case-sensitively, over a tree with a known content, if `end`
/// is `Done`:
///
/// - The paths are those below the start that the whole pattern, without a `/` at its end, matches under the separator
///   rule, and under the dot rule if that is set. If the pattern ends in `/` or `**`, only the directories among these
///   are given. What is below a directory that could not be listed may be missing; then the error is an item.
/// - Each path comes once if `**` is in at most one place (`**/**` is one place), and the paths come in order if also
///   at most one component follows it.
///
/// Case-sensitively or not, the paths are those below the start whose names the components take. A component without
/// wildcards takes only its own name, unless it is right after `**`; `**` takes any number of names; any other takes
/// one name that it matches. Over a directory `aaa`, case-insensitively, `AAA` finds nothing, and `**/AAA` finds `aaa`.
///
/// `limit` is in units of work: lookups, listings and entries. Over files `x` and `y`, `walk_in(alloc, tree, "*",
/// options, 4)` gives both and `End::Done`; with the limit 3 it gives none, and `End::Limit`.
pub fn walk_in<T: Tree>(
    alloc: T::Alloc,
    tree: T,
    pattern: &str,
    options: MatchOptions,
    limit: u64,
) -> Result<Walk<T>, PatternRefusal>
    ensures accepted { IfOk result (λ _. walk_fault pattern.now ≡ None) }
    ensures refused { IfErr result (RefusesWith (walk_fault pattern.now)) }
    ensures within { IfOk result (λ walk. walk.spent ≤ limit) }
    ensures asked { IfOk result
        (λ walk. IsWalkAsked limit (T.asks tree) walk.end walk.spent (T.asks walk.tree)) }
    ensures content { IfOk result (λ walk. T.tells walk.tree ≡ T.tells tree) }
    ensures items { IfOk result (λ walk. HasNoRefusal walk.items.items) }
    ensures few { IfOk result (λ walk. length walk.items.items ≤ walk.spent + 1) }
    ensures walk { (c : Content) → IsTold (T.tells tree) c
        → IfOk result
        (λ walk. IsWalk (listing c options pattern.now)
        limit walk.end walk.spent walk.items.items) }
    ensures goal { IfOk result
        (λ walk. FindsGoal (T.tells tree) options pattern.now walk.end walk.items.items) }
    ensures exact { IfOk result
        (λ walk. FindsExactly (T.tells tree) options pattern.now walk.end walk.items.items) }
    ensures taken { IfOk result
        (λ walk. FindsTaken (T.tells tree) options pattern.now walk.end walk.items.items) }
{
    walked(alloc, glob_in(alloc, tree, pattern, options, limit))
}

/// Runs a walk that has been started to its end, or returns the refusal of its pattern. Only patterns are refused, so a
/// refusal comes before the first lookup.
fn walked<T: Tree>(
    alloc: T::Alloc,
    begun: Result<Paths<T>, PatternRefusal>,
) -> Result<Walk<T>, PatternRefusal>
    requires fresh { IfOk begun (λ p. IsFresh p.machine.limit p.machine) }
    ensures refused { IfErr result (λ e. begun ≡ Err e) }
    ensures whole { IfOk result
        (λ walk. (p : Walking T (WalkOf T.Alloc)) × (begun ≡ Ok p)
        × EndsAs T.asks T.tells p walk.end walk.spent walk.items.items walk.tree) }
{
    let paths = begun?;
    Ok(whole(alloc, paths))
}

/// Runs a walk that has done nothing yet to its end. It cannot fail.
fn whole<T: Tree>(alloc: T::Alloc, mut paths: Paths<T>) -> Walk<T>
    requires fresh { IsFresh paths.machine.limit paths.machine }
    ensures { EndsAs T.asks T.tells paths
        result.end result.spent result.items.items result.tree }
{
    let mut items = Vec::new(alloc);
    let end = gather(&mut paths, &mut items);
    let spent = paths.spent();
    Walk {
        items,
        end,
        spent,
        tree: paths.into_tree(),
    }
}

/// Moves the items of a walk that has done nothing yet into a list, up to the end of the walk. It ends because `next`
/// gives at most one item more than the limit has units.
fn gather<T: Tree>(paths: &mut Paths<T>, items: &mut Vec<GlobResult<T::Alloc>, T::Alloc>) -> End
    requires fresh { IsFresh paths.old.machine.limit paths.old.machine }
    requires empty { items.old.items ≡ [] }
    ensures { EndsAs T.asks T.tells paths.old
        result paths.new.machine.spent items.new.items paths.new.tree }
{
    loop {
        let Some(item) = paths.next() else {
            return End::Done;
        };
        if let Some(end) = end_of(&item) {
            return end;
        }
        if items.push(item).is_err() {
            return End::Memory;
        }
    }
}
