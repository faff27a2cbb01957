//! Walks over the real file system.
ghost use Rattle.std.specs.Prelude.{◌≡◌, ◌-◌, ◌^◌, None, IfOk, IfErr};
ghost use Rattle.glob_pattern.specs.Matching.Options.{new_options};
ghost use Rattle.glob_tree.specs.Content.{Content};
ghost use Rattle.glob_walk.specs.Walks.{listing, RefusesWith};
ghost use Rattle.glob_walk.specs.Components.{walk_fault};
ghost use Rattle.glob_walk.specs.Machines.{IsFresh, listing_of};

use crate::paths::{Paths, glob_in};
use glob_pattern::{MatchOptions, PatternRefusal};
use glob_tree::{Disk, System};
use std::alloc::Allocator;

/// Walks the file system that `rt` reaches, as [`glob_in`](crate::glob_in) walks a [`Disk`], with the options of
/// `MatchOptions::new()` and the limit `u64::MAX`, which no walk reaches.
///
/// If these files exist, `glob(rt, alloc, "src/*.rs")` gives `src/lib.rs` and `src/walk.rs`, in this order. Errors are
/// as for [`glob_in`](crate::glob_in).
pub fn glob<R: System, A: Allocator + Copy>(
    rt: R,
    alloc: A,
    pattern: &str,
) -> Result<Paths<Disk<R, A>>, PatternRefusal>
    ensures accepted { IfOk result (λ _. walk_fault pattern.now ≡ None) }
    ensures refused { IfErr result (RefusesWith (walk_fault pattern.now)) }
    ensures tree { IfOk result (λ p. p.tree ≡ record { files = R.holds rt; asks = 0 }) }
    ensures fresh { IfOk result (λ p. IsFresh (2 ^ 64 - 1) p.machine) }
    ensures aim { IfOk result
        (λ p. (c : Content) → listing_of c p.machine.aim ≡ listing c new_options pattern.now) }
{
    glob_with(rt, alloc, pattern, MatchOptions::new())
}

/// [`glob`] with these options: under the dot rule `*` gives no dotted name. Errors are as for
/// [`glob_in`](crate::glob_in).
pub fn glob_with<R: System, A: Allocator + Copy>(
    rt: R,
    alloc: A,
    pattern: &str,
    options: MatchOptions,
) -> Result<Paths<Disk<R, A>>, PatternRefusal>
    ensures accepted { IfOk result (λ _. walk_fault pattern.now ≡ None) }
    ensures refused { IfErr result (RefusesWith (walk_fault pattern.now)) }
    ensures tree { IfOk result (λ p. p.tree ≡ record { files = R.holds rt; asks = 0 }) }
    ensures fresh { IfOk result (λ p. IsFresh (2 ^ 64 - 1) p.machine) }
    ensures aim { IfOk result
        (λ p. (c : Content) → listing_of c p.machine.aim ≡ listing c options pattern.now) }
{
    glob_in(alloc, Disk::new(rt, alloc), pattern, options, u64::MAX)
}
