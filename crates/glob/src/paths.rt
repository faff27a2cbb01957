//! A walk over a tree, item by item.
ghost use Rattle.std.specs.Prelude.{◌≡◌, ◌≤◌, ◌+◌, [], None, IfOk, IfErr};
ghost use Rattle.glob_tree.specs.Content.{Content};
ghost use Rattle.glob_walk.specs.Walks.{listing, RefusesWith};
ghost use Rattle.glob_walk.specs.Components.{walk_fault};
ghost use Rattle.glob_walk.specs.Machines.{HasGiven, IsFresh, listing_of};

use glob_pattern::{MatchOptions, PatternRefusal};
use glob_tree::Tree;
use glob_walk::{GlobResult, Step, WalkMachine};
use std::fmt;
use std::marker::Model;

/// The items of a walk: the paths that a pattern leads to in a tree, in order, and an error for each directory that
/// could not be listed. Over files `x` and `y`, `*` gives `x` and then `y`.
///
/// The last item may be a refusal: the limit was reached, at the path of the item, or an allocation failed. After a
/// refusal, and after the first `None`, only `None` follows.
#[derive(Drop)]
pub struct Paths<T: Tree> {
    tree: T,
    machine: WalkMachine<T::Alloc>,
}

impl<T: Tree> Model for Paths<T> {
    ghost use Rattle.glob_walk.specs.Private.Walkers.{Walk};
    ghost use Rattle.glob.specs.Private.Walking.{IsDriven};
    ghost use Rattle.glob_walk.specs.Iterating.{Walking};

    ghost Value = { Walking T (Walk T.Alloc) };

    ghost view = { λ p. record { tree = p.tree; machine = p.machine } };

    ghost invariant = { λ p. IsDriven T.tells p.tree p.machine };
}

/// How many units were charged, and how many items given.
impl<T: Tree> fmt::Debug for Paths<T> {
    fn fmt<W: fmt::Write>(&self, f: &mut fmt::Formatter<W>) -> fmt::Result {
        f.debug_struct("Paths")
            .field("spent", &self.spent())
            .field("given", &self.given())
            .finish()
    }
}

impl<T: Tree> Paths<T> {
    /// A walk that has done nothing yet, whose questions the tree answers.
    pub(crate) fn new(tree: T, machine: WalkMachine<T::Alloc>) -> Self
        requires { IsFresh machine.limit machine }
        ensures tree { result.tree ≡ tree }
        ensures machine { result.machine ≡ machine }
    {
        Paths { tree, machine }
    }

    /// How many units of work were charged: never more than the limit. It is 0 before the first call of `next`.
    pub fn spent(&self) -> u64
        ensures spent { result ≡ self.now.machine.spent }
        ensures within { result ≤ self.now.machine.limit }
    {
        self.machine.spent()
    }

    /// How many items `next` gave, including a refusal: at most one more than `spent`. After two paths it is 2.
    pub fn given(&self) -> u128
        ensures given { result ≡ self.now.machine.given }
        ensures few { result ≤ self.now.machine.spent + 1 }
    {
        self.machine.given()
    }

    /// The tree, as the walk leaves it.
    pub(crate) fn into_tree(self) -> T
        ensures { result ≡ self.tree }
    {
        self.tree
    }
}

impl<T: Tree> Iterator for Paths<T> {
    ghost use Rattle.glob_walk.specs.Iterating.{Goes};
    ghost use Rattle.glob_walk.specs.Machines.{next_saying};
    ghost use Rattle.std.specs.Prelude.{◌+◌, ◌-◌};
    ghost use Rattle.std.specs.Iterator.{at_most};

    type Item = GlobResult<T::Alloc>;

    ghost next_gives = { λ old answer new. Goes T.asks T.tells old (next_saying answer) new };

    ghost remaining = { λ p. at_most (p.machine.limit + 1 - p.machine.given) };

    /// The next item, or `None` if none is left. A walk by `*` over a file `x` gives `Ok` of `x`, and then
    /// `None`.
    ///
    /// The cause of an error is `Read` if a directory could not be listed, and the walk goes on; `Limit` if the next
    /// unit of work does not fit the limit; and `Memory` if an allocation failed. After any cause other than `Read`
    /// only `None` follows.
    fn next(&mut self) -> Option<GlobResult<T::Alloc>> {
        loop {
            match self.machine.advance(&mut self.tree) {
                Step::Item(item) => return Some(item),
                Step::Done => return None,
                Step::Look | Step::List | Step::ListNames => {}
            }
        }
    }
}

/// Walks `tree` for a pattern, with at most `limit` units of work: one for each lookup, one for each listing, and one
/// for each entry of a listing. Nothing is looked up before the first call of `next`.
///
/// If `b` is the only entry of `a`, then `a/*` gives `a/b`, for 4 units: the lookups of the start and of `a`, the
/// listing of `a`, and its entry.
///
/// A pattern with a fault is refused with `Syntax`: the fault of the whole text, or else the fault of the first
/// component with one, for example if a bracket has a `/`. Its place is in characters, from the start of the text or of
/// that component: for `x/a[/]b` it is 1. Any pattern may be refused with `Memory`. A refusal drops the tree.
pub fn glob_in<T: Tree>(
    alloc: T::Alloc,
    tree: T,
    pattern: &str,
    options: MatchOptions,
    limit: u64,
) -> Result<Paths<T>, PatternRefusal>
    ensures accepted { IfOk result (λ _. walk_fault pattern.now ≡ None) }
    ensures refused { IfErr result (RefusesWith (walk_fault pattern.now)) }
    ensures tree { IfOk result (λ p. p.tree ≡ tree) }
    ensures fresh { IfOk result (λ p. IsFresh limit p.machine) }
    ensures aim { IfOk result
        (λ p. (c : Content) → listing_of c p.machine.aim ≡ listing c options pattern.now) }
    ensures listing { (c : Content)
        → IfOk result (λ p. HasGiven (listing c options pattern.now) c [] p.machine) }
{
    let machine = WalkMachine::new(alloc, pattern, options, limit)?;
    Ok(Paths::new(tree, machine))
}
