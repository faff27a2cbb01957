//! Which patterns are plain.
ghost use Rattle.std.specs.Prelude.{◌≡◌, false, None, IfOk, IfErr};
ghost use Rattle.glob_text.specs.Pieces.{pieces};
ghost use Rattle.glob_walk.specs.Components.{walk_fault};
ghost use Rattle.glob_walk.specs.Goal.{are_plain, is_plain, is_plain_component};
ghost use Rattle.glob_walk.specs.Walks.{RefusesWith};

use crate::component::{is_current_or_parent, is_literal, is_recursive};
use crate::plan::{Plan, past_root};
use glob_pattern::{MatchOptions, PatternRefusal};
use glob_tree::begins_with_dot;
use std::alloc::Allocator;

/// Whether the pattern is plain, so that its walk finds what the undivided pattern matches: no component is empty, `.`
/// or `..`, and each that has a wildcard and begins with a dot is right after a `**`. A `/` at the start or at the end
/// makes no component, but the pattern `/` has an empty component, and so does the empty pattern. The errors are those
/// of [`WalkMachine::new`](crate::WalkMachine::new).
///
/// For example, `src/**/*.rs` is plain, `src/./*.rs` and `.*` are not, and `a**` is refused.
#[tactic(auto, unfolding(crate::specs::Goal::is_plain))]
pub fn is_plain<A: Allocator + Copy>(alloc: A, pattern: &str) -> Result<bool, PatternRefusal>
    ensures plain { IfOk result (λ yes. yes ≡ is_plain pattern.now) }
    ensures accepted { IfOk result (λ _. walk_fault pattern.now ≡ None) }
    ensures refused { IfErr result (RefusesWith (walk_fault pattern.now)) }
{
    Plan::read(alloc, pattern, MatchOptions::new())?;
    Ok(are_plain(past_root(pattern)))
}

/// Whether the components of a text, which are the parts between separators, are plain.
fn are_plain(text: &str) -> bool
    ensures { result ≡ are_plain false (pieces text.now) }
{
    let mut after_recursive = false;
    for component in text.split('/') {
        if !is_plain_component(after_recursive, component) {
            return false;
        }
        after_recursive = is_recursive(component);
    }
    true
}

/// Whether the component is plain; `after_recursive` says whether it is right after a `**`.
fn is_plain_component(after_recursive: bool, component: &str) -> bool
    ensures { result ≡ is_plain_component after_recursive component.now }
{
    !component.is_empty()
        && !is_current_or_parent(component)
        && (is_literal(component) || !begins_with_dot(component) || after_recursive)
}
