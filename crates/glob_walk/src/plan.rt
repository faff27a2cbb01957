//! What a walk looks for.
//!
//! A plan is a pattern read once, before the walk: its components in order, each with its kind, the options, and
//! whether only directories are given. Adjacent `**` mean the same as one of them, and are read as one. A plan does not
//! change during the walk.
ghost use Rattle.std.specs.Prelude.{◌≡◌, ◌+◌, ◌<◌, ◌≤◌, [], ◌∷◌, true, false, None, IfOk, IfErr, MatchOption, OnSome, IfNone, drop, vec_len, if◌then◌else◌};
ghost use Rattle.std.specs.List.{list_all};
ghost use Rattle.std.specs.Path.{cur_dir, has_no_slash, root_dir};
ghost use Rattle.glob_text.specs.Pieces.{pieces, begins_with, ends_with};
ghost use Rattle.glob_text.specs.Characters.{slash};
ghost use Rattle.glob_walk.specs.Components.{components, first_fault, walk_fault, without_root, without_end_separator};
ghost use Rattle.glob_walk.specs.Private.Merging.{merged, are_merged};
ghost use Rattle.glob_walk.specs.Walks.{RefusesWith};

use crate::component::{Component, is_recursive};
use glob_pattern::{MatchOptions, PatternRefusal};
use glob_tree::begins_with_dot;
use std::alloc::Allocator;

/// What a walk looks for: the components of a pattern, in order.
#[derive(Drop)]
pub struct Plan<A: Allocator> {
    /// The components. None has a separator in it, and no two adjacent ones are `**`.
    pub components: Vec<Component<A>, A>,
    /// How names are matched.
    pub options: MatchOptions,
    /// Whether it starts at the root, instead of in the current directory.
    pub rooted: bool,
    /// Whether only directories are given.
    pub directories: bool,
    /// The allocator of the walk.
    pub alloc: A,
    ghost merged: { are_merged components.items ≡ true },
    ghost names: { list_all has_no_slash components.items ≡ true },
}

impl<A: Allocator + Copy> Plan<A> {
    /// Reads a pattern. The error is the fault of the whole text or, if that has none, of the first component that has
    /// one; or `Memory` if an allocation failed.
    pub fn read(alloc: A, pattern: &str, options: MatchOptions) -> Result<Self, PatternRefusal>
        ensures components { IfOk result
            (λ plan. plan.components.items ≡ merged (components pattern.now)) }
        ensures options { IfOk result (λ plan. plan.options ≡ options) }
        ensures rooted { IfOk result (λ plan. plan.rooted ≡ begins_with slash pattern.now) }
        ensures directories { IfOk result
            (λ plan. plan.directories ≡ ends_with slash pattern.now) }
        ensures accepted { IfOk result (λ _. walk_fault pattern.now ≡ None) }
        ensures refused { IfErr result (RefusesWith (walk_fault pattern.now)) }
    {
        // The whole text comes first, so that the place of its fault is counted from the start of the pattern.
        Component::check(alloc, pattern)?;
        let components = read_components(alloc, past_root(pattern))?;
        Ok(Plan {
            components,
            options,
            rooted: begins_with_separator(pattern),
            directories: ends_in_separator(pattern),
            alloc,
        })
    }
}

impl<A: Allocator> Plan<A> {
    ghost use Rattle.glob_walk.specs.Private.Tasks.{is_dotted, IgnoresKinds};

    /// The path at which the walk starts: the root, or the current directory.
    pub fn start(&self) -> &'static str
        ensures { result.now ≡ (if self.now.rooted then root_dir else cur_dir) }
    {
        if self.rooted { "/" } else { "." }
    }

    /// The component of this number, counted from 0; `None` past the last.
    pub fn component(&self, number: usize) -> Option<&Component<A>>
        ensures rest { MatchOption result (drop number self.now.components.items ≡ [])
            (λ t. drop number self.now.components.items
            ≡ t.now ∷ drop (number + 1) self.now.components.items) }
        ensures within { OnSome result (number < vec_len self.now.components) }
        ensures past { IfNone result (vec_len self.now.components ≤ number) }
    {
        self.components.get(number)
    }

    /// Whether the component of this number begins with a dot.
    pub fn is_dotted(&self, number: usize) -> bool
        ensures { result ≡ is_dotted (drop number self.now.components.items) }
    {
        match self.component(number) {
            Some(component) => begins_with_dot(component.as_str()),
            None => false,
        }
    }

    /// Whether the kinds of a directory's entries matter for the component with this number, which is `**` or has
    /// wildcards. They do not matter if it is the last component, is not `**`, and files are wanted too.
    pub fn needs_kinds(&self, number: usize, recursive: bool) -> bool
        requires { number < vec_len self.now.components }
        ensures { result ≡ false → IgnoresKinds self.now number recursive }
    {
        recursive || self.directories || number + 1 < self.components.len()
    }
}

/// Reads the components of a text, which are the parts between separators. A `**` right after a `**` is left out.
fn read_components<A: Allocator + Copy>(
    alloc: A,
    text: &str,
) -> Result<Vec<Component<A>, A>, PatternRefusal>
    ensures components { IfOk result (λ components. components.items ≡ merged (pieces text.now)) }
    ensures accepted { IfOk result (λ _. first_fault (pieces text.now) ≡ None) }
    ensures refused { IfErr result (RefusesWith (first_fault (pieces text.now))) }
{
    let mut components = Vec::new(alloc);
    let mut after_recursive = false;
    for piece in text.split('/') {
        if after_recursive && is_recursive(piece) {
            continue;
        }
        let component = Component::read(alloc, piece)?;
        after_recursive = component.is_recursive();
        components.push(component)?;
    }
    Ok(components)
}

/// The text of the components: the pattern without a separator at its start and without one at its end.
pub fn past_root(pattern: &str) -> &str
    ensures { result.now ≡ without_end_separator (without_root pattern.now) }
{
    without_end(pattern.strip_prefix('/').unwrap_or(pattern))
}

/// Whether the first character is a separator.
fn begins_with_separator(text: &str) -> bool
    ensures { result ≡ begins_with slash text.now }
{
    text.starts_with('/')
}

/// Whether the last character is a separator.
fn ends_in_separator(text: &str) -> bool
    ensures { result ≡ ends_with slash text.now }
{
    text.ends_with('/')
}

/// The text without one separator at its end.
fn without_end(text: &str) -> &str
    ensures { result.now ≡ without_end_separator text.now }
{
    text.strip_suffix('/').unwrap_or(text)
}
