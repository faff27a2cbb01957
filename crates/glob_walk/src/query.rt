//! A question of a walk, from when it is charged until it is answered.
use crate::task::Accepted;
use std::alloc::Allocator;

/// A question that was charged and waits for its answer.
#[derive(Drop)]
pub struct Query<A: Allocator> {
    /// The path that it is about, as the walk gives it.
    pub path: String<A>,
    /// The index of the component with which the walk goes on there.
    pub component: usize,
    /// What is asked of the path.
    pub kind: QueryKind,
}

/// What is asked of a path.
#[derive(Clone, Copy)]
pub enum QueryKind {
    /// What it leads to, and which answers let the walk go on.
    Look(Accepted),
    /// The entries of the directory that it leads to.
    List {
        /// Whether the listing is for `**`, rather than for a component with wildcards.
        recursive: bool,
        /// Whether the kinds of the entries are asked for, rather than only their names.
        kinds: bool,
    },
}
