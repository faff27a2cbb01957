//! What a search finds.

use std::alloc::{Allocator, Global};

/// A path that a search finds.
#[derive(Drop)]
#[derive_where(Debug)]
pub struct Found<A: Allocator = Global> {
    /// The names from the start directory on, joined by `/`, such as `src/main.rs`.
    pub path: String<A>,
    /// Whether it is a directory, if the search knows. It always knows if [`Settings::kinds`](crate::Settings::kinds)
    /// is set.
    pub is_dir: Option<bool>,
}
