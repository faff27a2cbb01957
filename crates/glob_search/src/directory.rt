//! A directory that is entered, for paths in any order.
ghost use Rattle.std.specs.Prelude.{◌≡◌, IfSome, string_bytes};
ghost use Rattle.glob_search.specs.Private.Entering.{below_text};

use std::alloc::Allocator;

/// A directory that is entered.
#[derive(Drop)]
pub struct Directory<A: Allocator> {
    /// Its path; empty if it is the start.
    pub path: String<A>,
    /// How many of the lists in `ActiveRules::files` come from above it.
    pub above: usize,
}

impl<A: Allocator> Directory<A> {
    /// The part of a path that comes after the directory and the separator, if the path is in the directory.
    pub fn below<'p>(&self, path: &'p str) -> Option<&'p str>
        ensures { IfSome result
            (λ rest. path.now ≡ below_text (string_bytes self.now.path) rest.now) }
    {
        if self.path.is_empty() {
            return Some(path);
        }
        path.strip_prefix(self.path.as_str())?.strip_prefix('/')
    }
}
