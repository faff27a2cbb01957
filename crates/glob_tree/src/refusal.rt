//! Why a tree in memory refuses a change.
ghost use Rattle.std.specs.Prelude.{Some};
ghost use Rattle.glob_tree.specs.Words.{tree_refusal_words};

use std::alloc::AllocError;
use std::error::Error;
use std::fmt;

/// Why a tree in memory refused a change. If several reasons hold, the first one is reported. In an empty tree,
/// `add_dir("/a/..")` is `Improper`, and `add_dir("/a/b")` is `NoParent`, which prints as `no parent directory`.
#[derive(Clone, Copy, PartialEq, Eq, Debug)]
pub enum TreeRefusal {
    /// The path is not `/` followed by one or more proper names joined by `/`.
    Improper,
    /// The path without its last name does not lead to a directory.
    NoParent,
    /// Something is at the path already.
    Taken,
    /// The path does not lead to a directory, so it cannot become the current one.
    NoDirectory,
    /// Out of memory: the change could not be allocated.
    Memory,
}

impl fmt::Display for TreeRefusal {
    ghost output = { λ refusal. Some (tree_refusal_words refusal) };

    fn fmt<W: fmt::Write>(&self, f: &mut fmt::Formatter<W>) -> fmt::Result {
        f.write_str(match self {
            TreeRefusal::Improper => "improper path",
            TreeRefusal::NoParent => "no parent directory",
            TreeRefusal::Taken => "path already exists",
            TreeRefusal::NoDirectory => "not a directory",
            TreeRefusal::Memory => "out of memory",
        })
    }
}

impl Error for TreeRefusal {}

/// A failed allocation.
impl From<AllocError> for TreeRefusal {
    ghost use Rattle.std.specs.Prelude.{◌≡◌};
    ghost use Rattle.glob_tree.specs.declared.refusal.TreeRefusal.TheVariants.{Memory};

    ghost from_gives = { λ _ refusal. refusal ≡ Memory };

    fn from(_error: AllocError) -> TreeRefusal {
        TreeRefusal::Memory
    }
}
