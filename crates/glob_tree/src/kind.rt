//! What is at a key of a tree.
ghost use Rattle.std.specs.Prelude.{◌≡◌};
ghost use Rattle.glob_tree.specs.Content.{is_dir};

use std::io;

/// What a tree has at a key (the list of names that leads there from the root): `Other` for a file.
#[derive(Clone, Copy, PartialEq, Eq, Debug)]
pub enum Kind {
    /// A directory.
    Dir,
    /// A directory that cannot be listed: listing it fails with an error of this kind.
    Shut(io::ErrorKind),
    /// Anything else.
    Other,
}

impl Kind {
    /// Whether it is a directory, even one that cannot be listed: true for `Shut(NotFound)`, false for `Other`.
    pub fn is_dir(self) -> bool
        ensures { result ≡ is_dir self }
    {
        matches!(self, Kind::Dir | Kind::Shut(_))
    }
}
