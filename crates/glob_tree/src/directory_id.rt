//! The numbers by which a system tells directories apart.
ghost use Rattle.std.specs.Prelude.{◌≡◌};
ghost use Rattle.glob_tree.specs.FileSystems.{is_same_directory};

/// The number of a directory: of its device, and of the directory on the device. If `ino` is 0, the system does not
/// number its files.
#[derive(Clone, Copy, PartialEq, Eq, Debug)]
pub struct DirectoryId {
    /// The number of the device, as in `st_dev`.
    pub dev: u64,
    /// The number of the directory on its device, as in `st_ino`.
    pub ino: u64,
}

impl DirectoryId {
    /// Whether both are the number of the same directory. False if the system does not number its files.
    pub fn is_same(self, other: DirectoryId) -> bool
        ensures { result ≡ is_same_directory self other }
    {
        self.ino != 0 && self.ino == other.ino && self.dev == other.dev
    }
}
