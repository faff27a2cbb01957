//! Rules of an ignore list.

/// A rule of an ignore list, without its pattern. The line `!*.o/` has a negative rule that is for directories only.
#[derive(Clone, Copy, Debug, PartialEq, Eq)]
pub struct Rule {
    /// The number of its line in the list, counted from 1. It stops at `usize::MAX`.
    pub line: usize,
    /// Whether it begins with `!`, and so re-includes what an earlier rule ignores.
    pub negative: bool,
    /// Whether it ends in `/`, and so matches only directories.
    pub directories: bool,
}
