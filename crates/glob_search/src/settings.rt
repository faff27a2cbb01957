//! What a search is asked for, besides its patterns.
ghost use Rattle.std.specs.Prelude.{◌≡◌, [], false};
ghost use Rattle.glob_pattern.specs.Matching.Options.{new_options};
ghost use Rattle.glob_search.specs.declared.settings.Wanted.TheVariants.{All as Everything};

use crate::outer::OuterRules;
use glob_pattern::MatchOptions;
use glob_rules::IgnoreList;
use std::alloc::{Allocator, Global};

/// Which of the paths that a pattern matches are found.
#[derive(Clone, Copy, Debug, PartialEq, Eq)]
pub enum Wanted {
    /// All of them.
    All,
    /// Directories.
    Directories,
    /// Everything but directories.
    Others,
}

impl Wanted {
    ghost use Rattle.glob_search.specs.Aims.{wants};

    /// Whether a path is found; `is_dir` says whether it is a directory.
    pub fn takes(self, is_dir: bool) -> bool
        ensures { result ≡ wants self is_dir }
    {
        match self {
            Wanted::All => true,
            Wanted::Directories => is_dir,
            Wanted::Others => !is_dir,
        }
    }
}

/// What a search is asked for, besides its patterns. [`new`](Settings::new) asks for all that they match.
#[derive(Drop)]
pub struct Settings<A: Allocator = Global> {
    /// How names are matched. The separator rule holds in any case.
    pub options: MatchOptions,
    /// How many names a path may have: with 1, only what is in the start directory is found.
    pub depth: usize,
    /// Which kinds are found.
    pub wanted: Wanted,
    /// Whether to learn the kind of each path that is found. If not, the search asks for a kind only where it decides
    /// something.
    pub kinds: bool,
    /// How many units of work it may take: one for each lookup, listing, ignore file, and entry of a listing.
    pub limit: u64,
    /// Lists that override ignore files, for paths from the start directory on. The last list is asked first.
    pub first: Vec<IgnoreList<A>, A>,
    /// Lists that ignore files override, such as git's `info/exclude` and the files of directories above the start. The
    /// last list is asked first.
    pub last: Vec<OuterRules<A>, A>,
    /// The names of ignore files, such as `.gitignore`. In each directory the last one is asked first.
    pub rule_files: Vec<String<A>, A>,
}

impl<A: Allocator + Copy> Settings<A> {
    /// All that the patterns match, case-sensitively, with no rules and practically no limit.
    pub fn new(alloc: A) -> Self
        ensures options { result.options ≡ new_options }
        ensures depth { result.depth ≡ 0xFFFFFFFFFFFFFFFF }
        ensures wanted { result.wanted ≡ Everything }
        ensures kinds { result.kinds ≡ false }
        ensures limit { result.limit ≡ 0xFFFFFFFFFFFFFFFF }
        ensures first { result.first.items ≡ [] }
        ensures last { result.last.items ≡ [] }
        ensures files { result.rule_files.items ≡ [] }
    {
        Settings {
            options: MatchOptions::new(),
            depth: usize::MAX,
            wanted: Wanted::All,
            kinds: false,
            limit: u64::MAX,
            first: Vec::new(alloc),
            last: Vec::new(alloc),
            rule_files: Vec::new(alloc),
        }
    }
}
