//! Where searches begin.
ghost use Rattle.std.specs.Prelude.{◌≡◌, [], Bool, List, ℕ, Option, Some, IfOk, map, string_bytes};
ghost use Rattle.glob_tree.specs.Content.{Content};

use crate::find::kinds::{PathKind, PathKinds};
use crate::name::Name;
use crate::usage::Help;
use crate::visible::Visible;
use glob_search::RuleTexts;
use glob_tree::Tree;
use std::alloc::{AllocError, Allocator};
use std::fmt::{self, Display};

/// Where a search begins, and what is reported from there on.
#[derive(Clone, Copy)]
pub struct Place<'p, 'l, 'r> {
    /// The path of the place; empty for the current directory.
    pub path: &'p str,
    /// The lead of the patterns, which comes before each path that is reported.
    pub lead: &'l str,
    /// Whether symbolic links to directories are followed.
    pub follows: bool,
    /// Whether names that are not UTF-8 are skipped.
    pub is_utf8_only: bool,
    /// The rules of the command line. What they ignore is not reported.
    pub rules: &'r str,
}

impl Place<'static, 'static, 'static> {
    /// The current directory, from which paths have no lead.
    pub fn here() -> Self
        ensures { result.path.now ≡ [] }
    {
        Place {
            path: "",
            lead: "",
            follows: false,
            is_utf8_only: false,
            rules: "",
        }
    }
}

/// Something that a search can begin in: a disk.
pub trait Places {
    /// The allocator of what the disk gives.
    type Alloc: Allocator + Copy;
    /// The disk from a place on.
    type Tree: Tree<Alloc = Self::Alloc>;
    /// The texts of the files on it.
    type Texts: RuleTexts<Alloc = Self::Alloc>;

    /// The content of the disk from a place on, with symbolic links to directories followed or not, if it is known.
    ghost content: { Self → (follows : Bool) → (place : List ℕ) → Option Content };

    /// The texts of the files from a place on, if they are known.
    ghost texts: { Self → (place : List ℕ) → Option (List ℕ → Option (List ℕ)) };

    /// The names from the top of a repository down to a place, if they are known.
    ghost above: { Self → (place : List ℕ) → Option (List (List ℕ)) };

    /// The disk from a place on. The error is an allocation failure.
    fn tree(&self, place: Place<'_, '_, '_>) -> Result<Self::Tree, AllocError>
        ensures { IfOk result (λ tree. Self.Tree.tells tree
            ≡ content self.now place.entry.follows place.entry.path.now) };

    /// The texts of the files from a place on. The error is an allocation failure.
    fn rule_texts(&self, place: Place<'_, '_, '_>) -> Result<Self::Texts, AllocError>
        ensures { IfOk result (λ found. Self.Texts.texts found ≡ texts self.now place.entry.path.now) };

    /// The names from the top of a place's repository down to the place; none if it is the top, or is in no repository.
    /// The error is an allocation failure.
    fn names_above(
        &self,
        place: Place<'_, '_, '_>,
    ) -> Result<Vec<String<Self::Alloc>, Self::Alloc>, AllocError>
        ensures { (names : List (List ℕ)) → above self.now place.entry.path.now ≡ Some names
            → IfOk result (λ found. map string_bytes found.items ≡ names) };
}

/// Whether the place with this path, where a tree begins, is a directory. The current directory always is.
pub fn is_directory<T: Tree>(tree: &mut T, path: &str) -> Result<bool, AllocError>
    ensures { T.tells tree.new ≡ T.tells tree.old }
{
    if path.is_empty() {
        return Ok(true);
    }
    Ok(tree.look(".")?.is_dir())
}

/// The line about a `-C` that is no directory.
#[derive(Clone, Copy)]
pub struct NoDirectory<'a> {
    directory: &'a str,
    /// Whether there is something else.
    is_other: bool,
}

impl<'a> NoDirectory<'a> {
    /// The line about this directory.
    pub fn new<A: Allocator + Copy, F: PathKinds>(alloc: A, files: &F, directory: &'a str) -> Self {
        let kind = files.kind(alloc, true, "", directory);
        NoDirectory {
            directory,
            is_other: kind.is_ok_and(|kind| kind == PathKind::File),
        }
    }
}

/// What to write instead of the directory of a `-C`, if it has what a directory hardly has.
fn advice(directory: &str) -> &'static str {
    if directory.starts_with(['~', '$'].as_slice()) {
        "; a shell expands ~ and $HOME except in single quotes"
    } else if directory.contains(['*', '?', '[', '{'].as_slice()) {
        "; wildcards belong in a PATTERN"
    } else if directory.contains([',', ':'].as_slice()) {
        "; one directory, and for several a PATTERN such as '{src,tests}/**'"
    } else if directory.starts_with('-') {
        "; the directory comes right after -C"
    } else {
        "; globs find -t d '*' finds directories"
    }
}

impl Display for NoDirectory<'_> {
    fn fmt<W: fmt::Write>(&self, f: &mut fmt::Formatter<W>) -> fmt::Result {
        let directory = Visible {
            text: self.directory,
        };
        let what = if self.is_other {
            "this is not a directory"
        } else {
            "there is no such directory"
        };
        let help = Help {
            name: Some(Name::Find),
        };
        write!(
            f,
            "-C `{directory}`: {what}, and -C needs one to search{}: {help}",
            advice(self.directory)
        )
    }
}
