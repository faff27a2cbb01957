//! The ignore rules that are active in a directory: those that may name a path in it.
ghost use Rattle.std.specs.Prelude.{◌≡◌, IfOk, ◌++◌, ◌∷◌, [], IsTrue};
ghost use Rattle.std.specs.List.{list_all, join_with_byte};
ghost use Rattle.glob_text.specs.Characters.{slash};
ghost use Rattle.glob_text.specs.Text.{Text};
ghost use Rattle.glob_tree.specs.Content.{Key};
ghost use Rattle.glob_tree.specs.Paths.{is_proper};
ghost use Rattle.glob_search.specs.Aims.{outer_of};
ghost use Rattle.glob_search.specs.Kept.{after_bytes, is_ignored_by};
ghost use Rattle.glob_search.specs.Private.Active.{active_lists, after, AreActive, rules_here};
ghost use Rattle.glob_search.specs.Private.Asked.{cut_by, last_of};
ghost use Rattle.glob_search.specs.Searching.{Aim, is_ignored};

use crate::outer::{OuterRules, last_outer};
use glob_rules::{IgnoreList, Rule};
use std::alloc::{AllocError, Allocator};

/// The rules of a file, for the paths below its directory.
#[derive(Drop)]
pub struct FileRules<A: Allocator> {
    /// How many bytes at the start of a path the rules do not see.
    pub above: usize,
    pub list: IgnoreList<A>,
}

/// The rules that apply. The last list with a rule that names the path decides, but the lists in `first` override the
/// lists of files, which override the lists in `last`.
#[derive(Drop)]
pub struct ActiveRules<A: Allocator> {
    pub first: Vec<FileRules<A>, A>,
    /// The lists of files, the outermost directory first.
    pub files: Vec<FileRules<A>, A>,
    pub last: Vec<OuterRules<A>, A>,
}

impl<A: Allocator + Copy> ActiveRules<A> {
    /// The lists that are asked before the lists of files, for paths from the start directory on, and the lists that
    /// are asked after them.
    pub fn of_lists(
        alloc: A,
        first: Vec<IgnoreList<A>, A>,
        last: Vec<OuterRules<A>, A>,
    ) -> Result<Self, AllocError>
        ensures first { IfOk result (λ h. active_lists h.first.items ≡ after 0 first.items) }
        ensures files { IfOk result (λ h. active_lists h.files.items ≡ []) }
        ensures last { IfOk result (λ h. outer_of h.last.items ≡ outer_of last.items) }
    {
        Ok(ActiveRules {
            first: from_start(alloc, first)?,
            files: Vec::new(alloc),
            last,
        })
    }

    /// Whether the deciding rule ignores the path. The directories above it are not checked: they were checked when they
    /// were entered.
    pub fn ignores(&self, alloc: A, path: &str, is_dir: bool) -> Result<bool, AllocError>
        ensures decides { (a : Aim) (directory : Key) (n : Text) → AreActive a directory self.now
            → IsTrue (list_all is_proper (directory ++ n ∷ []))
            → path.now ≡ join_with_byte slash (directory ++ n ∷ [])
            → IfOk result (λ r. r ≡ is_ignored a (directory ++ n ∷ []) is_dir) }
        ensures read { IfOk result
            (λ r. r ≡ is_ignored_by (rules_here self.now) path.now is_dir) }
    {
        if let Some((_, rule)) = last_naming(self.first.as_slice(), path, is_dir)? {
            return Ok(!rule.negative);
        }
        if let Some((_, rule)) = last_naming(self.files.as_slice(), path, is_dir)? {
            return Ok(!rule.negative);
        }
        match last_outer(alloc, self.last.as_slice(), path, is_dir)? {
            Some((_, rule)) => Ok(!rule.negative),
            None => Ok(false),
        }
    }
}

/// The lists, as rules for paths from the start directory on.
fn from_start<A: Allocator + Copy>(
    alloc: A,
    lists: Vec<IgnoreList<A>, A>,
) -> Result<Vec<FileRules<A>, A>, AllocError>
    ensures { IfOk result (λ rules. active_lists rules.items ≡ after 0 lists.items) }
{
    let mut rules = Vec::new(alloc);
    for list in lists {
        rules.push(FileRules { above: 0, list })?;
    }
    Ok(rules)
}

/// The last of some lists with a rule that names the path: its number, and its last such rule.
pub fn last_naming<A: Allocator + Copy>(
    rules: &[FileRules<A>],
    path: &str,
    is_dir: bool,
) -> Result<Option<(usize, Rule)>, AllocError>
    ensures { IfOk result (λ answer. answer ≡ last_of (cut_by path.now rules.now) is_dir 0) }
{
    let mut left = rules.len();
    while left > 0 {
        left -= 1;
        let file = &rules[left];
        let below = below(path, file.above);
        if let Some(rule) = file.list.naming_rule(below, is_dir)? {
            return Ok(Some((left, rule)));
        }
    }
    Ok(None)
}

/// The path without its first `above` bytes; all of it if they end within a character.
fn below(path: &str, above: usize) -> &str
    ensures { result.now ≡ after_bytes above path.now }
{
    match path.split_at_checked(above) {
        Some((_, rest)) => rest,
        None => path,
    }
}
