//! The ignore rules of each directory, asked about paths in any order.
ghost use Rattle.std.specs.Prelude.{◌≡◌, Option, Some, IfOk, map, option_map, string_bytes};
ghost use Rattle.glob_text.specs.Text.{Text};
ghost use Rattle.glob_search.specs.Aims.{outer_of};
ghost use Rattle.glob_search.specs.Asking.{Agrees, AreRulesOf, decision_of, is_left_out, rule_about};
ghost use Rattle.glob_search.specs.Searching.{Aim};

use crate::deciding::DecidingRule;
use crate::directories::Directories;
use crate::fault::SearchFault;
use crate::outer::OuterRules;
use crate::rule_texts::RuleTexts;
use glob_rules::IgnoreList;
use std::alloc::{AllocError, Allocator, Global};
use std::marker::Model;

/// The ignore rules of each directory, asked about paths in any order. They ignore what a search by the same rules
/// leaves out.
///
/// ```text
/// // `.gitignore` has the line `*.o`, and `src/.gitignore` has `!a.o` and `tmp/`
/// let mut rules = PathRules::new(alloc, first, rule_files, last)?;
/// rules.is_ignored(&mut texts, "src/a.o", false)?      // false
/// rules.is_ignored(&mut texts, "a.o", false)?          // true
/// rules.is_ignored(&mut texts, "src/tmp/x", false)?    // true
/// ```
///
/// Paths are from the start directory on. They have `/` between names, and none at the start or the end. A path with an
/// empty name, `.` or `..` is not ignored, and nothing is read for it.
///
/// The files of a directory are read when a path in it is asked about, and again if paths elsewhere came between. So
/// paths are best asked about in the order of a listing of the tree.
#[derive(Drop)]
pub struct PathRules<A: Allocator = Global> {
    directories: Directories<A>,
}

impl<A: Allocator> Model for PathRules<A> {
    ghost use Rattle.glob_search.specs.Asking.{RulesState};
    ghost use Rattle.glob_search.specs.Private.Entering.{Entering, rules_state};

    ghost Value = { RulesState (Entering A) };

    ghost view = { λ rules. rules_state rules.directories };
}

impl<A: Allocator + Copy> PathRules<A> {
    /// Rules that have asked nothing: lists that take precedence over those of files, the names of ignore files, and
    /// lists that give way to those of files, as in [`Settings`](crate::Settings). The error is a failed allocation.
    pub fn new(
        alloc: A,
        first: Vec<IgnoreList<A>, A>,
        rule_files: Vec<String<A>, A>,
        last: Vec<OuterRules<A>, A>,
    ) -> Result<Self, AllocError>
        ensures files { IfOk result
            (λ rules. rules.files ≡ map (λ file. string_bytes file) rule_files.items) }
        ensures fresh { IfOk result (λ rules. (a : Aim) (known : Text → Option Text)
            → AreRulesOf a known first.items
            (map (λ file. string_bytes file) rule_files.items) (outer_of last.items)
            → Agrees a known rules) }
    {
        let directories = Directories::none(alloc, first, rule_files, last)?;
        Ok(PathRules { directories })
    }

    /// Whether a path is ignored. `is_dir` says whether it is a directory, which a symbolic link is not. A path in an
    /// ignored directory is ignored, whatever the rules say about the path.
    ///
    /// Files that cannot be read, and lines that are refused, have no rules: [`take_faults`](Self::take_faults) returns
    /// them. The error is a failed allocation.
    pub fn is_ignored<R: RuleTexts<Alloc = A>>(
        &mut self,
        texts: &mut R,
        path: &str,
        is_dir: bool,
    ) -> Result<bool, AllocError>
        ensures files { self.new.files ≡ self.old.files }
        ensures texts { R.texts texts.new ≡ R.texts texts.old }
        ensures keeps { (a : Aim) (known : Text → Option Text) → R.texts texts.old ≡ Some known
            → Agrees a known self.old → Agrees a known self.new }
        ensures ignored { (a : Aim) (known : Text → Option Text) → R.texts texts.old ≡ Some known
            → Agrees a known self.old
            → IfOk result (λ ignored. ignored ≡ is_left_out a path.now is_dir) }
    {
        self.directories.is_ignored(texts, path, is_dir)
    }

    /// The rule that decides whether a path is ignored, or `None` if there is none. If a directory above the path is
    /// ignored, it is the rule that ignores the highest such directory. Otherwise it is the last rule that matches the
    /// path, where the lists that come first are asked first, then the files of the path's directory and of each one
    /// above it, and then the lists that come last.
    ///
    /// In the example above, line 1 of `src/.gitignore` decides about `src/a.o`, and is negative. The error is a failed
    /// allocation.
    pub fn deciding_rule<R: RuleTexts<Alloc = A>>(
        &mut self,
        texts: &mut R,
        path: &str,
        is_dir: bool,
    ) -> Result<Option<DecidingRule<A>>, AllocError>
        ensures files { self.new.files ≡ self.old.files }
        ensures texts { R.texts texts.new ≡ R.texts texts.old }
        ensures keeps { (a : Aim) (known : Text → Option Text) → R.texts texts.old ≡ Some known
            → Agrees a known self.old → Agrees a known self.new }
        ensures decides { (a : Aim) (known : Text → Option Text) → R.texts texts.old ≡ Some known
            → Agrees a known self.old
            → IfOk result (λ rule. option_map (λ r. decision_of r) rule
            ≡ rule_about a known self.old.files path.now is_dir) }
    {
        self.directories.deciding_rule(texts, path, is_dir)
    }

    /// What could not be read since the last call: [`UnreadRules`](SearchFault::UnreadRules) for an ignore file that could
    /// not be read, and [`RefusedRules`](SearchFault::RefusedRules) for one with refused lines. The faults of a file are
    /// returned once, even if it is read again.
    pub fn take_faults(&mut self) -> Vec<SearchFault<A>, A>
        ensures files { self.new.files ≡ self.old.files }
        ensures keeps { (a : Aim) (known : Text → Option Text)
            → Agrees a known self.old → Agrees a known self.new }
    {
        self.directories.take_faults()
    }
}
