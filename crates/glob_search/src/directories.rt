//! The directories that are entered, for paths in any order.
ghost use Rattle.std.specs.Prelude.{◌≡◌, ◌∷◌, ◌<◌, [], Option, None, Some, true, IsTrue, OnOk, IfOk, IfSome, MatchOption, length, map, option_map, string_bytes};
ghost use Rattle.std.specs.List.{list_all, join_with_byte};
ghost use Rattle.glob_text.specs.Characters.{slash};
ghost use Rattle.glob_text.specs.Pieces.{pieces};
ghost use Rattle.glob_text.specs.Text.{Text};
ghost use Rattle.glob_tree.specs.Content.{Key};
ghost use Rattle.glob_tree.specs.Paths.{is_proper as is_proper_name};
ghost use Rattle.glob_search.specs.Aims.{outer_of};
ghost use Rattle.glob_search.specs.Asking.{AreRulesOf, decision_of, is_left_out, rule_about};
ghost use Rattle.glob_search.specs.Searching.{Aim, is_kept};
ghost use Rattle.glob_search.specs.Private.Entering.{HasDescended, IsAt, IsLeft, IsNext, IsRead, last_text, names_to, rule_names};

use crate::deciding::DecidingRule;
use crate::directory::Directory;
use crate::fault::SearchFault;
use crate::held::HeldRules;
use crate::outer::OuterRules;
use crate::rule_texts::RuleTexts;
use glob_rules::IgnoreList;
use glob_tree::{is_proper, join};
use std::alloc::{AllocError, Allocator};

/// The directories above the last path that was asked about, and their rules.
#[derive(Drop)]
pub struct Directories<A: Allocator> {
    held: HeldRules<A>,
    rule_files: Vec<String<A>, A>,
    /// The start and the directories below it, each in the one before it.
    entered: Vec<Directory<A>, A>,
    alloc: A,
}

impl<A: Allocator + Copy> Directories<A> {
    /// No directory is entered.
    pub fn none(
        alloc: A,
        first: Vec<IgnoreList<A>, A>,
        rule_files: Vec<String<A>, A>,
        last: Vec<OuterRules<A>, A>,
    ) -> Result<Self, AllocError>
        ensures files { IfOk result
            (λ s. rule_names s ≡ map (λ file. string_bytes file) rule_files.items) }
        ensures fresh { IfOk result (λ s. (a : Aim) (known : Text → Option Text)
            → AreRulesOf a known first.items
            (map (λ file. string_bytes file) rule_files.items) (outer_of last.items)
            → IsRead a known s) }
    {
        Ok(Directories {
            held: HeldRules::new(alloc, first, last)?,
            rule_files,
            entered: Vec::new(alloc),
            alloc,
        })
    }

    /// Whether a path is ignored.
    pub fn is_ignored<R: RuleTexts<Alloc = A>>(
        &mut self,
        texts: &mut R,
        path: &str,
        is_dir: bool,
    ) -> Result<bool, AllocError>
        ensures files { self.new.rule_files ≡ self.old.rule_files }
        ensures texts { R.texts texts.new ≡ R.texts texts.old }
        ensures keeps { (a : Aim) (known : Text → Option Text) → R.texts texts.old ≡ Some known
            → IsRead a known self.old → IsRead a known self.new }
        ensures ignored { (a : Aim) (known : Text → Option Text) → R.texts texts.old ≡ Some known
            → IsRead a known self.old
            → IfOk result (λ ignored. ignored ≡ is_left_out a path.now is_dir) }
    {
        if !has_proper_names(path) {
            return Ok(false);
        }
        match self.descend(texts, path)? {
            Some(_) => Ok(true),
            None => self.held.active.ignores(self.alloc, path, is_dir),
        }
    }

    /// The rule that decides whether a path is ignored.
    pub fn deciding_rule<R: RuleTexts<Alloc = A>>(
        &mut self,
        texts: &mut R,
        path: &str,
        is_dir: bool,
    ) -> Result<Option<DecidingRule<A>>, AllocError>
        ensures files { self.new.rule_files ≡ self.old.rule_files }
        ensures texts { R.texts texts.new ≡ R.texts texts.old }
        ensures keeps { (a : Aim) (known : Text → Option Text) → R.texts texts.old ≡ Some known
            → IsRead a known self.old → IsRead a known self.new }
        ensures decides { (a : Aim) (known : Text → Option Text) → R.texts texts.old ≡ Some known
            → IsRead a known self.old
            → IfOk result (λ rule. option_map (λ r. decision_of r) rule
            ≡ rule_about a known (rule_names self.old) path.now is_dir) }
    {
        if !has_proper_names(path) {
            return Ok(None);
        }
        match self.descend(texts, path)? {
            Some(directory) => self
                .held
                .deciding_rule(self.alloc, directory.as_str(), true),
            None => self.held.deciding_rule(self.alloc, path, is_dir),
        }
    }

    /// The faults of files since the last call.
    pub fn take_faults(&mut self) -> Vec<SearchFault<A>, A>
        ensures files { self.new.rule_files ≡ self.old.rule_files }
        ensures keeps { (a : Aim) (known : Text → Option Text)
            → IsRead a known self.old → IsRead a known self.new }
    {
        self.held.faults.take(self.alloc)
    }

    /// Enters the directories above a path, up to the first that is ignored, which is returned. After an error no
    /// directory is entered.
    fn descend<R: RuleTexts<Alloc = A>>(
        &mut self,
        texts: &mut R,
        path: &str,
    ) -> Result<Option<String<A>>, AllocError>
        ensures files { self.new.rule_files ≡ self.old.rule_files }
        ensures texts { R.texts texts.new ≡ R.texts texts.old }
        ensures keeps { (a : Aim) (known : Text → Option Text) → R.texts texts.old ≡ Some known
            → IsTrue (list_all is_proper_name (pieces path.now))
            → IsRead a known self.old → IsRead a known self.new }
        ensures descends { (a : Aim) (known : Text → Option Text) → R.texts texts.old ≡ Some known
            → IsTrue (list_all is_proper_name (pieces path.now)) → IsRead a known self.old
            → IfOk result (λ way. HasDescended a known path.now way self.new) }
    {
        match self.enter_above(texts, path) {
            Ok(way) => Ok(way),
            Err(error) => {
                self.entered.clear();
                self.held.leave(0);
                Err(error)
            }
        }
    }

    /// Does the work of `descend`, but after an error a directory may be half entered.
    fn enter_above<R: RuleTexts<Alloc = A>>(
        &mut self,
        texts: &mut R,
        path: &str,
    ) -> Result<Option<String<A>>, AllocError>
        ensures files { self.new.rule_files ≡ self.old.rule_files }
        ensures first { self.new.held.active.first ≡ self.old.held.active.first }
        ensures outer { self.new.held.active.last ≡ self.old.held.active.last }
        ensures texts { R.texts texts.new ≡ R.texts texts.old }
        ensures descends { (a : Aim) (known : Text → Option Text) → R.texts texts.old ≡ Some known
            → IsTrue (list_all is_proper_name (pieces path.now)) → IsRead a known self.old
            → IfOk result (λ way. HasDescended a known path.now way self.new) }
    {
        let mut rest = self.leave(path);
        self.enter_start(texts)?;
        while let Some((name, deeper)) = first_name(rest) {
            let directory = join(self.alloc, self.last_path(), name)?;
            if self
                .held
                .active
                .ignores(self.alloc, directory.as_str(), true)?
            {
                return Ok(Some(directory));
            }
            self.enter(texts, directory)?;
            rest = deeper;
        }
        Ok(None)
    }

    /// Leaves the directories that a path is not in, and returns the part of the path after the last one that it is in.
    fn leave<'p>(&mut self, path: &'p str) -> &'p str
        ensures files { self.new.rule_files ≡ self.old.rule_files }
        ensures first { self.new.held.active.first ≡ self.old.held.active.first }
        ensures outer { self.new.held.active.last ≡ self.old.held.active.last }
        ensures left { (a : Aim) (known : Text → Option Text) (last : Option Key)
            → IsAt a known self.old last → IsLeft a known path.now result.now self.new }
    {
        while let Some(last) = self.entered.last() {
            if let Some(rest) = last.below(path) {
                return rest;
            }
            self.held.leave(last.above);
            self.entered.pop();
        }
        path
    }

    /// Enters the start, if nothing is entered.
    fn enter_start<R: RuleTexts<Alloc = A>>(&mut self, texts: &mut R) -> Result<(), AllocError>
        ensures files { self.new.rule_files ≡ self.old.rule_files }
        ensures first { self.new.held.active.first ≡ self.old.held.active.first }
        ensures outer { self.new.held.active.last ≡ self.old.held.active.last }
        ensures texts { R.texts texts.new ≡ R.texts texts.old }
        ensures starts { (a : Aim) (known : Text → Option Text) (last : Option Key)
            → R.texts texts.old ≡ Some known → IsAt a known self.old last
            → OnOk result (IsAt a known self.new (Some (names_to last))) }
    {
        if self.entered.is_empty() {
            return self.enter(texts, String::new(self.alloc));
        }
        Ok(())
    }

    /// Enters a directory in the last one that is entered: reads its ignore files.
    fn enter<R: RuleTexts<Alloc = A>>(
        &mut self,
        texts: &mut R,
        path: String<A>,
    ) -> Result<(), AllocError>
        ensures files { self.new.rule_files ≡ self.old.rule_files }
        ensures first { self.new.held.active.first ≡ self.old.held.active.first }
        ensures outer { self.new.held.active.last ≡ self.old.held.active.last }
        ensures texts { R.texts texts.new ≡ R.texts texts.old }
        ensures enters { (a : Aim) (known : Text → Option Text) (last : Option Key) (names : Key)
            → R.texts texts.old ≡ Some known → IsAt a known self.old last → IsNext last names
            → string_bytes path ≡ join_with_byte slash names
            → IsTrue (list_all is_proper_name names) → IsTrue (is_kept a [] names true)
            → OnOk result (IsAt a known self.new (Some names)) }
    {
        let above = self.held.active.files.len();
        self.held.read(self.alloc, texts, path.as_str(), self.rule_files.as_slice())?;
        self.entered.push(Directory { path, above })?;
        Ok(())
    }

    /// The path of the last directory that is entered; empty if there is none.
    fn last_path(&self) -> &str
        ensures { result.now ≡ last_text self.now.entered.items }
    {
        match self.entered.last() {
            Some(last) => last.path.as_str(),
            None => "",
        }
    }
}

/// Whether all names of a path are proper: none is empty, `.` or `..`.
fn has_proper_names(path: &str) -> bool
    ensures { result ≡ list_all is_proper_name (pieces path.now) }
{
    path.split('/').all(|name| is_proper(name))
}

/// The first name of a path and what comes after the separator, unless there is only one name.
fn first_name(path: &str) -> Option<(&str, &str)>
    ensures cut { MatchOption result (pieces path.now ≡ path.now ∷ [])
        (λ cut. pieces path.now ≡ cut.0.now ∷ pieces cut.1.now) }
    ensures shorter { IfSome result (λ cut. length cut.1.now < length path.now) }
{
    match path.split_once('/') {
        Some((name, rest)) => Some((name, rest)),
        None => None,
    }
}
