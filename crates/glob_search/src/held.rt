//! The rules of the directories that are entered, for paths in any order.
ghost use Rattle.std.specs.Prelude.{◌≡◌, ◌++◌, ◌∷◌, ◌<◌, [], Option, Some, IfOk, OnOk, length, map, option_map, take, string_bytes};
ghost use Rattle.std.specs.List.{All};
ghost use Rattle.std.specs.Str.{IsCharBoundary};
ghost use Rattle.glob_text.specs.Text.{Text};
ghost use Rattle.glob_search.specs.Aims.{outer_of};
ghost use Rattle.glob_search.specs.Private.Active.{active_lists, after};
ghost use Rattle.glob_search.specs.Asking.{File, decision_of};
ghost use Rattle.glob_search.specs.Private.Asked.{held_rule, source_at};
ghost use Rattle.glob_search.specs.Private.Reading.{HasRead, sources_of};

use crate::active::{ActiveRules, FileRules, last_naming};
use crate::deciding::{DecidingRule, RuleList};
use crate::fault::SearchFault;
use crate::outer::{OuterRules, last_outer};
use crate::rule_faults::RuleFaults;
use crate::rule_texts::{RuleTexts, read_list};
use glob_rules::{IgnoreList, Rule, RuleRefusal};
use glob_tree::join;
use std::alloc::{AllocError, Allocator};

/// The rules of the directories that are entered, and what could not be read.
#[derive(Drop)]
pub struct HeldRules<A: Allocator> {
    pub active: ActiveRules<A>,
    /// The paths of the files of the lists in `ActiveRules::files`.
    pub sources: Vec<String<A>, A>,
    pub faults: RuleFaults<A>,
}

impl<A: Allocator + Copy> HeldRules<A> {
    /// The rules before any directory is entered.
    pub fn new(
        alloc: A,
        first: Vec<IgnoreList<A>, A>,
        last: Vec<OuterRules<A>, A>,
    ) -> Result<Self, AllocError>
        ensures first { IfOk result (λ h. active_lists h.active.first.items ≡ after 0 first.items) }
        ensures files { IfOk result (λ h. active_lists h.active.files.items ≡ []) }
        ensures last { IfOk result (λ h. outer_of h.active.last.items ≡ outer_of last.items) }
        ensures sources { IfOk result (λ h. sources_of h ≡ []) }
    {
        Ok(HeldRules {
            active: ActiveRules::of_lists(alloc, first, last)?,
            sources: Vec::new(alloc),
            faults: RuleFaults::none(alloc),
        })
    }

    /// Reads the files of these names in a directory.
    pub fn read<R: RuleTexts<Alloc = A>>(
        &mut self,
        alloc: A,
        texts: &mut R,
        directory: &str,
        names: &[String<A>],
    ) -> Result<(), AllocError>
        ensures first { self.new.active.first ≡ self.old.active.first }
        ensures last { self.new.active.last ≡ self.old.active.last }
        ensures texts { R.texts texts.new ≡ R.texts texts.old }
        ensures reads { (known : Text → Option Text) → R.texts texts.old ≡ Some known
            → OnOk result (HasRead known directory.now (map (λ n. string_bytes n) names.now)
            self.old self.new) }
    {
        for name in names {
            self.read_file(alloc, texts, directory, name.as_str())?;
        }
        Ok(())
    }

    /// Reads the file of this name in a directory, if there is one.
    fn read_file<R: RuleTexts<Alloc = A>>(
        &mut self,
        alloc: A,
        texts: &mut R,
        directory: &str,
        name: &str,
    ) -> Result<(), AllocError>
        ensures first { self.new.active.first ≡ self.old.active.first }
        ensures last { self.new.active.last ≡ self.old.active.last }
        ensures texts { R.texts texts.new ≡ R.texts texts.old }
        ensures reads { (known : Text → Option Text) → R.texts texts.old ≡ Some known
            → OnOk result (HasRead known directory.now (name.now ∷ []) self.old self.new) }
    {
        let path = join(alloc, directory, name)?;
        let above = path.len().saturating_sub(name.len());
        match read_list(alloc, texts, path.as_str()) {
            Ok(None) => Ok(()),
            Ok(Some((list, refusals))) => {
                self.active.files.push(FileRules { above, list })?;
                self.hear(path, refusals)
            }
            Err(fault) => self.faults.add(&path, fault),
        }
    }

    /// Keeps the path of a file whose list was added, and the refusals of its lines.
    fn hear(&mut self, path: String<A>, refusals: Vec<RuleRefusal, A>) -> Result<(), AllocError>
        ensures active { self.new.active ≡ self.old.active }
        ensures sources { OnOk result
            (sources_of self.new ≡ sources_of self.old ++ string_bytes path ∷ []) }
    {
        if !refusals.is_empty() {
            let fault = SearchFault::RefusedRules(path.clone()?, refusals);
            self.faults.add(&path, fault)?;
        }
        self.sources.push(path)?;
        Ok(())
    }

    /// Forgets all lists of files but the first `above`.
    pub fn leave(&mut self, above: usize)
        ensures first { self.new.active.first ≡ self.old.active.first }
        ensures last { self.new.active.last ≡ self.old.active.last }
        ensures files { self.new.active.files.items ≡ take above self.old.active.files.items }
        ensures sources { self.new.sources.items ≡ take above self.old.sources.items }
    {
        self.active.files.truncate(above);
        self.sources.truncate(above);
    }

    /// The rule that decides whether a path is ignored. Nothing is asked about the directories above it.
    pub fn deciding_rule(
        &self,
        alloc: A,
        path: &str,
        is_dir: bool,
    ) -> Result<Option<DecidingRule<A>>, AllocError>
        ensures { All (λ l. IsCharBoundary path.now l.0) (active_lists self.now.active.first.items)
            → All (λ l. IsCharBoundary path.now l.0) (active_lists self.now.active.files.items)
            → length self.now.sources.items ≡ length self.now.active.files.items
            → IfOk result (λ rule. option_map (λ r. decision_of r) rule
            ≡ held_rule self.now path.now is_dir) }
    {
        if let Some((number, rule)) = last_naming(self.active.first.as_slice(), path, is_dir)? {
            let list = RuleList::First(number);
            return Ok(Some(DecidingRule { list, rule }));
        }
        if let Some((number, rule)) = last_naming(self.active.files.as_slice(), path, is_dir)? {
            return self.of_file(number, rule);
        }
        match last_outer(alloc, self.active.last.as_slice(), path, is_dir)? {
            Some((number, rule)) => {
                let list = RuleList::Last(number);
                Ok(Some(DecidingRule { list, rule }))
            }
            None => Ok(None),
        }
    }

    /// A rule of the list at this index of `ActiveRules::files`.
    fn of_file(&self, number: usize, rule: Rule) -> Result<Option<DecidingRule<A>>, AllocError>
        ensures { number < length self.now.sources.items
            → IfOk result (λ r. option_map (λ x. decision_of x) r
            ≡ Some (File (source_at self.now number), rule)) }
    {
        let Some(source) = self.sources.get(number) else {
            return Ok(None);
        };
        let list = RuleList::File(source.clone()?);
        Ok(Some(DecidingRule { list, rule }))
    }
}
