//! The rules of git around the current directory.
ghost use Rattle.std.specs.Prelude.{◌≡◌, ◌≤◌, ◌⊎◌, [], Option, Some, IfOk, map, option_map};
ghost use Rattle.glob_search.specs.Asking.{decision_of};
ghost use Rattle.glob_text.specs.Text.{Text};
ghost use Rattle.glob_tree.specs.Content.{Key};
ghost use Rattle.globs.specs.ByGit.{GitRules, IsAround, decision_by, git_options, git_rules, ignores};
ghost use Rattle.globs.specs.Find.Above.{outer_decision};
ghost use Rattle.globs.specs.Find.Aiming.{is_ruled};

use crate::above::rules_above;
use crate::find::fault::report_search;
use crate::find::places::{Place, Places};
use crate::git::{first_lists, git_names};
use crate::ignore::paths::is_within;
use glob_console::{ErrorLines, FAULT, as_strs};
use glob_rules::{IgnoreList, Rule};
use glob_search::{DecidingRule, PathRules, RuleList, RuleTexts};
use std::alloc::{AllocError, Allocator};
use std::io::Write;

/// The rules of git around the current directory, and what they are read from.
#[derive(Drop)]
pub struct Around<X, A: Allocator> {
    pub rules: PathRules<A>,
    pub texts: X,
    /// The files above the current directory, and the one for the whole repository, in the order of their lists.
    pub above: Vec<String<A>, A>,
    /// Whether rules of these files ignore the current directory.
    pub is_ignored: bool,
    /// The rule that does, and the index of its list.
    pub ignoring: Option<(usize, Rule)>,
    /// Whether some of these files could not be read, or have refused lines.
    pub has_fault: bool,
}

/// The rules of git around the current directory. `list` has the rules of the command line, if there are any: they
/// override all others.
pub fn rules_around<P: Places, E: Write>(
    alloc: P::Alloc,
    places: &P,
    names: &[&str],
    list: IgnoreList<P::Alloc>,
    errors: &mut ErrorLines<'_, P::Alloc, E>,
) -> Result<Around<P::Texts, P::Alloc>, AllocError>
    ensures { (known : Text → Option Text) (place : Key) → P.texts places.now [] ≡ Some known
        → P.above places.now [] ≡ Some place → IfOk result
        (IsAround P.Texts.texts (git_rules (map (λ w. w.now) names.now) list place known)) }
{
    let here = Place::here();
    let place = places.names_above(here)?;
    let way = as_strs(alloc, place.as_slice())?;
    let mut texts = places.rule_texts(here)?;
    let last = rules_above(alloc, "", way.as_slice(), &mut texts, errors)?;
    let first = first_lists(alloc, true, is_ruled(names), list)?;
    let files = git_names(alloc, true)?;
    let rules = PathRules::new(alloc, first, files, last.lists)?;
    Ok(Around {
        rules,
        texts,
        above: last.files,
        is_ignored: last.is_ignored,
        ignoring: last.ignoring,
        has_fault: last.has_fault,
    })
}

/// Whether there are files of rules.
fn is_ruled(names: &[&str]) -> bool
    ensures { result ≡ is_ruled (git_options (map (λ w. w.now) names.now)) }
{
    !names.is_empty()
}

impl<A: Allocator + Copy, X: RuleTexts<Alloc = A>> Around<X, A> {
    /// Whether a path is ignored. If the current directory is, then so is everything in it.
    pub fn ignores(&mut self, path: &str, is_dir: bool) -> Result<bool, AllocError>
        ensures keeps { (r : GitRules) → IsAround X.texts r self.old → IsAround X.texts r self.new }
        ensures ignored { (r : GitRules) → IsAround X.texts r self.old
            → IfOk result (λ ignored. ignored ≡ ignores r path.now is_dir) }
    {
        if self.is_ignored {
            return Ok(is_within(path));
        }
        self.rules.is_ignored(&mut self.texts, path, is_dir)
    }

    /// The rule that decides about a path. If the current directory is ignored, it is the rule that does so.
    pub fn deciding_rule(
        &mut self,
        path: &str,
        is_dir: bool,
    ) -> Result<Option<DecidingRule<A>>, AllocError>
        ensures keeps { (r : GitRules) → IsAround X.texts r self.old → IsAround X.texts r self.new }
        ensures decides { (r : GitRules) → IsAround X.texts r self.old
            → IfOk result (λ rule. option_map (λ d. decision_of d) rule
            ≡ decision_by r path.now is_dir) }
    {
        if !self.is_ignored {
            return self.rules.deciding_rule(&mut self.texts, path, is_dir);
        }
        if is_within(path) {
            return Ok(self.start_rule());
        }
        Ok(None)
    }

    /// The rule that ignores the current directory.
    fn start_rule(&self) -> Option<DecidingRule<A>>
        ensures { option_map (λ d. decision_of d) result ≡ outer_decision self.now.ignoring }
    {
        let (index, rule) = self.ignoring?;
        let list = RuleList::Last(index);
        Some(DecidingRule { list, rule })
    }

    /// Writes lines about files that could not be read, and about refused lines of files. Returns 2 if it wrote one,
    /// and otherwise `status`.
    pub fn report<E: Write>(
        &mut self,
        alloc: A,
        status: u8,
        errors: &mut ErrorLines<'_, A, E>,
    ) -> u8
        ensures most { status ≤ 2 → result ≤ 2 }
        ensures kept { (result ≡ status) ⊎ (result ≡ 2) }
    {
        let faults = self.rules.take_faults();
        if faults.is_empty() && !self.has_fault {
            return status;
        }
        for fault in faults {
            report_search(alloc, "", fault, errors);
        }
        FAULT
    }
}
