//! The rules of git from the top of a repository down to a directory in it.
ghost use Rattle.std.specs.Prelude.{◌≡◌, ◌||◌, ◌++◌, [], Option, None, Some, false, IfOk, OnOk, if◌then◌else◌, map, option_map, string_bytes};
ghost use Rattle.std.specs.Option.{option_or};
ghost use Rattle.glob_search.specs.Aims.{outer_of};
ghost use Rattle.glob_search.specs.Asking.{Last};
ghost use Rattle.glob_search.specs.Searching.{entered, ignores_directory};
ghost use Rattle.glob_text.specs.Text.{Text};
ghost use Rattle.globs.specs.Find.Above.{file_above, file_at, files_above, is_start_ignored, lists_above, outer_decision, read_at, rule_from, start_rule};

use crate::find::fault::{report_refusals, with_lead};
use crate::ignoring::RulesFault;
use crate::visible::Visible;
use glob_console::ErrorLines;
use glob_rules::{IgnoreList, Rule};
use glob_search::{OuterRules, RuleTexts, entered, ignores_directory};
use glob_tree::{ListError, join};
use std::alloc::{AllocError, Allocator};
use std::fmt::{self, Display};
use std::io::Write;

/// The path of git's rules for the whole repository, from the top on.
const EXCLUDE: &str = ".git/info/exclude";

/// The name of git's ignore files.
pub const GITIGNORE: &str = ".gitignore";

/// The rules of git that apply in a directory, without the rules of its own ignore file.
#[derive(Drop)]
pub struct Above<A: Allocator> {
    /// The lists. If several have a rule for a path, the last decides.
    pub lists: Vec<OuterRules<A>, A>,
    /// The path of each list's file, as lines name it, in the order of the lists.
    pub files: Vec<String<A>, A>,
    /// Whether they ignore the directory, or a directory above it.
    pub is_ignored: bool,
    /// The rule that does so, of the highest such directory, and the index of its list.
    pub ignoring: Option<(usize, Rule)>,
    /// Whether some of them could not be read or are refused.
    pub has_fault: bool,
}

/// The rules of git that apply in a directory; `place` has the names from the top of its repository down to it. Lines
/// on `errors`, with the lead before each path, say which files cannot be read, which of their lines are refused, and
/// which file ignores the directory.
///
/// In `top/a/b`, with `a` and `b` in `place`, the files are `../../.git/info/exclude`, `../../.gitignore` and
/// `../.gitignore`.
pub fn rules_above<A: Allocator + Copy, X: RuleTexts<Alloc = A>, E: Write>(
    alloc: A,
    lead: &str,
    place: &[&str],
    texts: &mut X,
    errors: &mut ErrorLines<'_, A, E>,
) -> Result<Above<A>, AllocError>
    ensures kept { X.texts texts.new ≡ X.texts texts.old }
    ensures lists { (known : Text → Option Text) → X.texts texts.old ≡ Some known
        → IfOk result (λ above. outer_of above.lists.items
        ≡ lists_above known (map (λ n. n.now) place.now)) }
    ensures ignored { (known : Text → Option Text) → X.texts texts.old ≡ Some known
        → IfOk result (λ above. above.is_ignored
        ≡ is_start_ignored known (map (λ n. n.now) place.now)) }
    ensures files { (known : Text → Option Text) → X.texts texts.old ≡ Some known → lead.now ≡ []
        → IfOk result (λ above. map string_bytes above.files.items
        ≡ files_above known (map (λ n. n.now) place.now)) }
    ensures rule { (known : Text → Option Text) → X.texts texts.old ≡ Some known
        → IfOk result (λ above. outer_decision above.ignoring
        ≡ start_rule known (map (λ n. n.now) place.now)) }
{
    let mut above = Above::none(alloc);
    let exclude = file_above(alloc, place.len(), EXCLUDE)?;
    above.read(alloc, lead, exclude, texts, errors)?;
    let mut left = place;
    while let [name, deeper @ ..] = left {
        let file = file_above(alloc, left.len(), GITIGNORE)?;
        above.read(alloc, lead, file, texts, errors)?;
        above = above.enter(alloc, name, errors)?;
        left = deeper;
    }
    Ok(above)
}

impl<A: Allocator + Copy> Above<A> {
    /// No rules.
    pub fn none(alloc: A) -> Self
        ensures lists { result.lists.items ≡ [] }
        ensures files { result.files.items ≡ [] }
        ensures ignored { result.is_ignored ≡ false }
        ensures rule { result.ignoring ≡ None }
        ensures fault { result.has_fault ≡ false }
    {
        Above {
            lists: Vec::new(alloc),
            files: Vec::new(alloc),
            is_ignored: false,
            ignoring: None,
            has_fault: false,
        }
    }

    /// Adds the rules of the file at a path, for the paths below its directory, if there is one.
    fn read<X: RuleTexts<Alloc = A>, E: Write>(
        &mut self,
        alloc: A,
        lead: &str,
        path: String<A>,
        texts: &mut X,
        errors: &mut ErrorLines<'_, A, E>,
    ) -> Result<(), AllocError>
        ensures kept { X.texts texts.new ≡ X.texts texts.old }
        ensures lists { (known : Text → Option Text) → X.texts texts.old ≡ Some known
            → OnOk result (outer_of self.new.lists.items
            ≡ outer_of self.old.lists.items ++ read_at known (string_bytes path)) }
        ensures ignored { self.new.is_ignored ≡ self.old.is_ignored }
        ensures rule { self.new.ignoring ≡ self.old.ignoring }
        ensures files { (known : Text → Option Text) → X.texts texts.old ≡ Some known
            → lead.now ≡ [] → OnOk result (map string_bytes self.new.files.items
            ≡ map string_bytes self.old.files.items ++ file_at known (string_bytes path)) }
    {
        let text = match texts.text(path.as_str()) {
            Ok(Some(text)) => text,
            Ok(None) => return Ok(()),
            Err(ListError::Read(error)) => {
                let path = with_lead(alloc, lead, path);
                errors.write(&RulesFault::unread(path.as_str(), error));
                self.has_fault = true;
                return Ok(());
            }
            Err(ListError::Memory) => return Err(AllocError),
        };
        let (list, refusals) = IgnoreList::lenient(alloc, text.as_str())?;
        let path = with_lead(alloc, lead, path);
        report_refusals(path.as_str(), refusals.as_slice(), errors);
        self.has_fault = self.has_fault || !refusals.is_empty();
        self.lists.push(OuterRules::at_start(alloc, list))?;
        self.files.push(path)?;
        Ok(())
    }

    /// The rules that apply in the directory with this name. If they ignore it, and nothing above was ignored, a line
    /// says so.
    fn enter<E: Write>(
        self,
        alloc: A,
        name: &str,
        errors: &mut ErrorLines<'_, A, E>,
    ) -> Result<Self, AllocError>
        ensures lists { IfOk result (λ deeper. outer_of deeper.lists.items
            ≡ entered name.now (outer_of self.lists.items)) }
        ensures ignored { IfOk result (λ deeper. deeper.is_ignored
            ≡ (self.is_ignored || ignores_directory (outer_of self.lists.items) name.now)) }
        ensures files { IfOk result (λ deeper. deeper.files ≡ self.files) }
        ensures rule { IfOk result (λ deeper. outer_decision deeper.ignoring
            ≡ option_or (outer_decision self.ignoring)
            (if self.is_ignored then None
            else (if ignores_directory (outer_of self.lists.items) name.now
            then rule_from 0 (outer_of self.lists.items) name.now else None))) }
    {
        let is_ignored = ignores_directory(alloc, self.lists.as_slice(), name)?;
        let ignoring = if is_ignored && !self.is_ignored {
            let rule = outer_rule(alloc, self.lists.as_slice(), name)?;
            self.report(rule, errors);
            self.ignoring.or(rule)
        } else {
            self.ignoring
        };
        Ok(Above {
            lists: entered(alloc, self.lists, name)?,
            files: self.files,
            is_ignored: self.is_ignored || is_ignored,
            ignoring,
            has_fault: self.has_fault,
        })
    }

    /// Writes the line that names the file of a rule that ignores a directory.
    fn report<E: Write>(&self, rule: Option<(usize, Rule)>, errors: &mut ErrorLines<'_, A, E>) {
        if let Some((index, _)) = rule {
            if let Some(file) = self.files.get(index) {
                errors.write(&StartIgnored {
                    file: file.as_str(),
                });
            }
        }
    }
}

/// The last rule that names the directory with this name in the start, and the index of its list.
fn outer_rule<A: Allocator + Copy>(
    alloc: A,
    lists: &[OuterRules<A>],
    name: &str,
) -> Result<Option<(usize, Rule)>, AllocError>
    ensures { IfOk result
        (λ rule. outer_decision rule ≡ rule_from 0 (outer_of lists.now) name.now) }
{
    let mut last = None;
    for index in 0..lists.len() {
        let rules = &lists[index];
        let path = join(alloc, rules.prefix.as_str(), name)?;
        let rule = rules.list.naming_rule(path.as_str(), true)?;
        last = later_rule(index, rule, last);
    }
    Ok(last)
}

/// The rule of the list with this index, or the rule before if there is none.
fn later_rule(
    index: usize,
    rule: Option<Rule>,
    before: Option<(usize, Rule)>,
) -> Option<(usize, Rule)>
    ensures { outer_decision result
        ≡ option_or (option_map (λ r. (Last index, r)) rule) (outer_decision before) }
{
    match rule {
        Some(rule) => Some((index, rule)),
        None => before,
    }
}

/// The path of a file in the directory this many levels above.
fn file_above<A: Allocator + Copy>(
    alloc: A,
    levels: usize,
    file: &str,
) -> Result<String<A>, AllocError>
    ensures { IfOk result (λ path. string_bytes path ≡ file_above levels file.now) }
{
    let mut path = "../".repeat(alloc, levels)?;
    path.push_str(file)?;
    Ok(path)
}

/// The line about a start that a rule of a file above it ignores.
#[derive(Clone, Copy)]
struct StartIgnored<'a> {
    file: &'a str,
}

impl Display for StartIgnored<'_> {
    fn fmt<W: fmt::Write>(&self, f: &mut fmt::Formatter<W>) -> fmt::Result {
        let file = Visible { text: self.file };
        write!(
            f,
            "the start is ignored by {file}, and so is everything below it"
        )
    }
}
