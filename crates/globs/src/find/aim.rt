//! What a search is asked for.
ghost use Rattle.std.specs.Prelude.{◌≡◌, ◌&&◌, ◌++◌, Option, Some, false, IfOk, OnOk, map, string_bytes};
ghost use Rattle.glob_search.specs.Aims.{outer_of};
ghost use Rattle.glob_text.specs.Text.{Text};
ghost use Rattle.globs.specs.Find.Above.{is_start_ignored};
ghost use Rattle.globs.specs.Find.Aiming.{IgnoresByList, IsAsked, depth_at, depth_of, heeds, is_ruled, last_lists, rule_files, wanted_of};

use crate::above::{Above, rules_above};
use crate::find::kinds::sifts;
use crate::git::{first_lists, git_names};
use crate::options::{Kinds, Options};
use glob_console::ErrorLines;
use glob_rules::IgnoreList;
use glob_search::{RuleTexts, Settings, Wanted};
use std::alloc::{AllocError, Allocator};
use std::io::Write;

/// The settings of a search for these options. `list` has the rules of the command line, and `last` the rules that
/// ignore files override, which may ignore the start.
pub fn settings_of<A: Allocator + Copy>(
    alloc: A,
    options: &Options<'_, A>,
    list: IgnoreList<A>,
    last: Above<A>,
) -> Result<Settings<A>, AllocError>
    ensures { IfOk result
        (IsAsked options.now list (outer_of last.lists.items) last.is_ignored) }
{
    let settings = options.settings;
    let first = first_lists(alloc, settings.is_git, is_ruled(options), list)?;
    Ok(Settings {
        options: settings.options,
        depth: depth_at(last.is_ignored, settings.depth),
        wanted: wanted_of(settings.kinds),
        // If some kinds are not wanted, the search learns those of what it finds in any case.
        kinds: settings.kinds.directories && sifts(settings.kinds),
        limit: settings.limit,
        first,
        last: last.lists,
        rule_files: rule_files(alloc, options)?,
    })
}

/// Whether the search reads ignore files.
pub fn heeds_files<A: Allocator>(options: &Options<'_, A>) -> bool
    ensures heeds { result ≡ heeds (rule_files options.now) }
    ensures list { IgnoresByList options.now }
{
    options.settings.is_git || !options.rule_files.is_empty()
}

/// How many names a path may have; 0 if the start is ignored.
fn depth_at(is_ignored: bool, depth: Option<u64>) -> usize
    ensures { result ≡ depth_at is_ignored depth }
{
    if is_ignored { 0 } else { depth_of(depth) }
}

/// How many names a path may have if the start is not ignored.
fn depth_of(depth: Option<u64>) -> usize
    ensures { result ≡ depth_of depth }
{
    match depth {
        Some(depth) => depth as usize,
        None => usize::MAX,
    }
}

/// Which paths are found. Paths other than directories may then be sifted by their kinds.
fn wanted_of(kinds: Kinds) -> Wanted
    ensures { result ≡ wanted_of kinds }
{
    match (kinds.directories, sifts(kinds)) {
        (true, false) => Wanted::Directories,
        (false, true) => Wanted::Others,
        (true, true) | (false, false) => Wanted::All,
    }
}

/// The names of the ignore files in each directory. If rules of two of them name a path, the later file decides.
fn rule_files<A: Allocator + Copy>(
    alloc: A,
    options: &Options<'_, A>,
) -> Result<Vec<String<A>, A>, AllocError>
    ensures { IfOk result (λ names. map string_bytes names.items ≡ rule_files options.now) }
{
    let mut names = git_names(alloc, options.settings.is_git)?;
    add_names(alloc, options.rule_files.as_slice(), &mut names)?;
    Ok(names)
}

/// Whether there are rules on the command line.
fn is_ruled<A: Allocator>(options: &Options<'_, A>) -> bool
    ensures { result ≡ is_ruled options.now }
{
    !options.files.is_empty() || !options.rules.is_empty()
}

/// Adds names.
fn add_names<A: Allocator + Copy>(
    alloc: A,
    words: &[&str],
    names: &mut Vec<String<A>, A>,
) -> Result<(), AllocError>
    ensures { OnOk result (map string_bytes names.new.items
        ≡ map string_bytes names.old.items ++ map (λ w. w.now) words.now) }
{
    for word in words {
        let name = String::from_str(alloc, word)?;
        names.push(name)?;
    }
    Ok(())
}

/// The rules that ignore files override: with `--git`, the rules of the start's repository; `place` has the names from
/// its top down to the start. Lines on `errors` say what cannot be read or is refused.
pub fn last_rules<A: Allocator + Copy, X: RuleTexts<Alloc = A>, E: Write>(
    alloc: A,
    is_git: bool,
    lead: &str,
    place: &[&str],
    texts: &mut X,
    errors: &mut ErrorLines<'_, A, E>,
) -> Result<Above<A>, AllocError>
    ensures kept { X.texts texts.new ≡ X.texts texts.old }
    ensures lists { (known : Text → Option Text) → X.texts texts.old ≡ Some known
        → IfOk result (λ last. outer_of last.lists.items
        ≡ last_lists is_git (map (λ n. n.now) place.now) known) }
    ensures ignored { (known : Text → Option Text) → X.texts texts.old ≡ Some known
        → IfOk result (λ last. last.is_ignored
        ≡ (is_git && is_start_ignored known (map (λ n. n.now) place.now))) }
    ensures fault { IfOk result (λ last. is_git ≡ false → last.has_fault ≡ false) }
{
    if is_git {
        rules_above(alloc, lead, place, texts, errors)
    } else {
        Ok(Above::none(alloc))
    }
}
