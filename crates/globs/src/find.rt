//! `globs find`: writes the paths below a directory that some pattern matches and nothing excludes.
ghost use Rattle.std.specs.Prelude.{◌≡◌, ◌≤◌, Some, IfOk, OnErr, map, string_bytes};
ghost use Rattle.glob_rules.specs.Lists.{rules_of};
ghost use Rattle.glob_tree.specs.Content.{Key};
ghost use Rattle.globs.specs.Find.Aiming.{placed};
ghost use Rattle.globs.specs.Find.Leads.{led};
ghost use Rattle.globs.specs.Find.Outcomes.{Finds, FindsAll, FindsPaths, FindsUnignored, known_at};
ghost use Rattle.globs.specs.Find.Writing.{status_of};

mod aim;
pub mod astray;
mod beginning;
pub mod below;
mod directories;
pub mod disk;
pub mod fault;
mod heeding;
mod hints;
pub mod kinds;
pub mod leads;
mod lines;
mod missing;
mod names;
pub mod places;
mod rule_hints;
mod searching;
pub mod slips;
mod strays;
mod way;

use crate::braces::{Reported, expand_words};
use crate::command::Asked;
use crate::files::IgnoreFiles;
use crate::ignoring::read_rules;
use crate::name::Name;
use crate::options::Options;
use crate::patterns::FaultLines;
use aim::heeds_files;
use astray::note_astray;
use beginning::begin;
use below::check_patterns;
use directories::DirectoryWords;
use fault::FindFault;
use glob_console::{ErrorLines, FAULT, FOUND, as_strs};
use glob_rules::IgnoreList;
use glob_search::RuleTexts;
use glob_tree::Tree;
use heeding::Heeded;
use hints::note_words;
use kinds::{PathKinds, Sieve};
use leads::{leads_of, led_patterns, place_at};
use missing::note_missing;
use places::{NoDirectory, Place, Places, is_directory};
use rule_hints::report_rules;
use searching::{Findings, run_search};
use slips::{note_names, note_refused};
use std::alloc::{AllocError, Allocator};
use std::io::Write;

/// Searches as the command line asks, and returns the status. A refused rule or word is a fault, and so is a start that
/// is not a directory; they come before anything is looked up or written.
#[tactic(auto, unfolding(crate::specs::Find::Outcomes::FindsUnignored))]
pub fn find_asked<P, F, W, E>(
    alloc: P::Alloc,
    places: &P,
    files: &F,
    asked: &Asked<'_, P::Alloc>,
    output: &mut W,
    errors: &mut ErrorLines<'_, P::Alloc, E>,
) -> u8
where
    P: Places,
    F: IgnoreFiles + PathKinds,
    W: Write,
    E: Write,
    ensures most { result ≤ 2 }
    ensures found { let o = asked.now.options in FindsUnignored W.contents (record {
      content = P.content places.now o.settings.follows;
      texts = P.texts places.now;
      kinds = F.kinds files.now o.settings.follows;
      above = P.above places.now;
    }) (F.holds files.now) o (map (λ w. w.now) asked.now.operands.now)
        output.old output.new result }
{
    let options = &asked.options;
    let read = read_rules(
        alloc,
        files,
        options.files.as_slice(),
        options.rules.as_slice(),
    );
    match read {
        Ok((rules, _)) => find_words(
            alloc,
            places,
            files,
            rules.as_str(),
            options,
            asked.operands,
            output,
            errors,
        ),
        Err(rules_fault) => report_rules(rules_fault, errors),
    }
}

/// Expands the braces of the words, `*.{c,h}` to `*.c` and `*.h`, and then does what [`find_each`] does. A refused word
/// is a fault, before anything is looked up or written. Lines say what the words were probably meant to say.
#[tactic(auto, unfolding(crate::specs::Find::Outcomes::Finds))]
fn find_words<P, F, W, E>(
    alloc: P::Alloc,
    places: &P,
    files: &F,
    rules: &str,
    options: &Options<'_, P::Alloc>,
    words: &[&str],
    output: &mut W,
    errors: &mut ErrorLines<'_, P::Alloc, E>,
) -> u8
where
    P: Places,
    F: PathKinds,
    W: Write,
    E: Write,
    ensures most { result ≤ 2 }
    ensures found { let o = options.now in Finds W.contents (record {
      content = P.content places.now o.settings.follows;
      texts = P.texts places.now;
      kinds = F.kinds files.now o.settings.follows;
      above = P.above places.now;
    }) o (rules_of rules.now) (map (λ w. w.now) words.now) output.old output.new result }
{
    let expanded = match expand_words(alloc, Name::Find, words, errors) {
        Ok(expanded) => expanded,
        Err(Reported) => {
            note_astray(alloc, options, words, errors);
            note_refused(alloc, words, errors);
            return FAULT;
        }
    };
    let Ok(patterns) = as_strs(alloc, expanded.as_slice()) else {
        return errors.memory_fault();
    };
    let patterns = patterns.as_slice();
    if let Err(fault) = check_patterns(alloc, patterns) {
        return errors.fault(FaultLines {
            name: Name::Find,
            fault,
        });
    }
    let Ok(leads) = leads_of(alloc, patterns) else {
        return errors.memory_fault();
    };
    let leads = leads.as_slice();
    let named = DirectoryWords::new(alloc, files, options, patterns);
    match find_each(
        alloc, places, files, rules, options, patterns, leads, &named, output, errors,
    ) {
        Ok(findings) => {
            let status = findings.status();
            if status != FAULT {
                let is_found = status == FOUND;
                named.report(is_found, errors);
                note_missing(
                    alloc, places, files, options, words, patterns, is_found, errors,
                );
                note_names(alloc, files, options, patterns, errors);
                note_words(alloc, options, words, patterns, status, errors);
            }
            status
        }
        Err(find_fault) => find_fault.report(errors),
    }
}

/// Searches for the patterns, one search after another for each of their leads. An error ends the searches; the first
/// bytes of what they find may have been written by then.
fn find_each<P, F, W, E>(
    alloc: P::Alloc,
    places: &P,
    files: &F,
    rules: &str,
    options: &Options<'_, P::Alloc>,
    patterns: &[&str],
    leads: &[&str],
    named: &DirectoryWords<'_, '_>,
    output: &mut W,
    errors: &mut ErrorLines<'_, P::Alloc, E>,
) -> Result<Findings, FindFault>
where
    P: Places,
    F: PathKinds,
    W: Write,
    E: Write,
    ensures found { let o = options.now in IfOk result (λ findings. FindsAll (record {
      content = P.content places.now o.settings.follows;
      texts = P.texts places.now;
      kinds = F.kinds files.now o.settings.follows;
      above = P.above places.now;
    }) o (rules_of rules.now) (map (λ p. p.now) patterns.now) (map (λ l. l.now) leads.now)
        (W.contents output.old) (W.contents output.new) (status_of findings)) }
    ensures some { let o = options.now in OnErr result (FindsAll (record {
      content = P.content places.now o.settings.follows;
      texts = P.texts places.now;
      kinds = F.kinds files.now o.settings.follows;
      above = P.above places.now;
    }) o (rules_of rules.now) (map (λ p. p.now) patterns.now) (map (λ l. l.now) leads.now)
        (W.contents output.old) (W.contents output.new) 2) }
{
    let mut findings = Findings::new();
    for lead in leads {
        let status = find_led(
            alloc, places, files, rules, options, patterns, lead, named, output, errors,
        )?;
        findings.note(status);
    }
    Ok(findings)
}

/// Searches for the patterns with this lead, from the place to which it leads. A place that is not a directory is a
/// fault.
fn find_led<P, F, W, E>(
    alloc: P::Alloc,
    places: &P,
    files: &F,
    rules: &str,
    options: &Options<'_, P::Alloc>,
    patterns: &[&str],
    lead: &str,
    named: &DirectoryWords<'_, '_>,
    output: &mut W,
    errors: &mut ErrorLines<'_, P::Alloc, E>,
) -> Result<u8, FindFault>
where
    P: Places,
    F: PathKinds,
    W: Write,
    E: Write,
    ensures found { let o = options.now in IfOk result (FindsPaths (known_at (record {
      content = P.content places.now o.settings.follows;
      texts = P.texts places.now;
      kinds = F.kinds files.now o.settings.follows;
      above = P.above places.now;
    }) o lead.now) o (rules_of rules.now) lead.now
        (led lead.now (map (λ p. p.now) patterns.now)) (W.contents output.old) (W.contents output.new)) }
    ensures some { let o = options.now in OnErr result (FindsPaths (known_at (record {
      content = P.content places.now o.settings.follows;
      texts = P.texts places.now;
      kinds = F.kinds files.now o.settings.follows;
      above = P.above places.now;
    }) o lead.now) o (rules_of rules.now) lead.now
        (led lead.now (map (λ p. p.now) patterns.now)) (W.contents output.old) (W.contents output.new) 2) }
{
    let led = led_patterns(alloc, lead, patterns)?;
    let path = place_at(alloc, options.directory, lead)?;
    let place = Place {
        path: path.as_str(),
        lead,
        follows: options.settings.follows,
        is_utf8_only: options.settings.is_utf8_only,
        rules,
    };
    let mut tree = places.tree(place)?;
    if !is_directory(&mut tree, place.path)? {
        return Ok(errors.fault(NoDirectory::new(alloc, files, options.directory)));
    }
    let texts = places.rule_texts(place)?;
    let list = list_of(alloc, rules)?;
    let names = names_above(alloc, places, options.settings.is_git, place)?;
    let above = as_strs(alloc, names.as_slice())?;
    run_find(
        alloc,
        tree,
        texts,
        above.as_slice(),
        files,
        place,
        list,
        options,
        led.as_slice(),
        named,
        output,
        errors,
    )
}

/// The names from the top of a place's repository down to the place; none without `--git`. The error is an allocation
/// failure.
fn names_above<P: Places>(
    alloc: P::Alloc,
    places: &P,
    is_git: bool,
    place: Place<'_, '_, '_>,
) -> Result<Vec<String<P::Alloc>, P::Alloc>, AllocError>
    ensures { (above : Key) → placed is_git (P.above places.now place.entry.path.now) ≡ Some above
        → IfOk result (λ names. map string_bytes names.items ≡ above) }
{
    if is_git {
        places.names_above(place)
    } else {
        Ok(Vec::new(alloc))
    }
}

/// The list of the rules of the command line. They were accepted before, so the error is an allocation failure.
fn list_of<A: Allocator + Copy>(alloc: A, rules: &str) -> Result<IgnoreList<A>, AllocError>
    ensures { IfOk result (λ list. list ≡ rules_of rules.now) }
{
    match IgnoreList::new(alloc, rules) {
        Ok(list) => Ok(list),
        Err(_) => Err(AllocError),
    }
}

/// Searches the tree, and writes each path below its current directory that some pattern matches, that has a kind in
/// the settings, and that neither rules nor the depth exclude: once, in ascending byte order of the names, after the
/// lead of the place. Returns the exit status: 0 if there is a path, 1 if there is no path, and 2 if a directory could
/// not be listed, a file with rules could not be read, or the search did not finish. The error is a failed write of a
/// line, or an allocation failure.
///
/// With the files `a.rs`, `b.c`, `d/a.rs` and `t/a.rs`, and a list that ignores `t`, the patterns `**/*.rs` and `d/*`
/// write `a.rs` and `d/a.rs`.
fn run_find<T, X, F, W, E>(
    alloc: T::Alloc,
    tree: T,
    texts: X,
    above: &[&str],
    files: &F,
    place: Place<'_, '_, '_>,
    list: IgnoreList<T::Alloc>,
    options: &Options<'_, T::Alloc>,
    patterns: &[&str],
    named: &DirectoryWords<'_, '_>,
    output: &mut W,
    errors: &mut ErrorLines<'_, T::Alloc, E>,
) -> Result<u8, FindFault>
where
    T: Tree,
    X: RuleTexts<Alloc = T::Alloc>,
    F: PathKinds,
    W: Write,
    E: Write,
    ensures most { IfOk result (λ status. status ≤ 2) }
    ensures found { IfOk result (FindsPaths (record {
      content = T.tells tree;
      texts = X.texts texts;
      kinds = F.kinds files.now options.now.settings.follows place.entry.path.now;
      above = Some (map (λ n. n.now) above.now);
    }) options.now list place.entry.lead.now (map (λ p. p.now) patterns.now)
        (W.contents output.old) (W.contents output.new)) }
    ensures some { OnErr result (FindsPaths (record {
      content = T.tells tree;
      texts = X.texts texts;
      kinds = F.kinds files.now options.now.settings.follows place.entry.path.now;
      above = Some (map (λ n. n.now) above.now);
    }) options.now list place.entry.lead.now (map (λ p. p.now) patterns.now)
        (W.contents output.old) (W.contents output.new) 2) }
{
    let heeds = heeds_files(options);
    let mut tree = tree;
    let mut texts = Heeded { texts, heeds };
    let (search, has_fault) = match begin(
        alloc, place.lead, above, &mut texts, list, options, patterns, errors,
    ) {
        Ok(begun) => begun,
        Err(fault) => {
            return Ok(errors.fault(FaultLines {
                name: Name::Find,
                fault,
            }));
        }
    };
    let end = options.settings.end;
    let sieve = Sieve::new(files, options.settings, place.path, place.lead, named);
    let status = run_search(
        alloc, search, &mut tree, &mut texts, &sieve, place.lead, end, output, errors,
    )?;
    if has_fault {
        return Ok(FAULT);
    }
    Ok(status)
}
