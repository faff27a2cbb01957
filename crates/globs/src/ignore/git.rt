//! `globs ignore --git`: copies the paths that git does not ignore, or names the rule that decides about each.
ghost use Rattle.std.specs.Prelude.{◌≡◌, ◌≤◌, [], IfOk, false, map};
ghost use Rattle.glob_lines.specs.Lines.{ended_record};
ghost use Rattle.globs.specs.ByGit.{CopiesAround, GitRules, IsAround, is_unignored};
ghost use Rattle.globs.specs.Copying.{input_of};
ghost use Rattle.globs.specs.GitNaming.{IgnoresByGit};

use crate::copying::write_selected;
use crate::files::IgnoreFiles;
use crate::find::places::Places;
use crate::ignore::around::{Around, rules_around};
use crate::ignore::git_naming::name_around;
use crate::ignore::operands::report_rules;
use crate::ignore::paths::{Paths, is_directory};
use crate::ignore::places::rule_files;
use crate::ignoring::{list_of, read_sources};
use crate::options::Settings;
use glob_console::ErrorLines;
use glob_lines::{Rewrite, Watch};
use glob_search::RuleTexts;
use std::alloc::{AllocError, Allocator};
use std::io::{Read, Write};

/// Copies the paths of the input that neither the rules of the files nor those of git ignore, or names the rule that
/// decides about each path, as the settings say. Returns the status.
pub fn run_by_git<P, F, R, W, E>(
    alloc: P::Alloc,
    places: &P,
    files: &F,
    settings: Settings,
    names: &[&str],
    input: &mut Watch<R>,
    output: &mut W,
    errors: &mut ErrorLines<'_, P::Alloc, E>,
) -> u8
where
    P: Places,
    F: IgnoreFiles,
    R: Read,
    W: Write,
    E: Write,
    requires { input.old.failed ≡ false }
    ensures most { result ≤ 2 }
    ensures ignored { IgnoresByGit W.contents
        (record { texts = P.texts places.now []; above = P.above places.now [] })
        (F.holds files.now) settings (map (λ w. w.now) names.now)
        (input_of R.remaining input.old input.new) output.old output.new result }
{
    let sources = match read_sources(alloc, files, names, &[]) {
        Ok(sources) => sources,
        Err(rules_fault) => return report_rules(rules_fault, errors),
    };
    let list = match list_of(alloc, sources.as_slice()) {
        Ok((_, list)) => list,
        Err(rules_fault) => return report_rules(rules_fault, errors),
    };
    let Ok(around) = rules_around(alloc, places, names, list, errors) else {
        return errors.memory_fault();
    };
    if !settings.names_rules {
        return copy_around(alloc, around, settings.end, names, input, output, errors);
    }
    match rule_files(alloc, names, sources.as_slice()) {
        Ok(files) => name_around(
            alloc,
            around,
            files.as_slice(),
            settings.end,
            names,
            input,
            output,
            errors,
        ),
        Err(_) => errors.memory_fault(),
    }
}

/// Copies the paths of the input that the rules do not ignore, and returns the status.
fn copy_around<A, X, R, W, E>(
    alloc: A,
    around: Around<X, A>,
    end: u8,
    names: &[&str],
    input: &mut Watch<R>,
    output: &mut W,
    errors: &mut ErrorLines<'_, A, E>,
) -> u8
where
    A: Allocator + Copy,
    X: RuleTexts<Alloc = A>,
    R: Read,
    W: Write,
    E: Write,
    requires { input.old.failed ≡ false }
    ensures most { result ≤ 2 }
    ensures copied { (r : GitRules) → IsAround X.texts r around
        → CopiesAround r end (input_of R.remaining input.old input.new)
        (W.contents output.old) (W.contents output.new) result }
{
    let mut unignored = UnignoredByGit {
        around,
        end,
        paths: Paths::new(),
    };
    let status = write_selected(alloc, &mut unignored, end, input, output, errors);
    let UnignoredByGit {
        mut around,
        paths,
        ..
    } = unignored;
    let status = paths.report(status, names, errors);
    around.report(alloc, status, errors)
}

/// Copies each path that the rules do not ignore.
#[derive(Drop)]
struct UnignoredByGit<X, A: Allocator> {
    around: Around<X, A>,
    end: u8,
    paths: Paths,
}

impl<A: Allocator + Copy, X: RuleTexts<Alloc = A>> Rewrite for UnignoredByGit<X, A> {
    ghost gives = { λ u selects write. (r : GitRules) × IsAround X.texts r u.around
        × (selects ≡ is_unignored r) × (write ≡ ended_record u.end) };

    fn rewrite<B: Allocator>(
        &mut self,
        bytes: &[u8],
        output: &mut Vec<u8, B>,
    ) -> Result<bool, AllocError> {
        if !is_unignored(&mut self.around, &self.paths, bytes)? {
            return Ok(false);
        }
        output.extend_from_slice(bytes)?;
        output.push(self.end)?;
        Ok(true)
    }
}

/// Whether the path of a record is UTF-8 and not ignored.
fn is_unignored<A: Allocator + Copy, X: RuleTexts<Alloc = A>>(
    around: &mut Around<X, A>,
    paths: &Paths,
    bytes: &[u8],
) -> Result<bool, AllocError>
    ensures keeps { (r : GitRules) → IsAround X.texts r around.old → IsAround X.texts r around.new }
    ensures selects { (r : GitRules) → IsAround X.texts r around.old
        → IfOk result (λ yes. yes ≡ is_unignored r bytes.now) }
{
    match paths.read(bytes) {
        Some(path) => Ok(!around.ignores(path, is_directory(bytes))?),
        None => Ok(false),
    }
}
