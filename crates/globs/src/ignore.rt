//! `globs ignore`: copies the paths of the input that the rules of ignore files do not ignore.
ghost use Rattle.std.specs.Prelude.{◌≡◌, ◌≤◌, [], false, map};
ghost use Rattle.globs.specs.Copying.{input_of};
ghost use Rattle.globs.specs.IgnoringPaths.{IgnoresPaths};
ghost use Rattle.globs.specs.Naming.{IgnoresByFiles};
ghost use Rattle.globs.specs.Unignored.{CopiesList, CopiesUnignored};

mod around;
mod git;
mod git_naming;
mod naming;
mod operands;
mod paths;
mod places;
mod unignored;

use crate::copying::copy;
use crate::files::IgnoreFiles;
use crate::find::places::Places;
use crate::ignoring::read_rules;
use crate::options::Settings;
use git::run_by_git;
use glob_console::ErrorLines;
use glob_lines::Watch;
use glob_rules::IgnoreList;
use naming::name_rules;
use operands::report_rules;
use paths::Paths;
use std::alloc::Allocator;
use std::io::{Read, Write};
use unignored::Unignored;

/// Copies the paths of the input that the rules of the files do not ignore, or names the rule that decides about each
/// path, as the settings say; with `--git`, the rules of git count, too. Returns the status.
pub fn run_ignore<P, F, R, W, E>(
    alloc: P::Alloc,
    places: &P,
    files: &F,
    settings: Settings,
    names: &[&str],
    input: &mut Watch<R>,
    output: &mut W,
    errors: &mut ErrorLines<'_, P::Alloc, E>,
) -> u8
where
    P: Places,
    F: IgnoreFiles,
    R: Read,
    W: Write,
    E: Write,
    requires { input.old.failed ≡ false }
    ensures most { result ≤ 2 }
    ensures ignored { IgnoresPaths W.contents
        (record { texts = P.texts places.now []; above = P.above places.now [] })
        (F.holds files.now) settings (map (λ w. w.now) names.now)
        (input_of R.remaining input.old input.new) output.old output.new result }
{
    if settings.is_git {
        run_by_git(alloc, places, files, settings, names, input, output, errors)
    } else {
        run_by_files(alloc, files, settings, names, input, output, errors)
    }
}

/// The same, without the rules of git.
fn run_by_files<A: Allocator + Copy, F: IgnoreFiles, R: Read, W: Write, E: Write>(
    alloc: A,
    files: &F,
    settings: Settings,
    names: &[&str],
    input: &mut Watch<R>,
    output: &mut W,
    errors: &mut ErrorLines<'_, A, E>,
) -> u8
    requires { input.old.failed ≡ false }
    ensures most { result ≤ 2 }
    ensures ignored { IgnoresByFiles W.contents (F.holds files.now) settings
        (map (λ w. w.now) names.now)
        (input_of R.remaining input.old input.new) output.old output.new result }
{
    if settings.names_rules {
        name_rules(alloc, files, settings.end, names, input, output, errors)
    } else {
        copy_paths(alloc, files, settings.end, names, input, output, errors)
    }
}

/// Copies the paths of the input that the rules of the files do not ignore, and returns the status. Later rules
/// override earlier ones, also across files. The files are read whole before the input, so a refused rule is a fault
/// before any input is read or anything is written. Paths that are not UTF-8 are left out; then the status is 2, and a
/// line says how many there were.
///
/// With the input `"a.o\na.c\n"`, a file with the rule `*.o` writes `"a.c\n"`.
fn copy_paths<A: Allocator + Copy, F: IgnoreFiles, R: Read, W: Write, E: Write>(
    alloc: A,
    files: &F,
    end: u8,
    names: &[&str],
    input: &mut Watch<R>,
    output: &mut W,
    errors: &mut ErrorLines<'_, A, E>,
) -> u8
    requires { input.old.failed ≡ false }
    ensures most { result ≤ 2 }
    ensures copied { CopiesUnignored W.contents (F.holds files.now) end (map (λ w. w.now) names.now)
        (input_of R.remaining input.old input.new) output.old output.new result }
{
    match read_rules(alloc, files, names, &[]) {
        Ok((_, list)) => copy_unignored(alloc, &list, names, end, input, output, errors),
        Err(rules_fault) => report_rules(rules_fault, errors),
    }
}

/// Copies the paths of the input that the list does not ignore, and returns the status.
fn copy_unignored<A: Allocator + Copy, R: Read, W: Write, E: Write>(
    alloc: A,
    list: &IgnoreList<A>,
    names: &[&str],
    end: u8,
    input: &mut Watch<R>,
    output: &mut W,
    errors: &mut ErrorLines<'_, A, E>,
) -> u8
    requires { input.old.failed ≡ false }
    ensures most { result ≤ 2 }
    ensures copied { CopiesList list.now end (input_of R.remaining input.old input.new)
        (W.contents output.old) (W.contents output.new) result }
{
    let unignored = Unignored {
        list,
        paths: Paths::new(),
    };
    let status = copy(alloc, &unignored, end, input, output, errors);
    unignored.paths.report(status, names, errors)
}
