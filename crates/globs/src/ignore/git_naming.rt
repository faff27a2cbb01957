//! `globs ignore --git -v`: names the rule that decides about each path.
ghost use Rattle.std.specs.Prelude.{◌≡◌, ◌≤◌, ◌++◌, [], Option, Some, IfOk, OnOk, false, map, option_map, slice_index_or, string_bytes};
ghost use Rattle.glob_search.specs.Asking.{decision_of, origin_of};
ghost use Rattle.glob_text.specs.Text.{Text};
ghost use Rattle.globs.specs.ByGit.{GitRules, IsAround};
ghost use Rattle.globs.specs.Copying.{input_of};
ghost use Rattle.globs.specs.GitNaming.{NamesAround, decided_by_git, is_decided_by_git, named_by_git, place_by, place_from, text_at};
ghost use Rattle.globs.specs.Naming.{named_record};

use crate::copying::write_selected;
use crate::git::GIT;
use crate::ignore::around::Around;
use crate::ignore::naming::append_record;
use crate::ignore::paths::{Paths, is_directory};
use crate::ignore::places::{RuleFile, place_of};
use glob_console::ErrorLines;
use glob_lines::{Rewrite, Watch};
use glob_search::{DecidingRule, RuleList, RuleTexts};
use glob_tree::ListError;
use std::alloc::{AllocError, Allocator};
use std::io::{Read, Write};

/// What stands for the file of the rule that ignores each `.git`.
const OPTION: &str = "--git";

/// Writes the rule that decides about each path of the input, and returns the status.
pub fn name_around<A, X, R, W, E>(
    alloc: A,
    around: Around<X, A>,
    files: &[RuleFile<'_, '_, A>],
    end: u8,
    names: &[&str],
    input: &mut Watch<R>,
    output: &mut W,
    errors: &mut ErrorLines<'_, A, E>,
) -> u8
where
    A: Allocator + Copy,
    X: RuleTexts<Alloc = A>,
    R: Read,
    W: Write,
    E: Write,
    requires { input.old.failed ≡ false }
    ensures most { result ≤ 2 }
    ensures named { (r : GitRules) → IsAround X.texts r around
        → NamesAround r end files.now (input_of R.remaining input.old input.new)
        (W.contents output.old) (W.contents output.new) result }
{
    let mut naming = NamingByGit {
        alloc,
        around,
        files,
        end,
        paths: Paths::new(),
    };
    let status = write_selected(alloc, &mut naming, end, input, output, errors);
    let NamingByGit {
        mut around,
        paths,
        ..
    } = naming;
    let status = paths.report(status, names, errors);
    around.report(alloc, status, errors)
}

/// For each path that a rule decides about, gives the place of the rule, and the path.
#[derive(Drop)]
struct NamingByGit<'l, 'n, 't, X, A: Allocator> {
    alloc: A,
    around: Around<X, A>,
    files: &'l [RuleFile<'n, 't, A>],
    end: u8,
    paths: Paths,
}

impl<A: Allocator + Copy, X: RuleTexts<Alloc = A>> Rewrite for NamingByGit<'_, '_, '_, X, A> {
    ghost gives = { λ n selects write. (r : GitRules) × IsAround X.texts r n.around
        × (selects ≡ is_decided_by_git r) × (write ≡ named_by_git n.end n.files.now r) };

    fn rewrite<B: Allocator>(
        &mut self,
        bytes: &[u8],
        output: &mut Vec<u8, B>,
    ) -> Result<bool, AllocError> {
        match decided_by_git(&mut self.around, &self.paths, bytes)? {
            Some(deciding) => {
                append_decided(
                    self.alloc,
                    &mut self.around,
                    self.files,
                    &deciding,
                    self.end,
                    bytes,
                    output,
                )?;
                Ok(true)
            }
            None => Ok(false),
        }
    }
}

/// The rule that decides about the path of a record.
fn decided_by_git<A: Allocator + Copy, X: RuleTexts<Alloc = A>>(
    around: &mut Around<X, A>,
    paths: &Paths,
    bytes: &[u8],
) -> Result<Option<DecidingRule<A>>, AllocError>
    ensures keeps { (r : GitRules) → IsAround X.texts r around.old → IsAround X.texts r around.new }
    ensures decides { (r : GitRules) → IsAround X.texts r around.old
        → IfOk result (λ rule. option_map (λ d. decision_of d) rule ≡ decided_by_git r bytes.now) }
{
    match paths.read(bytes) {
        Some(path) => around.deciding_rule(path, is_directory(bytes)),
        None => Ok(None),
    }
}

/// Appends the record for a path that this rule decides about.
fn append_decided<A: Allocator + Copy, X: RuleTexts<Alloc = A>, B: Allocator>(
    alloc: A,
    around: &mut Around<X, A>,
    files: &[RuleFile<'_, '_, A>],
    deciding: &DecidingRule<A>,
    end: u8,
    path: &[u8],
    output: &mut Vec<u8, B>,
) -> Result<(), AllocError>
    ensures keeps { (r : GitRules) → IsAround X.texts r around.old → IsAround X.texts r around.new }
    ensures appended { (r : GitRules) → IsAround X.texts r around.old
        → OnOk result (output.new.items ≡ output.old.items
        ++ named_record end
        (place_by r files.now (origin_of deciding.now.list) deciding.now.rule.line) path.now) }
{
    let line = deciding.rule.line;
    match &deciding.list {
        RuleList::First(0) => {
            let file = RuleFile::new(alloc, OPTION, GIT)?;
            append_record(alloc, end, &file.place(line), path, output)
        }
        RuleList::First(_) => append_record(alloc, end, &place_of(files, line), path, output),
        RuleList::File(file) => {
            let file = file.as_str();
            append_from(alloc, &mut around.texts, file, line, end, path, output)
        }
        RuleList::Last(index) => {
            let file = name_at(around.above.as_slice(), *index);
            append_from(alloc, &mut around.texts, file, line, end, path, output)
        }
    }
}

/// The name at this index; empty if there is none.
fn name_at<A: Allocator>(names: &[String<A>], index: usize) -> &str
    ensures { result.now ≡ slice_index_or (map (λ n. string_bytes n) names.now) index [] }
{
    match names.get(index) {
        Some(name) => name.as_str(),
        None => "",
    }
}

/// Appends the record for a path and the rule on a line of the file at `file`.
fn append_from<A: Allocator + Copy, X: RuleTexts<Alloc = A>, B: Allocator>(
    alloc: A,
    texts: &mut X,
    file: &str,
    line: usize,
    end: u8,
    path: &[u8],
    output: &mut Vec<u8, B>,
) -> Result<(), AllocError>
    ensures kept { X.texts texts.new ≡ X.texts texts.old }
    ensures appended { (known : Text → Option Text) → X.texts texts.old ≡ Some known
        → OnOk result (output.new.items ≡ output.old.items
        ++ named_record end (place_from known file.now line) path.now) }
{
    let text = text_at(alloc, texts, file)?;
    let rules = RuleFile::new(alloc, file, text.as_str())?;
    append_record(alloc, end, &rules.place(line), path, output)
}

/// The text of the file at a path; empty if it cannot be read.
fn text_at<A: Allocator, X: RuleTexts<Alloc = A>>(
    alloc: A,
    texts: &mut X,
    path: &str,
) -> Result<String<A>, AllocError>
    ensures kept { X.texts texts.new ≡ X.texts texts.old }
    ensures text { (known : Text → Option Text) → X.texts texts.old ≡ Some known
        → IfOk result (λ text. string_bytes text ≡ text_at known path.now) }
{
    match texts.text(path) {
        Ok(Some(text)) => Ok(text),
        Ok(None) | Err(ListError::Read(_)) => Ok(String::new(alloc)),
        Err(ListError::Memory) => Err(AllocError),
    }
}
