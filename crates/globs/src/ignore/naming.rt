//! `globs ignore -v`: names the rule that decides about each path of the input.
ghost use Rattle.std.specs.Prelude.{◌≡◌, ◌≤◌, ◌++◌, false, map, IfOk, OnOk};
ghost use Rattle.globs.specs.Copying.{input_of};
ghost use Rattle.globs.specs.Naming.{NamesList, NamesRules, between, deciding_of, field, is_decided, named_of, named_record};

use crate::copying::write_selected;
use crate::files::IgnoreFiles;
use crate::ignore::operands::report_rules;
use crate::ignore::paths::{Paths, is_directory, is_here};
use crate::ignore::places::{Place, RuleFile, place_of, rule_files};
use crate::ignoring::{list_of, read_sources};
use glob_console::ErrorLines;
use glob_lines::{Rewrite, Watch};
use glob_rules::{IgnoreList, Rule};
use std::alloc::{AllocError, Allocator};
use std::io::{Read, Write};

/// For each path of the input that a rule of the files decides about, writes the rule and the path. Returns the status.
/// The files are read, and refused, as in [`run_ignore`](crate::ignore::run_ignore).
///
/// With the input `"a.o\na.c\n"`, a file `list` with the rule `*.o` in line 1 writes `"list:1:*.o\ta.o\n"`.
pub fn name_rules<A: Allocator + Copy, F: IgnoreFiles, R: Read, W: Write, E: Write>(
    alloc: A,
    files: &F,
    end: u8,
    names: &[&str],
    input: &mut Watch<R>,
    output: &mut W,
    errors: &mut ErrorLines<'_, A, E>,
) -> u8
    requires { input.old.failed ≡ false }
    ensures most { result ≤ 2 }
    ensures named { NamesRules W.contents (F.holds files.now) end (map (λ w. w.now) names.now)
        (input_of R.remaining input.old input.new) output.old output.new result }
{
    let sources = match read_sources(alloc, files, names, &[]) {
        Ok(sources) => sources,
        Err(rules_fault) => return report_rules(rules_fault, errors),
    };
    let list = match list_of(alloc, sources.as_slice()) {
        Ok((_, list)) => list,
        Err(rules_fault) => return report_rules(rules_fault, errors),
    };
    match rule_files(alloc, names, sources.as_slice()) {
        Ok(files) => write_named(
            alloc,
            &list,
            files.as_slice(),
            names,
            end,
            input,
            output,
            errors,
        ),
        Err(_) => errors.memory_fault(),
    }
}

/// Writes the rule of the list that decides about each path of the input, and returns the status.
fn write_named<A: Allocator + Copy, R: Read, W: Write, E: Write>(
    alloc: A,
    list: &IgnoreList<A>,
    files: &[RuleFile<'_, '_, A>],
    names: &[&str],
    end: u8,
    input: &mut Watch<R>,
    output: &mut W,
    errors: &mut ErrorLines<'_, A, E>,
) -> u8
    requires { input.old.failed ≡ false }
    ensures most { result ≤ 2 }
    ensures named { NamesList end files.now list.now (input_of R.remaining input.old input.new)
        (W.contents output.old) (W.contents output.new) result }
{
    let mut naming = Naming {
        alloc,
        list,
        files,
        end,
        paths: Paths::new(),
    };
    let status = write_selected(alloc, &mut naming, end, input, output, errors);
    naming.paths.report(status, names, errors)
}

/// For each path that a rule of the list decides about, gives the place of the rule, and the path.
#[derive(Drop)]
struct Naming<'l, 'n, 't, A: Allocator> {
    alloc: A,
    list: &'l IgnoreList<A>,
    files: &'l [RuleFile<'n, 't, A>],
    end: u8,
    paths: Paths,
}

impl<A: Allocator + Copy> Naming<'_, '_, '_, A> {
    /// The rule that decides about the path of a record.
    fn deciding(&self, bytes: &[u8]) -> Result<Option<Rule>, AllocError>
        ensures { IfOk result (λ rule. rule ≡ deciding_of self.now.list.now bytes.now) }
    {
        match self.paths.read(bytes) {
            Some(path) if is_here(path) => Ok(None),
            Some(path) => self.list.deciding_rule(path, is_directory(bytes)),
            None => Ok(None),
        }
    }
}

impl<A: Allocator + Copy> Rewrite for Naming<'_, '_, '_, A> {
    ghost gives = { λ n selects write. (selects ≡ is_decided n.list.now)
        × (write ≡ named_of n.end n.files.now n.list.now) };

    fn rewrite<B: Allocator>(
        &mut self,
        bytes: &[u8],
        output: &mut Vec<u8, B>,
    ) -> Result<bool, AllocError> {
        match self.deciding(bytes)? {
            Some(rule) => {
                let place = place_of(self.files, rule.line);
                append_record(self.alloc, self.end, &place, bytes, output)?;
                Ok(true)
            }
            None => Ok(false),
        }
    }
}

/// Appends the record for a path: the place of a rule, and the path.
pub fn append_record<A: Allocator + Copy, B: Allocator>(
    alloc: A,
    end: u8,
    place: &Place<'_, '_>,
    path: &[u8],
    output: &mut Vec<u8, B>,
) -> Result<(), AllocError>
    ensures { OnOk result (output.new.items
        ≡ output.old.items ++ named_record end place.now path.now) }
{
    let (colon, tab) = (between(end, b':'), between(end, b'\t'));
    let line = format!(in alloc; "{}", place.line)?;
    append_field(output, place.file.as_bytes(), colon)?;
    append_field(output, line.as_bytes(), colon)?;
    append_field(output, place.rule, tab)?;
    append_field(output, path, end)
}

/// The byte between two parts of a record that ends in `end`: this byte, or a NUL if the record ends in a NUL.
fn between(end: u8, byte: u8) -> u8
    ensures { result ≡ between end byte }
{
    if end == 0 { 0 } else { byte }
}

/// Appends a text and the byte after it.
fn append_field<B: Allocator>(
    output: &mut Vec<u8, B>,
    text: &[u8],
    after: u8,
) -> Result<(), AllocError>
    ensures { OnOk result (output.new.items ≡ output.old.items ++ field text.now after) }
{
    output.extend_from_slice(text)?;
    output.push(after)?;
    Ok(())
}
