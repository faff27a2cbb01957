//! Where the rules of ignore files are.
ghost use Rattle.std.specs.Prelude.{◌≡◌, IfOk, length, map};
ghost use Rattle.globs.specs.Ignoring.{texts_of};
ghost use Rattle.globs.specs.Naming.{file_of, files_of, lines_of, place_at, place_in};

use crate::ignoring::Source;
use glob_rules::kept_line;
use std::alloc::{AllocError, Allocator};
use std::marker::Model;

/// An ignore file: its name, and its lines.
#[derive(Drop)]
pub struct RuleFile<'n, 't, A: Allocator> {
    name: &'n str,
    lines: Vec<&'t str, A>,
}

impl<'n, 't, A: Allocator> Model for RuleFile<'n, 't, A> {
    ghost use Rattle.std.specs.Prelude.{map};
    ghost use Rattle.globs.specs.Naming.{File};

    ghost Value = { File };

    ghost view = { λ f. record { name = f.name.now; lines = map (λ l. l.now) f.lines.items } };
}

/// Where a rule is: its file, the number of its line there, counted from 1, and the rule as it is written.
#[derive(Drop)]
pub struct Place<'n, 't> {
    pub file: &'n str,
    pub line: usize,
    pub rule: &'t [u8],
}

impl<'n, 't> Model for Place<'n, 't> {
    ghost use Rattle.globs.specs.Naming.{Place as At};

    ghost Value = { At };

    ghost view = { λ p. record { file = p.file.now; line = p.line; rule = p.rule.now } };
}

/// The ignore files with these names. Their texts are in the sources.
pub fn rule_files<'n, 't, A: Allocator + Copy>(
    alloc: A,
    names: &[&'n str],
    sources: &'t [Source<'n, A>],
) -> Result<Vec<RuleFile<'n, 't, A>, A>, AllocError>
    ensures { IfOk result (λ files. files.items
        ≡ files_of (map (λ w. w.now) names.now) (texts_of sources.entry.now)) }
{
    let mut files = Vec::new(alloc);
    let mut rest = sources;
    for name in names {
        let [source, others @ ..] = rest else {
            return Ok(files);
        };
        files.push(RuleFile::new(alloc, *name, source.text())?)?;
        rest = others;
    }
    Ok(files)
}

impl<'n, 't, A: Allocator + Copy> RuleFile<'n, 't, A> {
    /// The file with this name and text.
    pub fn new(alloc: A, name: &'n str, text: &'t str) -> Result<Self, AllocError>
        ensures { IfOk result (λ file. file ≡ file_of name.now text.now) }
    {
        let lines = lines_of(alloc, text)?;
        Ok(RuleFile { name, lines })
    }
}

impl<'n, 't, A: Allocator> RuleFile<'n, 't, A> {
    /// How many lines the file has.
    fn count(&self) -> usize
        ensures { result ≡ length self.now.lines }
    {
        self.lines.len()
    }

    /// The place of the rule on the line with this number.
    pub fn place(&self, line: usize) -> Place<'n, 't>
        ensures { result ≡ place_at self.now line }
    {
        let text = match self.lines.get(line.saturating_sub(1)) {
            Some(text) => text.as_bytes(),
            None => &[],
        };
        Place {
            file: self.name,
            line,
            rule: kept_line(text),
        }
    }
}

/// The lines of a text.
fn lines_of<'t, A: Allocator + Copy>(alloc: A, text: &'t str) -> Result<Vec<&'t str, A>, AllocError>
    ensures { IfOk result (λ lines. map (λ l. l.now) lines.items ≡ lines_of text.now) }
{
    text.split('\n').collect(alloc)
}

/// The place of a rule whose line has this number among the lines of all files, one file after another.
pub fn place_of<'n, 't, A: Allocator>(files: &[RuleFile<'n, 't, A>], line: usize) -> Place<'n, 't>
    ensures { result ≡ place_in files.now line }
{
    let mut left = line;
    for file in files {
        let count = file.count();
        if left <= count {
            return file.place(left);
        }
        left -= count;
    }
    Place {
        file: "",
        line: left,
        rule: &[],
    }
}
