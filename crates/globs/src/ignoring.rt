//! Makes an ignore list from files and single rules, for `find` (`--ignore`, `-x`) and `ignore` (FILE).
ghost use Rattle.std.specs.Prelude.{◌≡◌, ◌++◌, List, IfOk, IfErr, OnOk, map, string_bytes};
ghost use Rattle.glob_lines.specs.Lines.{line_feed, with_ends};
ghost use Rattle.glob_rules.specs.Lists.{AreTaken, RefusesText, rules_of};
ghost use Rattle.glob_text.specs.Text.{Text};
ghost use Rattle.globs.specs.Faults.{rules_words};
ghost use Rattle.globs.specs.Ignoring.{AreRead, HasRules, IsRead, IsReadFault, IsUnmarked, texts_of};

use crate::files::IgnoreFiles;
use crate::visible::Visible;
use glob_rules::{IgnoreList, Reason, RuleRefusal};
use std::alloc::{AllocError, AllocFailed, Allocator};
use std::fmt::{self, Display};
use std::io::{self, ErrorKind};

/// Where rules come from.
#[derive(Clone, Copy)]
enum Origin<'a> {
    /// The file with this name.
    File(&'a str),
    /// This value of `-x`.
    Rule(&'a str),
}

/// A text of rules, and where it comes from.
#[derive(Drop)]
pub struct Source<'a, A: Allocator> {
    origin: Origin<'a>,
    text: String<A>,
}

impl<A: Allocator> Source<'_, A> {
    /// The text.
    pub fn text(&self) -> &str
        ensures { result.now ≡ string_bytes self.now.text }
    {
        self.text.as_str()
    }
}

/// Why an ignore list could not be made. It prints as a line, without the program's name.
#[derive(Drop)]
pub enum RulesFault<'a> {
    /// The file is not UTF-8.
    NoText(&'a str),
    /// The file could not be read, for this reason.
    Unread(&'a str, io::Error),
    /// In the file with this name, the line with this number, counted from 1, is refused for this reason.
    Refused(&'a str, usize, Reason),
    /// This value of `-x` is refused for this reason.
    Rule(&'a str, Reason),
    /// Out of memory: an allocation failed.
    Memory,
}

impl<'a> RulesFault<'a> {
    /// The fault for an error of reading the file.
    pub fn unread(file: &'a str, error: io::Error) -> Self
        ensures { IsReadFault file.now error result }
    {
        match error.kind() {
            ErrorKind::OutOfMemory => RulesFault::Memory,
            ErrorKind::InvalidData => RulesFault::NoText(file),
            _ => RulesFault::Unread(file, error),
        }
    }
}

impl From<AllocError> for RulesFault<'_> {
    fn from(_error: AllocError) -> Self {
        RulesFault::Memory
    }
}

impl<T: Drop> From<AllocFailed<T>> for RulesFault<'_> {
    fn from(_error: AllocFailed<T>) -> Self {
        RulesFault::Memory
    }
}

impl Display for RulesFault<'_> {
    ghost output = { λ fault. rules_words fault };

    fn fmt<W: fmt::Write>(&self, f: &mut fmt::Formatter<W>) -> fmt::Result {
        match self {
            RulesFault::NoText(file) => {
                let file = Visible { text: *file };
                write!(f, "{file}: the file is not UTF-8")
            }
            RulesFault::Unread(file, error) => {
                let file = Visible { text: *file };
                write!(f, "{file}: {error}")
            }
            RulesFault::Refused(file, line, reason) => {
                let file = Visible { text: *file };
                write!(f, "{file}: line {line}: {reason}")
            }
            RulesFault::Rule(rule, reason) => {
                let rule = Visible { text: *rule };
                write!(f, "-x `{rule}`: {reason}")
            }
            RulesFault::Memory => f.write_str("out of memory"),
        }
    }
}

/// Reads the rules of the files and then the single rules. Returns their text and their list. A byte order mark at the
/// start of a file is skipped.
pub fn read_rules<'a, A: Allocator + Copy, F: IgnoreFiles>(
    alloc: A,
    files: &F,
    names: &[&'a str],
    rules: &[&'a str],
) -> Result<(String<A>, IgnoreList<A>), RulesFault<'a>>
    ensures rules { IfOk result (λ read.
        HasRules (F.holds files.now) (map (λ w. w.now) names.now) (map (λ w. w.now) rules.now)
        read.1) }
    ensures text { IfOk result (λ read. read.1 ≡ rules_of (string_bytes read.0)) }
{
    let sources = read_sources(alloc, files, names, rules)?;
    list_of(alloc, sources.as_slice())
}

/// Reads the texts of the files, each without a byte order mark, and adds the single rules.
pub fn read_sources<'a, A: Allocator + Copy, F: IgnoreFiles>(
    alloc: A,
    files: &F,
    names: &[&'a str],
    rules: &[&'a str],
) -> Result<Vec<Source<'a, A>, A>, RulesFault<'a>>
    ensures { IfOk result (λ sources. (texts : List Text)
        × AreRead (F.holds files.now) (map (λ w. w.now) names.now) texts
        × (texts_of sources.items ≡ texts ++ map (λ w. w.now) rules.now)) }
{
    let mut sources = Vec::new(alloc);
    add_files(alloc, files, names, &mut sources)?;
    add_rules(alloc, rules, &mut sources)?;
    Ok(sources)
}

/// The text of all sources, one after another, and its list.
pub fn list_of<'a, A: Allocator + Copy>(
    alloc: A,
    sources: &[Source<'a, A>],
) -> Result<(String<A>, IgnoreList<A>), RulesFault<'a>>
    ensures rules { let text = with_ends line_feed (texts_of sources.now) in
        IfOk result (λ read. AreTaken text × (read.1 ≡ rules_of text)) }
    ensures text { IfOk result (λ read. read.1 ≡ rules_of (string_bytes read.0)) }
{
    let text = joined(alloc, sources)?;
    match IgnoreList::new(alloc, text.as_str()) {
        Ok(list) => Ok((text, list)),
        Err(RuleRefusal::Memory) => Err(RulesFault::Memory),
        Err(RuleRefusal::Line(line, reason)) => Err(refusal_of(sources, line, reason)),
    }
}

/// Adds the texts of the files.
fn add_files<'a, A: Allocator + Copy, F: IgnoreFiles>(
    alloc: A,
    files: &F,
    names: &[&'a str],
    sources: &mut Vec<Source<'a, A>, A>,
) -> Result<(), RulesFault<'a>>
    ensures { OnOk result ((texts : List Text)
        × AreRead (F.holds files.now) (map (λ w. w.now) names.now) texts
        × (texts_of sources.new.items ≡ texts_of sources.old.items ++ texts)) }
{
    for name in names {
        let text = text_of_file(alloc, files, name)?;
        let origin = Origin::File(*name);
        sources.push(Source { origin, text })?;
    }
    Ok(())
}

/// Adds the single rules.
fn add_rules<'a, A: Allocator + Copy>(
    alloc: A,
    rules: &[&'a str],
    sources: &mut Vec<Source<'a, A>, A>,
) -> Result<(), RulesFault<'a>>
    ensures { OnOk result (texts_of sources.new.items
        ≡ texts_of sources.old.items ++ map (λ w. w.now) rules.now) }
{
    for rule in rules {
        let text = String::from_str(alloc, rule)?;
        let origin = Origin::Rule(*rule);
        sources.push(Source { origin, text })?;
    }
    Ok(())
}

/// The text of an ignore file, without a byte order mark.
fn text_of_file<'a, A: Allocator + Copy, F: IgnoreFiles>(
    alloc: A,
    files: &F,
    file: &'a str,
) -> Result<String<A>, RulesFault<'a>>
    ensures { IfOk result (λ text. IsRead (F.holds files.now file.now) (string_bytes text)) }
{
    match files.read(alloc, file) {
        Ok(text) => Ok(String::from_str(alloc, unmarked(text.as_str()))?),
        Err(error) => Err(RulesFault::unread(file, error)),
    }
}

/// The text without a byte order mark at its start.
pub fn unmarked(text: &str) -> &str
    ensures { IsUnmarked text.now result.now }
{
    match text.strip_prefix('\u{feff}') {
        Some(rest) => rest,
        None => text,
    }
}

/// The texts of the sources, each with a line feed at its end.
fn joined<A: Allocator + Copy>(alloc: A, sources: &[Source<'_, A>]) -> Result<String<A>, AllocError>
    ensures { IfOk result (λ text. string_bytes text
        ≡ with_ends line_feed (texts_of sources.now)) }
{
    let mut text = String::new(alloc);
    for source in sources {
        text.push_str(source.text.as_str())?;
        text.push('\n')?;
    }
    Ok(text)
}

/// The fault for a refused line, whose number counts the lines of all sources.
fn refusal_of<'a, A: Allocator>(
    sources: &[Source<'a, A>],
    line: usize,
    reason: Reason,
) -> RulesFault<'a> {
    let mut left = line;
    for source in sources {
        let lines = line_count(source.text.as_str());
        if left <= lines {
            return match source.origin {
                Origin::File(name) => RulesFault::Refused(name, left, reason),
                Origin::Rule(rule) => RulesFault::Rule(rule, reason),
            };
        }
        left -= lines;
    }
    RulesFault::Refused("", left, reason)
}

/// How many lines a text has. What follows its last line feed is a line, too, even if it is empty.
fn line_count(text: &str) -> usize {
    let mut count = 1usize;
    for byte in text.bytes() {
        if byte == b'\n' {
            count = count.saturating_add(1);
        }
    }
    count
}
