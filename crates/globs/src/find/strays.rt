//! The lines about names that are not UTF-8, and about paths that could not be looked up.
ghost use Rattle.std.specs.Prelude.{◌≡◌, ◌++◌, Some, codes};
ghost use Rattle.std.specs.Fmt.{WritesOnOk};
ghost use Rattle.std.specs.List.{flat_map};
ghost use Rattle.globs.specs.Find.Strays.{byte_words, is_shown, stray_words};
ghost use Rattle.globs.specs.Visible.{visible};

use crate::PREFIX;
use crate::explain::hints::without_here;
use crate::visible::Visible;
use glob_console::write_line;
use glob_rules::IgnoreList;
use glob_tree::Strays;
use std::alloc::Allocator;
use std::cell::Cell;
use std::collections::BTreeSet;
use std::fmt::{self, Display};
use std::io::{self, Write};

/// Writes a line for each name that is not UTF-8, ignored or not, unless such names are skipped, and for each path that
/// could not be looked up and that the rules of the command line do not ignore. It notes that there was one. A path
/// gets one line, however often it is looked up, as long as there is memory to remember it. Tests, not clauses, show
/// this.
#[derive(Drop)]
pub struct StrayLines<'a, A: Allocator, E> {
    pub alloc: A,
    /// Whether names that are not UTF-8 are skipped.
    pub is_utf8_only: bool,
    /// The lead of the patterns, which comes before each path.
    pub lead: String<A>,
    pub errors: E,
    pub has_any: &'a Cell<bool>,
    /// The rules of the command line.
    pub rules: String<A>,
    pub reported: BTreeSet<String<A>, A>,
}

impl<A: Allocator + Copy, E: Write + Drop> Strays for StrayLines<'_, A, E> {
    fn stray(&mut self, directory: &str, name: &[u8]) {
        if self.is_utf8_only {
            return;
        }
        self.has_any.set(true);
        let line = StrayLine {
            lead: self.lead.as_str(),
            directory: after_lead(self.lead.as_str(), directory),
            name,
        };
        write_line(self.alloc, PREFIX, &line, &mut self.errors);
    }

    fn unsettled(&mut self, path: &str, error: &io::Error) {
        let path = without_here(path).unwrap_or(path);
        if !is_new(self.alloc, &mut self.reported, path)
            || is_ignored(self.alloc, self.rules.as_str(), path)
        {
            return;
        }
        self.has_any.set(true);
        let line = UnsettledLine {
            lead: self.lead.as_str(),
            path,
            error,
        };
        write_line(self.alloc, PREFIX, &line, &mut self.errors);
    }
}

/// A directory as it is written after a lead: without its `.` or `./` if there is a lead.
fn after_lead<'a>(lead: &str, directory: &'a str) -> &'a str {
    if lead.is_empty() {
        return directory;
    }
    match directory {
        "." => "",
        _ => without_here(directory).unwrap_or(directory),
    }
}

/// Whether the rules ignore the path, taken as a non-directory. False if memory runs out.
fn is_ignored<A: Allocator + Copy>(alloc: A, rules: &str, path: &str) -> bool {
    if rules.is_empty() {
        return false;
    }
    match IgnoreList::new(alloc, rules) {
        Ok(list) => list.is_ignored(path, false).unwrap_or(false),
        Err(_) => false,
    }
}

/// Whether the path is reported for the first time. True if memory runs out.
fn is_new<A: Allocator + Copy>(
    alloc: A,
    reported: &mut BTreeSet<String<A>, A>,
    path: &str,
) -> bool {
    match String::from_str(alloc, path) {
        Ok(path) => reported.insert(path).unwrap_or(true),
        Err(_) => true,
    }
}

/// The line about a path, with the reason why it could not be looked up or listed.
#[derive(Clone, Copy)]
pub struct UnsettledLine<'a> {
    pub lead: &'a str,
    pub path: &'a str,
    pub error: &'a io::Error,
}

impl Display for UnsettledLine<'_> {
    fn fmt<W: fmt::Write>(&self, f: &mut fmt::Formatter<W>) -> fmt::Result {
        write_path(f, self.lead, self.path)?;
        write!(f, "{}", self.error)
    }
}

/// Writes a path after its lead, with control characters made visible, and the separator before the reason.
fn write_path<W: fmt::Write>(f: &mut fmt::Formatter<W>, lead: &str, path: &str) -> fmt::Result
    ensures { WritesOnOk W.write_str_gives f.old result
        (lead.now ++ (visible path.now ++ codes ": ")) f.new }
{
    let path = Visible { text: path };
    write!(f, "{lead}{path}: ")
}

/// The line about a name. Bytes that are not printable ASCII are written as `\xff`, so that no escape sequence reaches
/// a terminal.
#[derive(Clone, Copy)]
struct StrayLine<'a> {
    lead: &'a str,
    directory: &'a str,
    name: &'a [u8],
}

impl Display for StrayLine<'_> {
    ghost output = { λ line. Some (stray_words line.lead.now line.directory.now line.name.now) };

    fn fmt<W: fmt::Write>(&self, f: &mut fmt::Formatter<W>) -> fmt::Result {
        let directory = Visible {
            text: self.directory,
        };
        let lead = self.lead;
        write!(f, "a name in `{lead}{directory}` is not UTF-8: ")?;
        write_name(f, self.name)
    }
}

/// Writes a name, byte by byte.
fn write_name<W: fmt::Write>(f: &mut fmt::Formatter<W>, name: &[u8]) -> fmt::Result
    ensures { WritesOnOk W.write_str_gives f.old result (flat_map byte_words name.now) f.new }
{
    for byte in name {
        write_byte(f, *byte)?;
    }
    Ok(())
}

/// Writes a byte of a name.
fn write_byte<W: fmt::Write>(f: &mut fmt::Formatter<W>, byte: u8) -> fmt::Result
    ensures { WritesOnOk W.write_str_gives f.old result (byte_words byte) f.new }
{
    if is_shown(byte) {
        f.write_char(char::from(byte))
    } else {
        write!(f, "\\x{:x}{:x}", byte / 16, byte % 16)
    }
}

/// Whether a byte of a name is written as it is: printable ASCII, except the space and the backslash.
fn is_shown(byte: u8) -> bool
    ensures { result ≡ is_shown byte }
{
    b'!' <= byte && byte <= b'~' && byte != b'\\'
}
