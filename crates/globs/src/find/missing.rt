//! Lines about words of a search that name nothing, but part of a name. No clause speaks of them.
use crate::find::kinds::{PathKind, PathKinds};
use crate::find::leads::{place_at, split_lead};
use crate::find::names::{Wanted, least_name};
use crate::find::places::Places;
use crate::find::slips::is_dashed;
use crate::find::way::note_way;
use crate::input::is_help;
use crate::name::Name;
use crate::options::{Kinds, Options};
use crate::quoting::ShellWord;
use crate::usage::HelpWord;
use crate::visible::Visible;
use glob_console::ErrorLines;
use std::alloc::Allocator;
use std::fmt::{self, Display};
use std::io::Write;

/// The characters that are no part of a plain path: those of patterns here, and of regular expressions.
const SPECIAL: &str = "*?[]{}\\|^$()+!:'\"`";

/// A line about a word that names nothing.
#[derive(Clone, Copy)]
enum Missing<'a> {
    /// After this lead, this pattern matches a single path. Names that contain this text may have been meant.
    Name(&'a str, &'a str, &'a str),
    /// This word is only the beginning of a path, which consists of this directory and this name.
    Beginning(&'a str, &'a str, &'a str),
    /// This word has a colon, and this part of it is a path.
    Part(&'a str, &'a str),
    /// At this word is this kind of path, with this letter, which is not wanted.
    Kind(&'a str, &'static str, &'static str),
    /// This word is an option of Windows.
    Switch(&'a str),
    /// This word repeats the command.
    Command(&'a str),
}

impl Display for Missing<'_> {
    fn fmt<W: fmt::Write>(&self, f: &mut fmt::Formatter<W>) -> fmt::Result {
        match self {
            Missing::Name(lead, pattern, name) => {
                let (pattern, name) = (Visible { text: *pattern }, Visible { text: *name });
                write!(
                    f,
                    "`{lead}{pattern}` matches one path: '{lead}**/*{name}*' matches each name that contains {name}"
                )
            }
            Missing::Part(word, path) => {
                let (word, path) = (Visible { text: *word }, ShellWord { text: *path });
                write!(
                    f,
                    "`{word}` is not there, but {path} is: leave out the rest"
                )
            }
            Missing::Kind(word, kind, letter) => {
                let word = Visible { text: *word };
                write!(
                    f,
                    "`{word}` is a {kind}, which -t leaves out: use -t {letter}"
                )
            }
            Missing::Switch(word) => write!(
                f,
                "`{word}` was read as a path: options begin with -, and globs help find lists them"
            ),
            Missing::Command(word) => { write!(f, "`{word}` was read as a PATTERN: leave it out") }
            Missing::Beginning(word, directory, name) => {
                let (word, directory) = (Visible { text: *word }, Visible { text: *directory });
                let name = Visible { text: *name };
                write!(
                    f,
                    "`{word}` matches one path, which is not there: '{word}*' matches {directory}{name}"
                )
            }
        }
    }
}

/// Writes the lines about the first and the last word of a search, if they name nothing.
pub fn note_missing<P: Places, F: PathKinds, E: Write>(
    alloc: P::Alloc,
    places: &P,
    files: &F,
    options: &Options<'_, P::Alloc>,
    words: &[&str],
    patterns: &[&str],
    is_found: bool,
    errors: &mut ErrorLines<'_, P::Alloc, E>,
) {
    for word in words {
        if is_switch(word) && is_missing(alloc, files, options, word) {
            errors.write(&Missing::Switch(word));
            return;
        }
    }
    if let [_, .., last] = words {
        note_beginning(alloc, places, files, options, last, errors);
    }
    if is_found {
        return;
    }
    if let [first, _, ..] = words {
        if *first == "find" && is_missing(alloc, files, options, first) {
            errors.write(&Missing::Command(first));
            return;
        }
    }
    if is_help(words) {
        errors.write(&HelpWord { name: Name::Find });
        return;
    }
    if let [pattern, ..] = patterns {
        if note_part(alloc, files, options, pattern, errors)
            || note_kind(alloc, files, options, pattern, errors)
            || note_way(alloc, places, files, options, pattern, errors)
        {
            return;
        }
    }
    if let [word, ..] = words {
        let (_, below) = split_lead(word);
        if below.contains('/') {
            note_beginning(alloc, places, files, options, word, errors);
        }
    }
    if let [pattern, ..] = patterns {
        note_name(alloc, files, options, pattern, errors);
    }
}

/// Whether a word looks like an option of Windows: a `/`, and a letter or a `?`.
fn is_switch(word: &str) -> bool {
    match word.as_bytes() {
        [b'/', letter] => letter.is_ascii_alphabetic() || *letter == b'?',
        _ => false,
    }
}

/// Writes which kind of path a pattern names, if only other kinds are wanted, and returns whether it does.
fn note_kind<A: Allocator + Copy, F: PathKinds, E: Write>(
    alloc: A,
    files: &F,
    options: &Options<'_, A>,
    pattern: &str,
    errors: &mut ErrorLines<'_, A, E>,
) -> bool {
    let kinds = options.settings.kinds;
    if kinds == Kinds::new() || !is_plain(pattern) {
        return false;
    }
    match kind_at(alloc, files, options, pattern) {
        Some(PathKind::Directory) if !kinds.directories => {
            errors.write(&Missing::Kind(pattern, "directory", "d"));
        }
        Some(PathKind::File) if !kinds.files => {
            errors.write(&Missing::Kind(pattern, "regular file", "f"));
        }
        Some(PathKind::Link) if !kinds.links => {
            errors.write(&Missing::Kind(pattern, "symbolic link", "l"));
        }
        _ => return false,
    }
    true
}

/// Writes which part of a word is a path, and returns whether one is. The word has a colon, such as `a.c:12` or
/// `HEAD:a.c`, a `#`, or ends in a comma or white space, or begins like a path of a patch, such as `b/a.c`.
fn note_part<A: Allocator + Copy, F: PathKinds, E: Write>(
    alloc: A,
    files: &F,
    options: &Options<'_, A>,
    pattern: &str,
    errors: &mut ErrorLines<'_, A, E>,
) -> bool {
    let Some(part) = part_of(pattern) else {
        return false;
    };
    let is_path = is_plain(part)
        && !is_missing(alloc, files, options, part)
        && is_missing(alloc, files, options, pattern);
    if is_path {
        errors.write(&Missing::Part(pattern, part));
    }
    is_path
}

/// The part of a word that may be a path.
fn part_of(word: &str) -> Option<&str> {
    let bare = word.trim_end_matches([',', ';', ' ', '\t', '\r', '\n'].as_slice());
    if let Some((before, after)) = word.split_once(':') {
        let is_line = after.starts_with(|c: char| c.is_ascii_digit());
        return Some(if is_line { before } else { after });
    }
    if let Some((before, _)) = word.split_once('#') {
        return Some(before);
    }
    if bare.len() < word.len() {
        return Some(bare);
    }
    word.strip_prefix("a/").or(word.strip_prefix("b/"))
}

/// Writes how to find names that have a text in them, if a pattern is only a text, perhaps between `^` and `$` or white
/// space, and nothing has that name.
fn note_name<A: Allocator + Copy, F: PathKinds, E: Write>(
    alloc: A,
    files: &F,
    options: &Options<'_, A>,
    pattern: &str,
    errors: &mut ErrorLines<'_, A, E>,
) {
    let (lead, below) = split_lead(pattern);
    let name = below.strip_prefix('^').unwrap_or(below);
    let name = name.strip_suffix('$').unwrap_or(name).trim_ascii();
    let is_name = is_plain(name) && !name.contains('/');
    if is_name && is_missing(alloc, files, options, pattern) {
        errors.write(&Missing::Name(lead, below, name));
    }
}

/// Whether a text has only characters of plain paths.
pub fn is_plain(text: &str) -> bool {
    let is_special = |c: char| SPECIAL.contains(c);
    !text.is_empty() && !text.contains("..") && !is_dashed(text) && !text.chars().any(is_special)
}

/// Whether nothing is at a path from the directory of the options on.
fn is_missing<A: Allocator + Copy, F: PathKinds>(
    alloc: A,
    files: &F,
    options: &Options<'_, A>,
    path: &str,
) -> bool {
    kind_at(alloc, files, options, path).is_some_and(|kind| kind == PathKind::Other)
}

/// What is at a path from the directory of the options on; `None` if memory runs out. A symbolic link counts as what it
/// leads to, but a link to a directory as a link, unless the search follows links.
pub fn kind_at<A: Allocator + Copy, F: PathKinds>(
    alloc: A,
    files: &F,
    options: &Options<'_, A>,
    path: &str,
) -> Option<PathKind> {
    let path = place_at(alloc, options.directory, path).ok()?;
    let kind = files.kind(alloc, true, "", path.as_str()).ok()?;
    if kind == PathKind::Directory && !options.settings.follows {
        files.kind(alloc, false, "", path.as_str()).ok()
    } else {
        Some(kind)
    }
}

/// Writes what a word is the beginning of, if nothing is at its path.
fn note_beginning<P: Places, F: PathKinds, E: Write>(
    alloc: P::Alloc,
    places: &P,
    files: &F,
    options: &Options<'_, P::Alloc>,
    word: &str,
    errors: &mut ErrorLines<'_, P::Alloc, E>,
) {
    let (lead, below) = split_lead(word);
    let is_cased = options.settings.options.case_sensitive;
    if !is_cased || !is_plain(below) || !is_missing(alloc, files, options, word) {
        return;
    }
    let start = match below.rsplit_once('/') {
        Some((_, start)) => start,
        None => below,
    };
    let directory = word.strip_suffix(start).unwrap_or(lead);
    let Ok(path) = place_at(alloc, options.directory, directory) else {
        return;
    };
    if let Some(name) = least_name(alloc, places, path.as_str(), Wanted::Beginning(start)) {
        errors.write(&Missing::Beginning(word, directory, name.as_str()));
    }
}
