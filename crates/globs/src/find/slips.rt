//! Lines about slips in the words of a search: exclusions as in other tools, dashes and quotes as in printed texts,
//! several patterns in one word, and patterns that do not mean what they look like. No clause is about these lines.
pub mod line;
pub mod syntax;

use crate::braces::pattern_fault;
use crate::explain::instead::{is_accepted, valid_forms};
use crate::find::kinds::{PathKind, PathKinds};
use crate::find::leads::split_lead;
use crate::name::Name;
use crate::options::{Kinds, Options};
use crate::patterns::PatternFault;
use glob_console::{ErrorLines, UNFOUND};
use glob_pattern::{MatchOptions, Pattern};
use line::Slip;
use std::alloc::Allocator;
use std::io::Write;
use syntax::{is_blank_choice, is_marked, is_upper, magic_of, note_syntax};

/// Beginnings of words by which other tools exclude what follows.
static EXCLUDING: &[&str] = &[":(exclude)", ":!", ":^", "!"];

/// Names of programs that another tool would run after `-x`.
static PROGRAMS: &[&str] = &[
    "rm", "cat", "cp", "mv", "ls", "echo", "chmod", "chown", "grep", "rg", "sed", "awk", "wc",
    "head", "tail", "touch", "stat", "du", "vim", "vi", "less", "bash", "sh",
];

/// What separates patterns in other tools, and its name.
static BETWEEN: &[(char, &str)] = &[
    (' ', "a space"),
    (',', "a comma"),
    (';', "a semicolon"),
    ('|', "a |"),
];

/// Words of shells and other tools that join words.
static JOINTS: &[&str] = &[
    "|", ">", ">>", "<", "&&", "||", ";", ",", "+", "and", "or", "AND", "OR", "in",
];

/// Words that somebody may write before what is excluded.
static EXCEPT: &[&str] = &["not", "NOT", "except", "without"];

/// Characters that look like `-`.
const DASHES: &str = "\u{2010}\u{2011}\u{2012}\u{2013}\u{2014}\u{2015}\u{2212}";

/// Quotes, also the ones of printed texts.
const QUOTES: &str = "\"'“”‘’„«»";

/// Writes the lines about slips in the words of a search that has ended with 0 or 1, and returns whether there is one.
/// The patterns are the alternatives of the words.
pub fn note_slips<A: Allocator + Copy, E: Write>(
    alloc: A,
    options: &Options<'_, A>,
    words: &[&str],
    patterns: &[&str],
    status: u8,
    errors: &mut ErrorLines<'_, A, E>,
) -> bool {
    let is_unfound = status == UNFOUND;
    let mut has_any = note_kind(options.settings.kinds, words, errors);
    // If there is a single word, and it finds something, it is a name, whatever it begins with.
    if is_unfound || words.len() > 1 {
        for word in words {
            has_any = note_beginning(word, errors) || has_any;
        }
    }
    for word in words {
        if is_blank_choice(word) {
            errors.write(&Slip::Blank(word));
            has_any = true;
        }
    }
    if is_unfound {
        let is_cased = options.settings.options.case_sensitive;
        for pattern in patterns {
            has_any = has_any || note_pattern(alloc, is_cased, pattern, errors);
        }
    }
    has_any
}

/// Writes the line about a kind that was read as a pattern, as in `-t f d '*'`.
fn note_kind<A: Allocator + Copy, E: Write>(
    kinds: Kinds,
    words: &[&str],
    errors: &mut ErrorLines<'_, A, E>,
) -> bool {
    let [first, _, ..] = words else {
        return false;
    };
    let is_kind = matches!(*first, "f" | "d" | "l");
    if is_kind && kinds != Kinds::new() {
        errors.write(&Slip::Kind(first));
        return true;
    }
    false
}

/// Writes the line about a word that begins like an option, or like an exclusion of another tool.
fn note_beginning<A: Allocator + Copy, E: Write>(
    word: &str,
    errors: &mut ErrorLines<'_, A, E>,
) -> bool {
    if is_dashed(word) {
        note_dash(word, errors);
        return true;
    }
    match excluded(word) {
        Some(rule) => {
            errors.write(&Slip::Excluding(word, rule));
            true
        }
        None => false,
    }
}

/// Writes the line about a word that begins with a dash that is not `-`.
pub fn note_dash<A: Allocator + Copy, E: Write>(word: &str, errors: &mut ErrorLines<'_, A, E>) {
    let name = word.trim_start_matches(|c: char| DASHES.contains(c));
    errors.write(&Slip::Dash(word, name));
}

/// Whether a word begins with a character that looks like `-`.
pub fn is_dashed(word: &str) -> bool {
    word.chars().next().is_some_and(|c| DASHES.contains(c))
}

/// What follows the `!` of a word such as `!a`, by which another tool excludes `a`; `RULE` if nothing follows. Other
/// beginnings are in [`EXCLUDING`]. A group of bash, as in `!(a)`, excludes nothing.
fn excluded(word: &str) -> Option<&str> {
    if word.starts_with("!(") {
        return None;
    }
    for beginning in EXCLUDING {
        if let Some(rule) = word.strip_prefix(*beginning) {
            return Some(if rule.is_empty() { "RULE" } else { rule });
        }
    }
    None
}

/// Writes the line about a pattern of a search that found nothing, if it does not mean what it looks like.
fn note_pattern<A: Allocator + Copy, E: Write>(
    alloc: A,
    is_cased: bool,
    pattern: &str,
    errors: &mut ErrorLines<'_, A, E>,
) -> bool {
    if let Some(bare) = unquoted(pattern) {
        errors.write(&Slip::Quoted(pattern, bare));
    } else if is_marked(pattern) {
        errors.write(&Slip::Marked(pattern));
    } else if let Some(between) = several(pattern) {
        errors.write(&Slip::Several(pattern, between));
    } else if note_syntax(alloc, pattern, errors) {
        return true;
    } else if is_cased && is_upper(pattern) {
        errors.write(&Slip::Upper(pattern));
    } else {
        return false;
    }
    true
}

/// What is between the quotes around a text, if there are any.
pub fn unquoted(text: &str) -> Option<&str> {
    let inner = text.trim_start_matches(|c: char| QUOTES.contains(c));
    let bare = inner.trim_end_matches(|c: char| QUOTES.contains(c));
    let has_both = inner.len() < text.len() && bare.len() < inner.len();
    if has_both && !bare.is_empty() {
        Some(bare)
    } else {
        None
    }
}

/// What separates the patterns in a word: it has wildcards before and after it.
pub fn several(word: &str) -> Option<&'static str> {
    for (mark, between) in BETWEEN {
        if let Some((before, after)) = word.split_once(*mark) {
            if before.contains('*') && after.contains('*') {
                return Some(between);
            }
        }
    }
    None
}

/// Writes what to write instead of the first refused word, if it has git's syntax, a `**` that is not a whole
/// component, a `[` that is not closed, or a `/` in a bracket.
pub fn note_refused<A: Allocator + Copy, E: Write>(
    alloc: A,
    words: &[&str],
    errors: &mut ErrorLines<'_, A, E>,
) {
    let options = MatchOptions {
        require_literal_separator: true,
        ..MatchOptions::new()
    };
    for word in words {
        let fault = pattern_fault(alloc, Name::Find, word);
        if fault.is_none() && !word.contains('{') {
            continue;
        }
        match (magic_of(word), fault) {
            (Some((magic, path)), _) => errors.write(&Slip::Magic(magic, path)),
            (None, Some(PatternFault::Syntax(_, _))) => note_valid(alloc, options, word, errors),
            (None, Some(PatternFault::Parted(_, _))) => {
                errors.write(
                    &"write the / outside the bracket, or leave it out: a bracket is one character of a name",
                );
            }
            (None, _) => {}
        }
        return;
    }
}

/// Writes the pattern made from a refused one under these options, if it is accepted and has no braces.
pub fn note_valid<A: Allocator + Copy, E: Write>(
    alloc: A,
    options: MatchOptions,
    word: &str,
    errors: &mut ErrorLines<'_, A, E>,
) {
    if word.contains('{') {
        errors.write(&"write [[] for the character [, and ** as a whole component");
        return;
    }
    let Ok(forms) = valid_forms(alloc, word, options) else {
        return;
    };
    if let [form, ..] = forms.as_slice() {
        let is_valid = is_accepted(alloc, form.as_str()).unwrap_or(false);
        if let Some(between) = several(word) {
            errors.write(&Slip::Several(word, between));
        } else if word.contains("**") && is_valid {
            errors.write(&Slip::Instead(form.as_str()));
        } else if is_valid {
            errors.write(&Slip::Unclosed(form.as_str()));
        }
    }
}

/// Writes how to search below the start, if nothing was found and a pattern matches only names directly in the start:
/// it has wildcards, and nothing else that might be the reason.
pub fn note_shallow<A: Allocator + Copy, E: Write>(
    options: &Options<'_, A>,
    patterns: &[&str],
    errors: &mut ErrorLines<'_, A, E>,
) {
    if options.settings.depth.is_some() {
        return;
    }
    for pattern in patterns {
        let (lead, below) = split_lead(pattern);
        if is_shallow(below) && lead != "/" {
            errors.write(&Slip::Shallow(lead, below));
            return;
        }
    }
}

/// Whether a pattern is a single component such as `*.rs`: with `*` or `?`, and without `**`, brackets or syntax of
/// another tool.
fn is_shallow(pattern: &str) -> bool {
    let is_plain = !pattern.contains(['/', '[', ']', '\\', '|', '(', '$', '^', '\''].as_slice());
    is_plain
        && pattern.contains(['*', '?'].as_slice())
        && !pattern.contains("**")
        && !pattern.starts_with('~')
}

/// Writes the lines about words that name an entry of the disk, but match something else, and about rules with several
/// names.
pub fn note_names<A: Allocator + Copy, F: PathKinds, E: Write>(
    alloc: A,
    files: &F,
    options: &Options<'_, A>,
    patterns: &[&str],
    errors: &mut ErrorLines<'_, A, E>,
) {
    let directory = options.directory;
    for pattern in patterns {
        let is_other = pattern.contains('[') && !matches_itself(alloc, pattern);
        if is_other && is_there(alloc, files, directory, pattern) {
            errors.write(&Slip::Unmatched(pattern));
        }
    }
    if let [_, between @ .., _] = patterns {
        for word in between {
            if JOINTS.contains(word) && !is_there(alloc, files, directory, word) {
                errors.write(&Slip::Joint(word));
            } else if EXCEPT.contains(word) && !is_there(alloc, files, directory, word) {
                errors.write(&Slip::Excluding(word, "RULE"));
            }
        }
    }
    for rule in options.rules.as_slice() {
        if let Some(between) = joined(alloc, files, directory, rule) {
            errors.write(&Slip::Joined(rule, between));
        }
        if is_absolute(alloc, files, directory, rule, patterns) {
            errors.write(&Slip::Absolute(rule));
        }
        if PROGRAMS.contains(rule) && !is_there(alloc, files, directory, rule) {
            errors.write(&Slip::Program(rule));
        }
    }
}

/// Whether a text, read as a pattern, matches itself.
fn matches_itself<A: Allocator + Copy>(alloc: A, text: &str) -> bool {
    match Pattern::new(alloc, text) {
        Ok(pattern) => pattern.matches(text).unwrap_or(false),
        Err(_) => false,
    }
}

/// Whether there is a file, a directory or a link at a path from a directory on.
fn is_there<A: Allocator + Copy, F: PathKinds>(
    alloc: A,
    files: &F,
    directory: &str,
    path: &str,
) -> bool {
    let kind = files.kind(alloc, false, directory, path);
    kind.is_ok_and(|kind| kind != PathKind::Other)
}

/// Whether a rule is the path of something from the root on, although all patterns are searched for from elsewhere.
fn is_absolute<A: Allocator + Copy, F: PathKinds>(
    alloc: A,
    files: &F,
    directory: &str,
    rule: &str,
    patterns: &[&str],
) -> bool {
    let Some(path) = rule.strip_prefix('/') else {
        return false;
    };
    path.contains('/')
        && !patterns.iter().any(|pattern| pattern.starts_with('/'))
        && is_there(alloc, files, directory, rule)
        && !is_there(alloc, files, directory, path)
}

/// What separates the names in a rule, if the first name exists and what the whole rule names does not.
fn joined<A: Allocator + Copy, F: PathKinds>(
    alloc: A,
    files: &F,
    directory: &str,
    rule: &str,
) -> Option<&'static str> {
    for (mark, between) in [
        (',', "a comma"),
        (' ', "a space"),
        (';', "a semicolon"),
        (':', "a colon"),
    ]
    .as_slice()
    {
        if let Some((first, rest)) = rule.split_once(*mark) {
            let has_several = !first.is_empty() && !rest.is_empty();
            if has_several
                && is_there(alloc, files, directory, first)
                && !is_there(alloc, files, directory, rule)
            {
                return Some(*between);
            }
        }
    }
    None
}
