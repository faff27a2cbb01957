//! Lines about what the words of a search were probably meant to say: forms of other tools, and words that were taken
//! for patterns. No clause is about these lines.
use crate::find::leads::split_lead;
use crate::find::rule_hints::note_rules;
use crate::find::slips::line::Slip;
use crate::find::slips::syntax::{backward, has_numbers};
use crate::find::slips::{note_shallow, note_slips};
use crate::forms::{FormLine, note_form};
use crate::options::Options;
use crate::visible::Visible;
use glob_captures::tokens;
use glob_console::{ErrorLines, UNFOUND};
use glob_pattern::Pattern;
use std::alloc::{AllocError, Allocator};
use std::fmt::{self, Display};
use std::io::Write;

/// What `^` and `$` are here.
const ANCHOR: &str =
    "is an ordinary character here, not an anchor: leave it out, as a pattern matches a whole path";

/// Beginnings of patterns that mean something in other tools, and what each means here.
static STARTS: &[(&str, &str)] = &[
    (":(", "is git's syntax, and means nothing here"),
    ("^", ANCHOR),
];

/// A line about some words of the command line.
#[derive(Clone, Copy)]
enum Hint<'a> {
    /// The braces of this word have no comma.
    Alone(&'a str),
    /// This pattern matches only paths with more names than this.
    Deep(&'a str, u64),
    /// This word is a number after `-d`.
    Dots(&'a str),
    /// A `$` inside a pattern.
    Variable,
}

impl Display for Hint<'_> {
    fn fmt<W: fmt::Write>(&self, f: &mut fmt::Formatter<W>) -> fmt::Result {
        match self {
            Hint::Alone(word) => {
                let word = Visible { text: *word };
                write!(
                    f,
                    "`{word}` has braces without a comma, which choose nothing: write {{a,b}} for a or b"
                )
            }
            Hint::Deep(pattern, depth) => {
                let pattern = Visible { text: *pattern };
                write!(
                    f,
                    "`{pattern}` matches only paths of more names than --max-depth {depth} allows: use a greater depth"
                )
            }
            Hint::Variable => f.write_str(
                "$ is an ordinary character here. A shell expands it except in single quotes",
            ),
            Hint::Dots(word) => write!(
                f,
                "`{word}` was read as a pattern, as -d has no value: use --max-depth {word}"
            ),
        }
    }
}

/// Writes the lines about the words of a search that has ended with 0 or 1. The patterns are the alternatives of the
/// words.
pub fn note_words<A: Allocator + Copy, E: Write>(
    alloc: A,
    options: &Options<'_, A>,
    words: &[&str],
    patterns: &[&str],
    status: u8,
    errors: &mut ErrorLines<'_, A, E>,
) {
    note_rules(alloc, options, patterns, status, errors);
    if let [first, _, ..] = words {
        if options.settings.options.require_literal_leading_dot && is_number(first) {
            errors.write(&Hint::Dots(first));
        }
    }
    let has_slip = note_slips(alloc, options, words, patterns, status, errors);
    if status != UNFOUND {
        if has_caret(alloc, patterns).unwrap_or(false) {
            errors.write(&CARET);
        }
        return;
    }
    if has_slip {
        return;
    }
    note_shallow(options, patterns, errors);
    for word in words {
        if has_numbers(word) {
            errors.write(&Slip::Numbers);
        } else if is_alone(word) {
            errors.write(&Hint::Alone(word));
        }
    }
    if let Some(depth) = options.settings.depth {
        note_deep(depth, patterns, errors);
    }
    for pattern in patterns {
        if let Some(bracket) = backward(pattern) {
            errors.write(&Slip::Range(bracket));
        }
    }
    if let [pattern] = patterns {
        note_start(pattern, errors);
        note_form(alloc, patterns, errors);
    } else if has_caret(alloc, patterns).unwrap_or(false) {
        errors.write(&CARET);
    }
}

/// The line about a bracket that another tool would read as negated.
const CARET: FormLine = FormLine {
    form: "[^",
    words: "lists a ^ here: write [!a] for any character except a",
};

/// For a search that found nothing by its only pattern: writes what the beginning of the pattern, or a `$` in it, means
/// here.
fn note_start<A: Allocator + Copy, E: Write>(pattern: &str, errors: &mut ErrorLines<'_, A, E>) {
    for (form, words) in STARTS {
        if pattern.starts_with(*form) {
            errors.write(&FormLine { form, words });
        }
    }
    if pattern.ends_with('$') {
        errors.write(&FormLine {
            form: "$",
            words: ANCHOR,
        });
    }
    if has_variable(pattern) {
        errors.write(&Hint::Variable);
    }
}

/// Whether a pattern has a `$` and a letter after its first character.
fn has_variable(pattern: &str) -> bool {
    match pattern.split_once('$') {
        Some((before, after)) => {
            !before.is_empty() && after.starts_with(|c: char| c.is_ascii_alphabetic())
        }
        None => false,
    }
}

/// Writes the line about the first pattern that matches only paths with more names than a search writes.
fn note_deep<A: Allocator + Copy, E: Write>(
    depth: u64,
    patterns: &[&str],
    errors: &mut ErrorLines<'_, A, E>,
) {
    for pattern in patterns {
        let (_, below) = split_lead(pattern);
        let mut names = 0u64;
        for component in below.split('/') {
            if component != "**" {
                names = names.saturating_add(1);
            }
        }
        if names > depth {
            errors.write(&Hint::Deep(pattern, depth));
            return;
        }
    }
}

/// Whether a text has braces with neither a comma nor two dots between them, and no `${` of a shell.
fn is_alone(text: &str) -> bool {
    match text.split_once('{') {
        Some((_, after)) => match after.split_once('}') {
            Some((inside, _)) => {
                !inside.contains(',') && !inside.contains("..") && !text.contains("${")
            }
            None => false,
        },
        None => false,
    }
}

/// Whether a text is a number.
fn is_number(text: &str) -> bool {
    !text.is_empty() && text.chars().all(|c| c.is_ascii_digit())
}

/// Whether a bracket of one of the patterns begins with `^`.
fn has_caret<A: Allocator + Copy>(alloc: A, patterns: &[&str]) -> Result<bool, AllocError> {
    for pattern in patterns {
        if pattern.contains("[^") && has_caret_token(alloc, pattern)? {
            return Ok(true);
        }
    }
    Ok(false)
}

/// Whether a token of a pattern begins with `[^`.
fn has_caret_token<A: Allocator + Copy>(alloc: A, pattern: &str) -> Result<bool, AllocError> {
    let Ok(parsed) = Pattern::new(alloc, pattern) else {
        return Ok(false);
    };
    for token in tokens(alloc, &parsed)?.as_slice() {
        let rest = pattern.get(token.piece.start..).unwrap_or("");
        if rest.starts_with("[^") {
            return Ok(true);
        }
    }
    Ok(false)
}
