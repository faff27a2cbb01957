//! Hints of `globs match`, which `matching.rt` writes if its only pattern matched no line or a word is refused. No
//! clause says when; `tests/rows/match.txt` has the texts.
ghost use Rattle.std.specs.Prelude.{◌≡◌, ◌++◌, Some, codes};
ghost use Rattle.globs.specs.Faults.{quoted};
ghost use Rattle.globs.specs.Visible.{visible};

use crate::explain::foreign::native_forms;
use crate::find::astray::note_braces;
use crate::find::slips::line::Slip;
use crate::find::slips::syntax::{
    backward, has_numbers, is_blank_choice, is_foreign, is_marked, is_of_windows, is_repeated,
    is_upper, note_escaped, note_regex,
};
use crate::find::slips::{is_dashed, note_dash, note_valid, several, unquoted};
use crate::forms::note_form;
use crate::input::FirstRecord;
use crate::visible::Visible;
use glob_console::ErrorLines;
use glob_pattern::{MatchOptions, Pattern};
use std::alloc::Allocator;
use std::fmt::{self, Display};
use std::io::Write;

/// The characters that are special here or in another tool.
const SPECIAL: &str = "*?[]{}\\|^$()!~";

/// Writes what to write instead of the first refused word, if it has braces or a bracket that are not closed, or a `**`
/// that is not a whole component. Writes nothing if an earlier word has a `{`.
pub fn note_invalid<A: Allocator + Copy, E: Write>(
    alloc: A,
    options: MatchOptions,
    words: &[&str],
    errors: &mut ErrorLines<'_, A, E>,
) {
    for word in words {
        if note_braces(words, word, errors) {
            return;
        }
        if Pattern::new(alloc, word).is_err() {
            note_valid(alloc, options, word, errors);
            return;
        }
        if word.contains('{') {
            return;
        }
    }
}

/// Writes the line about a word that begins with a dash that is not `-`, if there are several words, about one with a
/// blank in its braces and, if nothing matched, about one with a range in its braces. Returns whether there is a line.
pub fn note_words<A: Allocator + Copy, E: Write>(
    words: &[&str],
    is_unfound: bool,
    errors: &mut ErrorLines<'_, A, E>,
) -> bool {
    let mut has_any = false;
    for word in words {
        if words.len() > 1 && is_dashed(word) {
            note_dash(word, errors);
            has_any = true;
        } else if is_blank_choice(word) {
            errors.write(&Slip::Blank(word));
            has_any = true;
        } else if is_unfound && has_numbers(word) {
            errors.write(&Slip::Numbers);
            has_any = true;
        }
    }
    has_any
}

/// If the only pattern matched no line, says why: the ends of the first line, quotes, several patterns in one word,
/// upper-case letters, syntax of another tool, or a pattern that is only part of a line.
pub fn note_unmatched<A: Allocator + Copy, E: Write>(
    alloc: A,
    is_cased: bool,
    first: &FirstRecord,
    patterns: &[&str],
    errors: &mut ErrorLines<'_, A, E>,
) {
    let [pattern] = patterns else {
        return;
    };
    if first.note_ends(pattern, errors) {
        return;
    }
    if let Some(bare) = unquoted(pattern) {
        errors.write(&Slip::Quoted(pattern, bare));
    } else if is_marked(pattern) {
        errors.write(&Slip::Marked(pattern));
    } else if let Some(between) = several(pattern) {
        errors.write(&Slip::Several(pattern, between));
    } else if is_repeated(pattern) {
        note_regex(alloc, "", pattern, errors);
    } else if is_of_windows(pattern) {
        errors.write(&Slip::Backslash(pattern));
    } else if is_cased && is_upper(pattern) {
        errors.write(&Slip::Upper(pattern));
    } else if let Some(bracket) = backward(pattern) {
        errors.write(&Slip::Range(bracket));
    } else if is_plain(pattern) {
        errors.write(&WholeLine { pattern });
    } else if !note_escaped(alloc, "", pattern, errors) && !note_anchor(alloc, pattern, errors) {
        note_form(alloc, patterns, errors);
    }
}

/// Writes what to write instead of a pattern that begins with `^` or ends in `$`, and returns whether it does.
fn note_anchor<A: Allocator + Copy, E: Write>(
    alloc: A,
    pattern: &str,
    errors: &mut ErrorLines<'_, A, E>,
) -> bool {
    if !(pattern.starts_with('^') || pattern.ends_with('$')) {
        return false;
    }
    if let Ok(forms) = native_forms(alloc, pattern) {
        match forms.as_slice() {
            [form, ..] if !is_foreign(form.as_str()) => {
                errors.write(&Slip::Anchored(form.as_str()));
            }
            _ => errors.write(
                &"^ and $ are ordinary characters here, not anchors: a pattern matches a whole line",
            ),
        }
    }
    true
}

/// Whether a pattern is only a text.
fn is_plain(pattern: &str) -> bool {
    !pattern.is_empty() && !pattern.chars().any(|c| SPECIAL.contains(c))
}

/// The line about a pattern that is only a text.
#[derive(Clone, Copy)]
struct WholeLine<'a> {
    pattern: &'a str,
}

impl Display for WholeLine<'_> {
    ghost output = { λ line. Some (quoted line.pattern.now
        ++ (codes " matches whole lines only: '*"
        ++ (visible line.pattern.now ++ codes "*' matches each line that contains it"))) };

    fn fmt<W: fmt::Write>(&self, f: &mut fmt::Formatter<W>) -> fmt::Result {
        let pattern = Visible { text: self.pattern };
        write!(
            f,
            "`{pattern}` matches whole lines only: '*{pattern}*' matches each line that contains it"
        )
    }
}
