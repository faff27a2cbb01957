//! What is easily missed in a pattern and a text that do not match: syntax of other tools that means nothing here,
//! brackets that list nothing, and white space at the end.
use crate::explain::instead::is_match;
use crate::explain::rows::{add_row, part_of};
use glob_captures::{TokenKind, Written, tokens};
use glob_pattern::{MatchOptions, Pattern};
use std::alloc::{AllocError, Allocator};

/// What a parenthesis means here.
const GROUPLESS: &str =
    "opens a group in bash. Here ( is an ordinary character: write {a,b} for a or b";

/// Syntax of shells and other tools, and what each means here.
static FORMS: &[(&str, &str)] = &[
    ("|", "is an ordinary character here: write {a,b} for a or b"),
    (
        "\\",
        "is an ordinary character here, and escapes nothing: write [*] for a literal *",
    ),
    (
        "[^",
        "lists a ^ here: write [!a] for any character except a",
    ),
    ("[[:", "is not a class here: write [0-9] for a digit"),
    ("+(", GROUPLESS),
    ("@(", GROUPLESS),
    ("*(", GROUPLESS),
    ("?(", GROUPLESS),
    (
        "!(",
        "opens a group in bash. Here ( is an ordinary character: use match -v or find -x",
    ),
];

/// The same for syntax that other tools know only at the start of a pattern.
static STARTS: &[(&str, &str)] = &[
    (
        "~/",
        "is not the home directory here. A shell expands it if it is not quoted",
    ),
    (
        "$",
        "is an ordinary character here. A shell expands $HOME except in single quotes: use double quotes",
    ),
    (
        "`",
        "is an ordinary character here. A shell runs `pwd` except in single quotes: use double quotes",
    ),
    ("(?i)", "means nothing here: use -i for both cases"),
    ("\"", "is part of the pattern here: leave out the quotes"),
    ("'", "is part of the pattern here: leave out the quotes"),
    (
        "!",
        "is an ordinary character here, and negates nothing: use match -v or find -x",
    ),
];

/// White space characters and their names.
static BLANKS: &[(char, &str)] = &[
    (' ', "a blank"),
    ('\t', "a tab"),
    ('\r', "a carriage return"),
    ('\n', "a line feed"),
];

/// Adds a line for each piece of another tool's syntax in the pattern, whose tokens are in `written`. It looks only
/// where a token begins, so not among the characters that a bracket lists.
///
/// For `!a|b` there is a line for `!` and one for `|`.
pub fn add_forms<A: Allocator>(
    lines: &mut String<A>,
    pattern: &str,
    written: &[Written],
) -> Result<(), AllocError> {
    for (form, words) in STARTS {
        if pattern.starts_with(*form) {
            add_row(lines, form, words)?;
        }
    }
    for (form, words) in FORMS {
        if is_among(pattern, written, form) {
            add_row(lines, form, words)?;
        }
    }
    Ok(())
}

/// Adds a line for each bracket that lists no character, such as `[z-a]`.
pub fn add_vain_brackets<A: Allocator + Copy>(
    alloc: A,
    lines: &mut String<A>,
    pattern: &str,
    tokens: &[Written],
    case_sensitive: bool,
) -> Result<(), AllocError> {
    for token in tokens {
        let written = part_of(pattern, token.piece);
        if token.kind == TokenKind::OneOf && lists_none(alloc, written, case_sensitive)? {
            add_row(
                lines,
                written,
                "matches no character: its range goes backwards",
            )?;
        }
    }
    Ok(())
}

/// Whether a bracket lists no character. If it lists any, it lists one of the characters written in it.
fn lists_none<A: Allocator + Copy>(
    alloc: A,
    bracket: &str,
    case_sensitive: bool,
) -> Result<bool, AllocError> {
    let options = MatchOptions {
        case_sensitive,
        ..MatchOptions::new()
    };
    let listed = bracket.strip_prefix('[').unwrap_or(bracket);
    for c in listed.strip_suffix(']').unwrap_or(listed).chars() {
        let text = format!(in alloc; "{c}")?;
        if is_match(alloc, bracket, text.as_str(), options)? {
            return Ok(false);
        }
    }
    Ok(true)
}

/// The first piece of such syntax in a pattern whose braces are expanded, and what it means here.
///
/// For `!a|b` it is `!`, which negates nothing here.
pub fn first_form<A: Allocator + Copy>(
    alloc: A,
    pattern: &str,
) -> Result<Option<(&'static str, &'static str)>, AllocError> {
    for (form, words) in STARTS {
        if pattern.starts_with(*form) {
            return Ok(Some((form, words)));
        }
    }
    let Ok(parsed) = Pattern::new(alloc, pattern) else {
        return Ok(None);
    };
    let list = tokens(alloc, &parsed)?;
    for (form, words) in FORMS {
        if is_among(pattern, list.as_slice(), form) {
            return Ok(Some((form, words)));
        }
    }
    Ok(None)
}

/// Whether the form begins at a token of the pattern.
fn is_among(pattern: &str, written: &[Written], form: &str) -> bool {
    written.iter().any(|token| begins_at(*token, pattern, form))
}

/// Whether the pattern has the form where the token begins.
fn begins_at(token: Written, pattern: &str, form: &str) -> bool {
    pattern
        .get(token.piece.start..)
        .is_some_and(|rest| rest.starts_with(form))
}

/// Adds a line if the text ends in white space. `name` is what the line calls the text.
pub fn add_blank_end<A: Allocator>(
    lines: &mut String<A>,
    name: &str,
    text: &str,
) -> Result<(), AllocError> {
    for (blank, words) in BLANKS {
        if text.ends_with(*blank) {
            writeln!(lines, "the {name} ends in {words}")?;
        }
    }
    Ok(())
}
