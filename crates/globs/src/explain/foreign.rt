//! What to write instead of a pattern with another tool's syntax: `[!a]` for `[^a]`, and `*.rs` for `.*\.rs$`.
mod bracket;
mod regex;

use bracket::add_bracket;
use regex::regex_form;
use std::alloc::{AllocError, Allocator};

/// The characters that have a meaning here, each with its escaped form.
static ESCAPED: &[(&str, &str)] = &[("*", "[*]"), ("?", "[?]"), ("[", "[[]"), ("]", "[]]")];

/// What might be written instead of a pattern with other tools' syntax: what it means as a regular expression, and what
/// it means in a shell. The list is empty if the pattern has no such syntax, or if its meaning is not certain.
///
/// For `[^a]` it is `[!a]`, and for `.*\.rs$` the first is `*.rs`.
pub fn native_forms<A: Allocator + Copy>(
    alloc: A,
    pattern: &str,
) -> Result<Vec<String<A>, A>, AllocError> {
    let mut forms = Vec::new(alloc);
    if let Some(form) = regex_form(alloc, pattern)? {
        forms.push(form)?;
    }
    if let Some(form) = shell_form(alloc, pattern)? {
        if form.as_str() != pattern {
            forms.push(form)?;
        }
    }
    Ok(forms)
}

/// The pattern that matches here what this pattern matches in a shell; `None` if that is not certain.
fn shell_form<A: Allocator>(alloc: A, pattern: &str) -> Result<Option<String<A>>, AllocError> {
    let mut made = String::new(alloc);
    let mut rest = pattern;
    // Each part has at least one byte, so this many rounds suffice. Any rounds left over add nothing.
    for _ in 0..pattern.len() {
        let Some(after) = add_native(&mut made, rest)? else {
            return Ok(None);
        };
        rest = after;
    }
    Ok(Some(made))
}

/// Adds the translation of the first part of a text, and returns what follows this part; `None` if its meaning is not
/// certain.
fn add_native<'a, A: Allocator>(
    made: &mut String<A>,
    text: &'a str,
) -> Result<Option<&'a str>, AllocError> {
    if let Some(after) = text.strip_prefix('[') {
        return add_bracket(made, after);
    }
    if let Some(after) = text.strip_prefix('\\') {
        return add_escaped(made, after);
    }
    add_first(made, text)
}

/// Adds the first character, if there is one, and returns the rest.
fn add_first<'a, A: Allocator>(
    made: &mut String<A>,
    text: &'a str,
) -> Result<Option<&'a str>, AllocError> {
    let mut characters = text.chars();
    if let Some(c) = characters.next() {
        made.push(c)?;
    }
    Ok(Some(characters.as_str()))
}

/// Finds the first entry of a table that the text begins with: its translation, and the rest of the text.
fn listed<'a>(table: &[(&str, &'static str)], text: &'a str) -> Option<(&'static str, &'a str)> {
    for (form, native) in table {
        if let Some(after) = text.strip_prefix(*form) {
            return Some((native, after));
        }
    }
    None
}

/// Adds the character that another tool escapes with a backslash: in a bracket if it has a meaning here. `None` before
/// an ASCII letter or digit, where a backslash has several meanings, and at the end of the text.
fn add_escaped<'a, A: Allocator>(
    made: &mut String<A>,
    text: &'a str,
) -> Result<Option<&'a str>, AllocError> {
    if let Some((native, after)) = listed(ESCAPED, text) {
        made.push_str(native)?;
        return Ok(Some(after));
    }
    match text.chars().next() {
        Some(c) if !c.is_ascii_alphanumeric() => add_first(made, text),
        _ => Ok(None),
    }
}
