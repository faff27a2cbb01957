//! Translates regular expressions.
use super::{add_bracket, add_escaped, add_first, listed};
use std::alloc::{AllocError, Allocator};

/// Forms that rarely occur outside regular expressions.
static SIGNS: &[&str] = &["\\.", ".+", "\\d", "\\w"];

/// Parts of regular expressions, and what replaces them. If two fit, the first is taken.
static PARTS: &[(&str, &str)] = &[
    (".*", "*"),
    (".+", "?*"),
    (".", "?"),
    ("\\d", "[0-9]"),
    ("\\w", "[a-zA-Z0-9_]"),
];

/// Characters whose meaning in a regular expression patterns cannot express, and `^` and `$` anywhere but at its ends.
static LACKED: &[char] = &['*', '+', '?', '(', ')', '|', '{', '}', '^', '$'];

/// The pattern that matches the texts in which a regular expression is found; `None` if the text does not look like a
/// regular expression, or has a part that patterns lack.
///
/// For `.*\.rs$` it is `*.rs`, and for `^a.b` it is `a?b*`.
pub fn regex_form<A: Allocator>(alloc: A, text: &str) -> Result<Option<String<A>>, AllocError> {
    let after_start = text.strip_prefix('^');
    let body = after_start.unwrap_or(text);
    let before_end = body.strip_suffix('$');
    let is_anchored = after_start.is_some() || before_end.is_some();
    if !is_anchored && !SIGNS.iter().any(|sign| text.contains(*sign)) {
        return Ok(None);
    }
    let mut made = String::new(alloc);
    if after_start.is_none() {
        made.push('*')?;
    }
    let mut rest = before_end.unwrap_or(body);
    // Each part has at least one byte, so this many rounds suffice. Any rounds left over add nothing.
    for _ in 0..text.len() {
        let Some(after) = add_part(&mut made, rest)? else {
            return Ok(None);
        };
        rest = after;
    }
    if before_end.is_none() {
        add_star(&mut made)?;
    }
    Ok(Some(made))
}

/// Adds the translation of the first part of a regular expression, and returns what follows it. `None` if patterns lack
/// it.
fn add_part<'a, A: Allocator>(
    made: &mut String<A>,
    text: &'a str,
) -> Result<Option<&'a str>, AllocError> {
    if let Some((native, after)) = listed(PARTS, text) {
        if native == "*" {
            add_star(made)?;
        } else {
            made.push_str(native)?;
        }
        return Ok(Some(after));
    }
    if let Some(after) = text.strip_prefix('[') {
        return add_bracket(made, after);
    }
    if let Some(after) = text.strip_prefix('\\') {
        return add_escaped(made, after);
    }
    if text.starts_with(LACKED) {
        return Ok(None);
    }
    add_first(made, text)
}

/// Adds a `*`, unless there is one at the end.
fn add_star<A: Allocator>(made: &mut String<A>) -> Result<(), AllocError> {
    if made.as_str().ends_with('*') {
        return Ok(());
    }
    made.push('*')
}
