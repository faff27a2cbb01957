//! Translates brackets of other tools.
use super::{add_first, listed};
use std::alloc::{AllocError, Allocator};

/// Character classes, as other tools write them in a bracket, and the ranges that replace them.
static CLASSES: &[(&str, &str)] = &[
    ("[:alpha:]", "a-zA-Z"),
    ("[:digit:]", "0-9"),
    ("[:alnum:]", "0-9a-zA-Z"),
    ("[:upper:]", "A-Z"),
    ("[:lower:]", "a-z"),
    ("[:xdigit:]", "0-9a-fA-F"),
];

/// Adds the bracket whose `[` comes just before `text`, and returns what follows it. `None` if its meaning is not
/// certain: if it is unclosed, or has a backslash or an unlisted class.
pub fn add_bracket<'a, A: Allocator>(
    made: &mut String<A>,
    text: &'a str,
) -> Result<Option<&'a str>, AllocError> {
    let (start, mut rest) = match text.strip_prefix(['!', '^'].as_slice()) {
        Some(after) => ("[!", after),
        None => ("[", text),
    };
    made.push_str(start)?;
    for number in 0..text.len() {
        if number > 0 && rest.starts_with(']') {
            return add_first(made, rest);
        }
        let Some(after) = add_member(made, rest)? else {
            return Ok(None);
        };
        rest = after;
    }
    Ok(None)
}

/// Adds the class, range or character at the start of a text, and returns what follows it.
fn add_member<'a, A: Allocator>(
    made: &mut String<A>,
    text: &'a str,
) -> Result<Option<&'a str>, AllocError> {
    if text.starts_with("[:") {
        return add_class(made, text);
    }
    let Some(after) = add_end(made, text)? else {
        return Ok(None);
    };
    match after.strip_prefix('-') {
        Some(last) if !last.is_empty() && !last.starts_with(']') => {
            made.push('-')?;
            add_end(made, last)
        }
        _ => Ok(Some(after)),
    }
}

/// Adds the ranges of the class at the start of a text, and returns what follows it. `None` if the class is unlisted,
/// or starts a range.
fn add_class<'a, A: Allocator>(
    made: &mut String<A>,
    text: &'a str,
) -> Result<Option<&'a str>, AllocError> {
    match listed(CLASSES, text) {
        Some((ranges, after)) if !after.starts_with('-') || after.starts_with("-]") => {
            made.push_str(ranges)?;
            Ok(Some(after))
        }
        _ => Ok(None),
    }
}

/// Adds the character at the start of a text: a member, or an end of a range. `None` before a backslash or a class, and
/// at the end of the text.
fn add_end<'a, A: Allocator>(
    made: &mut String<A>,
    text: &'a str,
) -> Result<Option<&'a str>, AllocError> {
    if text.is_empty() || text.starts_with('\\') || text.starts_with("[:") {
        Ok(None)
    } else {
        add_first(made, text)
    }
}
