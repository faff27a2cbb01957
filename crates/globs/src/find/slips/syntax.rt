//! Slips in the syntax of a pattern: forms of git and Windows, backslashes and regular expressions. No clause is about
//! these lines.
use crate::explain::foreign::native_forms;
use crate::find::slips::line::Slip;
use glob_console::ErrorLines;
use std::alloc::Allocator;
use std::io::Write;

/// Parts of regular expressions that are hardly parts of names.
static REGEX: &[&str] = &["\\.", "\\w", "\\d", "\\b", "\\s", "(?"];

/// Parts of regular expressions that repeat something.
static REPEATED: &[&str] = &[".+", "]+", ")+"];

/// Whether a pattern repeats something as a regular expression does.
pub fn is_repeated(pattern: &str) -> bool {
    let is_anchored = pattern.starts_with('^') || pattern.ends_with('$');
    REPEATED.iter().any(|sign| pattern.contains(*sign)) || (is_anchored && pattern.contains(".*"))
}

/// Writes the line about a pattern of a search that found nothing, if its syntax is that of another tool, and returns
/// whether there is one.
pub fn note_syntax<A: Allocator + Copy, E: Write>(
    alloc: A,
    pattern: &str,
    errors: &mut ErrorLines<'_, A, E>,
) -> bool {
    if let Some(path) = pattern.strip_prefix(":/") {
        errors.write(&Slip::Top(path));
    } else if let Some((magic, path)) = magic_of(pattern) {
        errors.write(&Slip::Magic(magic, path));
    } else if let Some(drive) = drive_of(pattern) {
        errors.write(&Slip::Drive(drive));
    } else if is_repeated(pattern) {
        let beginning = if pattern.contains('/') { "" } else { "**/" };
        note_regex(alloc, beginning, pattern, errors);
    } else if pattern.contains('\\') {
        return note_backslash(alloc, pattern, errors);
    } else {
        return false;
    }
    true
}

/// Writes what to write instead of a pattern with a `\`, unless the `\` is in a bracket or in a regular expression.
fn note_backslash<A: Allocator + Copy, E: Write>(
    alloc: A,
    pattern: &str,
    errors: &mut ErrorLines<'_, A, E>,
) -> bool {
    if let Some((before, after)) = pattern.split_once("\\*") {
        if is_name(before) {
            errors.write(&Slip::Either(before, after));
            return true;
        }
    }
    let is_regex = REGEX.iter().any(|sign| pattern.contains(*sign));
    if pattern.contains('[') && !pattern.contains("\\[") && !is_regex {
        return false;
    }
    let beginning = if pattern.contains('/') { "" } else { "**/" };
    if note_escaped(alloc, beginning, pattern, errors) {
        return true;
    }
    if is_regex && !is_of_windows(pattern) {
        errors.write(&Slip::Regex(pattern));
    } else {
        errors.write(&Slip::Backslash(pattern));
    }
    true
}

/// Whether a pattern is names with a `\` between them.
pub fn is_of_windows(pattern: &str) -> bool {
    pattern.contains('\\') && pattern.split('\\').all(|name| is_simple(name))
}

/// Whether a text is not empty, and has only letters, digits, `_`, `-`, `.` and blanks.
fn is_simple(text: &str) -> bool {
    let is_of_name = |c: char| c.is_alphanumeric() || "_-. ".contains(c);
    !text.is_empty() && text.chars().all(is_of_name)
}

/// Whether a text has braces with two dots, and no comma, between them.
pub fn has_numbers(text: &str) -> bool {
    match text.split_once('{') {
        Some((_, after)) => match after.split_once('}') {
            Some((inside, _)) => inside.contains("..") && !inside.contains(','),
            None => false,
        },
        None => false,
    }
}

/// The first bracket of a pattern, if it is only a range that goes backwards, such as `[z-a]`.
pub fn backward(pattern: &str) -> Option<&str> {
    let start = pattern.find('[')?;
    let rest = pattern.get(start..)?;
    let (bracket, _) = rest.split_once(']')?;
    let mut characters = bracket.strip_prefix('[')?.chars();
    let (low, dash, high) = (characters.next()?, characters.next()?, characters.next()?);
    if characters.next().is_none() && dash == '-' && high < low {
        rest.get(..bracket.len().saturating_add(1))
    } else {
        None
    }
}

/// Whether a text has a pair of quotes in it, as in `"a b"/*`.
pub fn is_marked(text: &str) -> bool {
    match text.split_once('"') {
        Some((_, after)) => after.contains('"'),
        None => false,
    }
}

/// Whether a pattern with a wildcard ends in a `.` and upper-case letters.
pub fn is_upper(pattern: &str) -> bool {
    match pattern.rsplit_once('.') {
        Some((before, extension)) => {
            before.contains('*')
                && !extension.is_empty()
                && extension.chars().all(|c| c.is_ascii_uppercase())
        }
        None => false,
    }
}

/// Whether braces in a word have a blank after a comma.
pub fn is_blank_choice(word: &str) -> bool {
    match word.split_once('{') {
        Some((_, after)) => match after.split_once('}') {
            Some((inside, _)) => inside.contains(", "),
            None => false,
        },
        None => false,
    }
}

/// Whether a text has only letters, digits and `_`, and has some.
fn is_name(text: &str) -> bool {
    !text.is_empty() && text.chars().all(|c| c.is_alphanumeric() || c == '_')
}

/// Writes what to write instead of a pattern that is a regular expression. `beginning` comes before it.
pub fn note_regex<A: Allocator + Copy, E: Write>(
    alloc: A,
    beginning: &'static str,
    pattern: &str,
    errors: &mut ErrorLines<'_, A, E>,
) {
    let Ok(forms) = native_forms(alloc, pattern) else {
        return;
    };
    match forms.as_slice() {
        [form, ..] if !is_foreign(form.as_str()) => {
            errors.write(&Slip::Meant(pattern, beginning, form.as_str()));
        }
        _ => errors.write(&Slip::Regex(pattern)),
    }
}

/// Whether a rule looks like a regular expression: it has a part of one that is hardly part of a name, and another.
pub fn is_regex(rule: &str) -> bool {
    let is_open = rule.starts_with('^') || rule.ends_with('$') || rule.contains(".*");
    is_open && REGEX.iter().any(|sign| rule.contains(*sign))
}

/// What is between the parentheses at the beginning of a pattern of git, such as `glob`, and the pattern.
pub fn magic_of(word: &str) -> Option<(&str, &str)> {
    let (magic, path) = word.strip_prefix(":(")?.split_once(')')?;
    if path.is_empty() {
        None
    } else {
        Some((magic, path))
    }
}

/// The drive at the beginning of a path of Windows, such as `C:`.
fn drive_of(word: &str) -> Option<&str> {
    let (drive, path) = word.split_once(':')?;
    let is_drive = drive.len() == 1 && drive.chars().all(|c| c.is_ascii_alphabetic());
    if is_drive && path.starts_with(['/', '\\'].as_slice()) {
        word.get(..2)
    } else {
        None
    }
}

/// Writes what to write instead of a pattern in which a `\` escapes characters, if that is certain, and returns whether
/// it is. `beginning` comes before it.
pub fn note_escaped<A: Allocator + Copy, E: Write>(
    alloc: A,
    beginning: &'static str,
    pattern: &str,
    errors: &mut ErrorLines<'_, A, E>,
) -> bool {
    if !pattern.contains('\\') {
        return false;
    }
    let Ok(forms) = native_forms(alloc, pattern) else {
        return false;
    };
    match forms.as_slice() {
        [form, ..] if !is_foreign(form.as_str()) => {
            errors.write(&Slip::Escaped(beginning, form.as_str()));
            true
        }
        _ => false,
    }
}

/// Whether a pattern still has a part of a regular expression, and so is no advice.
pub fn is_foreign(form: &str) -> bool {
    let has_part = ["|", "(?", "]+", ")+"]
        .iter()
        .any(|part| form.contains(*part));
    has_part || form.starts_with('^') || form.ends_with('$')
}
