//! Lines about rules of the command line that ignore nothing or cannot be read. No clause is about these lines.
ghost use Rattle.std.specs.Prelude.{◌≡◌};

use crate::explain::foreign::native_forms;
use crate::find::leads::split_lead;
use crate::find::slips::syntax::{is_foreign, is_regex};
use crate::find::slips::unquoted;
use crate::ignoring::RulesFault;
use crate::name::Name;
use crate::options::{Options, Settings, Valued};
use crate::quoting::ShellWord;
use crate::spelling::with_flags;
use crate::visible::Visible;
use glob_console::{ErrorLines, UNFOUND};
use std::alloc::Allocator;
use std::fmt::{self, Display};
use std::io::{ErrorKind, Write};

/// A line about a rule, or about a name of ignore files.
#[derive(Clone, Copy)]
enum RuleHint<'a> {
    /// This rule has something that no path has.
    Dotted(&'a str),
    /// This rule has braces.
    Braces(&'a str),
    /// This rule re-includes what no other rule ignores.
    Negative(&'a str),
    /// This rule is empty.
    Empty(&'a str),
    /// This rule is a comment.
    Comment(&'a str),
    /// This rule has a `[` that is not closed.
    Unclosed(&'a str),
    /// This rule is a regular expression.
    Regex(&'a str),
    /// This rule is a regular expression, for which this rule may be written.
    Meant(&'a str, &'a str),
    /// This rule is this other rule in quotes.
    Quoted(&'a str, &'a str),
    /// This rule has a `|`.
    Bar(&'a str),
    /// This rule begins with a blank.
    Blank(&'a str),
    /// This rule is an option.
    Option(&'a str),
    /// This rule begins with `~/`.
    Home(&'a str),
    /// These are several names of ignore files.
    Names(&'a str),
    /// This name of ignore files is an option.
    Taken(&'a str),
    /// There is no such file of rules.
    Absent(&'a str),
    /// This rule ignores all that this pattern matches.
    Opposed(&'a str, &'a str),
    /// This name of ignore files has wildcards.
    Wild(&'a str),
    /// This name of an ignore file looks like a rule.
    Rule(&'a str),
}

impl Display for RuleHint<'_> {
    fn fmt<W: fmt::Write>(&self, f: &mut fmt::Formatter<W>) -> fmt::Result {
        match self {
            RuleHint::Dotted(rule) => write_rule(
                f,
                rule,
                "ignores nothing: paths never contain . or .. For ./a write /a",
            ),
            RuleHint::Braces(rule) => {
                write_rule(
                    f,
                    rule,
                    "has braces, which a rule takes literally: use -x for each",
                )
            }
            RuleHint::Negative(rule) => {
                write_rule(
                    f,
                    rule,
                    "ignores nothing: ! takes back what earlier rules ignore. Leave it out",
                )
            }
            RuleHint::Empty(rule) => {
                let typed = ShellWord { text: *rule };
                write!(f, "-x {typed} ignores nothing: leave it out")
            }
            RuleHint::Comment(rule) => {
                write_rule(
                    f,
                    rule,
                    "ignores nothing, as # begins a comment: write \\# for a name",
                )
            }
            RuleHint::Unclosed(rule) => write_rule(
                f,
                rule,
                "ignores nothing, as its [ is not closed: write \\[ for the character",
            ),
            RuleHint::Regex(rule) => write_rule(
                f,
                rule,
                "is not a regular expression: * is any characters, as in '*.o'",
            ),
            RuleHint::Meant(rule, form) => {
                let (rule, form) = (Visible { text: *rule }, ShellWord { text: *form });
                write!(f, "-x {rule} is not a regular expression: use -x {form}")
            }
            RuleHint::Quoted(rule, bare) => {
                let (rule, bare) = (Visible { text: *rule }, Visible { text: *bare });
                write!(
                    f,
                    "-x {rule} has quotes in it, which belong to the rule: use -x '{bare}'"
                )
            }
            RuleHint::Blank(rule) => {
                let (rule, bare) = (Visible { text: *rule }, ShellWord { text: rule.trim() });
                write!(
                    f,
                    "-x '{rule}' begins with a blank, which belongs to the rule: use -x {bare}"
                )
            }
            RuleHint::Bar(rule) => write_rule(
                f,
                rule,
                "has a |, which a rule takes literally: use -x for each",
            ),
            RuleHint::Option(rule) => write_rule(
                f,
                rule,
                "takes this word as its RULE: write the rule after -x",
            ),
            RuleHint::Home(rule) => write_rule(
                f,
                rule,
                "ignores nothing, as ~ is an ordinary character: rules begin where the search does",
            ),
            RuleHint::Names(name) => {
                let name = Visible { text: *name };
                write!(
                    f,
                    "--ignore-files {name} looks for that exact name: use --ignore-files for each name"
                )
            }
            RuleHint::Taken(name) => write!(
                f,
                "--ignore-files takes {name} as its NAME: write the name after --ignore-files"
            ),
            RuleHint::Absent(file) if is_option(file) => write!(
                f,
                "--ignore takes {file} as its FILE: write the file after --ignore"
            ),
            RuleHint::Absent(file) => {
                let typed = ShellWord { text: *file };
                let file = Visible { text: *file };
                write!(
                    f,
                    "--ignore {file} needs a file of rules, one a line: for a single rule use -x {typed}"
                )
            }
            RuleHint::Opposed(rule, pattern) => {
                let (rule, pattern) = (Visible { text: *rule }, Visible { text: *pattern });
                write!(
                    f,
                    "-x {rule} ignores all that `{pattern}` matches: leave out one of them"
                )
            }
            RuleHint::Wild(name) => {
                let name = Visible { text: *name };
                write!(
                    f,
                    "--ignore-files {name} looks for that exact name: it is not a pattern"
                )
            }
            RuleHint::Rule(rule) => {
                let typed = ShellWord { text: *rule };
                let rule = Visible { text: *rule };
                write!(f, "`{rule}` was taken for a file of rules: use -x {typed}")
            }
        }
    }
}

/// Writes a rule, and what there is to say about it.
fn write_rule<W: fmt::Write>(f: &mut fmt::Formatter<W>, rule: &str, words: &str) -> fmt::Result {
    let rule = Visible { text: rule };
    write!(f, "-x {rule} {words}")
}

/// Reports why rules could not be read and, if the file is not there, is a directory or has a name with wildcards, that
/// --ignore takes a file and not a rule. Returns the status of a fault.
pub fn report_rules<A: Allocator + Copy, E: Write>(
    fault: RulesFault<'_>,
    errors: &mut ErrorLines<'_, A, E>,
) -> u8
    ensures { result ≡ 2 }
{
    let file = match &fault {
        RulesFault::Unread(file, error) if error.kind() == ErrorKind::IsADirectory => Some(*file),
        RulesFault::NoText(file) | RulesFault::Unread(file, _) if is_wild(file) => Some(*file),
        _ => None,
    };
    let absent = match &fault {
        RulesFault::Unread(file, error) if error.kind() == ErrorKind::NotFound => Some(*file),
        _ => None,
    };
    let status = errors.fault(fault);
    match (file, absent) {
        (Some(file), _) => errors.write(&RuleHint::Rule(file)),
        (None, Some(file)) => errors.write(&RuleHint::Absent(file)),
        (None, None) => {}
    }
    status
}

/// Whether a name has wildcards.
fn is_wild(name: &str) -> bool {
    name.contains(['*', '?', '['].as_slice())
}

/// Writes the lines about rules of the command line that ignore nothing, or all that a search looked for. The patterns
/// are those of a search that has ended with 0 or 1.
pub fn note_rules<A: Allocator + Copy, E: Write>(
    alloc: A,
    options: &Options<'_, A>,
    patterns: &[&str],
    status: u8,
    errors: &mut ErrorLines<'_, A, E>,
) {
    for rule in options.rules.as_slice() {
        note_rule(alloc, rule, errors);
    }
    if status == UNFOUND {
        note_opposed(options, patterns, errors);
    }
    if let [rule, ..] = options.rules.as_slice() {
        if has_only_negatives(options) {
            errors.write(&RuleHint::Negative(rule));
        }
    }
    for name in options.rule_files.as_slice() {
        if is_wild(name) {
            errors.write(&RuleHint::Wild(name));
        } else if name.contains([',', ' '].as_slice()) {
            errors.write(&RuleHint::Names(name));
        } else if is_option(name) {
            errors.write(&RuleHint::Taken(name));
        }
    }
}

/// Writes the line about a rule that ignores nothing.
fn note_rule<A: Allocator + Copy, E: Write>(
    alloc: A,
    rule: &str,
    errors: &mut ErrorLines<'_, A, E>,
) {
    if rule.trim().is_empty() || rule == "/" {
        errors.write(&RuleHint::Empty(rule));
    } else if rule.starts_with('#') {
        errors.write(&RuleHint::Comment(rule));
    } else if is_dotted(rule) {
        errors.write(&RuleHint::Dotted(rule));
    } else if let Some(bare) = unquoted(rule) {
        errors.write(&RuleHint::Quoted(rule, bare));
    } else if rule.starts_with(' ') {
        errors.write(&RuleHint::Blank(rule));
    } else if is_option(rule) {
        errors.write(&RuleHint::Option(rule));
    } else if rule.starts_with("~/") {
        errors.write(&RuleHint::Home(rule));
    } else if has_choice(rule) {
        errors.write(&RuleHint::Braces(rule));
    } else if is_unclosed(rule) {
        errors.write(&RuleHint::Unclosed(rule));
    } else if is_regex(rule) || rule.starts_with('^') || rule.ends_with('$') {
        note_regex(alloc, rule, errors);
    } else if rule.contains('|') {
        errors.write(&RuleHint::Bar(rule));
    }
}

/// Writes what to write instead of a rule that is a regular expression.
fn note_regex<A: Allocator + Copy, E: Write>(
    alloc: A,
    rule: &str,
    errors: &mut ErrorLines<'_, A, E>,
) {
    let Ok(forms) = native_forms(alloc, rule) else {
        return;
    };
    match forms.as_slice() {
        [form, ..] if !is_foreign(form.as_str()) => {
            errors.write(&RuleHint::Meant(rule, form.as_str()));
        }
        _ => errors.write(&RuleHint::Regex(rule)),
    }
}

/// Writes the line about a rule that ignores all that a pattern matches, unless a rule takes something back.
fn note_opposed<A: Allocator + Copy, E: Write>(
    options: &Options<'_, A>,
    patterns: &[&str],
    errors: &mut ErrorLines<'_, A, E>,
) {
    let rules = options.rules.as_slice();
    let is_cased = options.settings.options.case_sensitive;
    if !is_cased || rules.iter().any(|rule| rule.starts_with('!')) {
        return;
    }
    for pattern in patterns {
        let (_, below) = split_lead(pattern);
        for rule in rules {
            if is_opposed(rule, below) {
                errors.write(&RuleHint::Opposed(rule, pattern));
                return;
            }
        }
    }
}

/// Whether a rule ignores all that a pattern matches, because it is the pattern or one of its components.
fn is_opposed(rule: &str, pattern: &str) -> bool {
    let is_certain = !rule.is_empty() && !rule.contains(['[', '\\', '{', '#'].as_slice());
    if !is_certain {
        return false;
    }
    if rule == pattern || matches!(rule, "*" | "/*" | "**") {
        return true;
    }
    match rule.strip_suffix('/') {
        // A component that is not the last names a directory.
        Some(name) => match pattern.rsplit_once('/') {
            Some((before, _)) => before.split('/').any(|component| component == name),
            None => false,
        },
        None => pattern.split('/').any(|component| component == rule),
    }
}

/// Whether a `[` of a rule is not closed.
fn is_unclosed(rule: &str) -> bool {
    match rule.rsplit_once('[') {
        Some((before, after)) => !before.ends_with('\\') && !after.contains(']'),
        None => false,
    }
}

/// Whether all rules are rules of the command line that re-include what others ignore.
fn has_only_negatives<A: Allocator>(options: &Options<'_, A>) -> bool {
    options.files.is_empty()
        && options.rule_files.is_empty()
        && !options.settings.is_git
        && options
            .rules
            .as_slice()
            .iter()
            .all(|rule| rule.starts_with('!'))
}

/// Whether a rule is an option of `find`.
fn is_option(rule: &str) -> bool {
    with_flags(Settings::new(Name::Find), Name::Find, rule).is_some()
        || Valued::asked(Name::Find, rule).is_some()
}

/// Whether a rule begins with a component that no path has.
fn is_dotted(rule: &str) -> bool {
    let rule = rule.strip_prefix('!').unwrap_or(rule);
    rule == "." || rule == ".." || rule.starts_with("./") || rule.starts_with("../")
}

/// Whether a text has braces with a comma between them.
fn has_choice(text: &str) -> bool {
    match text.split_once('{') {
        Some((_, after)) => match after.split_once('}') {
            Some((inside, _)) => inside.contains(','),
            None => false,
        },
        None => false,
    }
}
