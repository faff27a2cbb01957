//! The lines about slips in the words of a search.
use crate::quoting::ShellWord;
use crate::visible::Visible;
use std::fmt::{self, Display};

/// A line about a slip.
#[derive(Clone, Copy)]
pub enum Slip<'a> {
    /// This word excludes nothing, but this rule would.
    Excluding(&'a str, &'a str),
    /// This word begins with something that looks like `-`, followed by this name.
    Dash(&'a str, &'a str),
    /// This word is a kind after another kind.
    Kind(&'a str),
    /// This pattern is this other pattern in quotes.
    Quoted(&'a str, &'a str),
    /// This pattern has quotes in it.
    Marked(&'a str),
    /// This bracket has a range that goes backwards.
    Range(&'a str),
    /// Braces have a range of numbers.
    Numbers,
    /// This word has several patterns, separated by this.
    Several(&'a str, &'static str),
    /// This path is from the top of a repository.
    Top(&'a str),
    /// Another tool's pattern with a `\` means this pattern here, after this beginning.
    Escaped(&'static str, &'a str),
    /// A regular expression means this pattern here.
    Anchored(&'a str),
    /// A refused pattern was probably meant as this one.
    Instead(&'a str),
    /// This pattern has a `\` between names.
    Backslash(&'a str),
    /// This pattern matches upper-case letters only.
    Upper(&'a str),
    /// This pattern, after this lead, matches only names directly in the start.
    Shallow(&'a str, &'a str),
    /// This word is the name of an entry, but does not match it.
    Unmatched(&'a str),
    /// The pattern of git with this between its parentheses is this pattern here.
    Magic(&'a str, &'a str),
    /// This is a drive of Windows.
    Drive(&'a str),
    /// This pattern is a regular expression.
    Regex(&'a str),
    /// This pattern is a regular expression, and means this pattern, after this beginning.
    Meant(&'a str, &'static str, &'a str),
    /// What is before and after the `\*` of a pattern.
    Either(&'a str, &'a str),
    /// The braces of this word have a blank after a comma.
    Blank(&'a str),
    /// A pattern with a `[` that is not closed was perhaps meant as this one.
    Unclosed(&'a str),
    /// This word joins others in a shell or another tool.
    Joint(&'a str),
    /// This rule is a path from the root on.
    Absolute(&'a str),
    /// This rule is the name of a program.
    Program(&'a str),
    /// This rule has several names, separated by this.
    Joined(&'a str, &'static str),
}

impl Display for Slip<'_> {
    fn fmt<W: fmt::Write>(&self, f: &mut fmt::Formatter<W>) -> fmt::Result {
        match self {
            Slip::Excluding(word, rule) => {
                let (word, rule) = (Visible { text: *word }, ShellWord { text: *rule });
                write!(f, "`{word}` does not exclude: use -x {rule}")
            }
            Slip::Dash(word, name) => write_dash(f, word, name),
            Slip::Kind(kind) => {
                write!(
                    f,
                    "`{kind}` was read as a pattern: use -t {kind}, as each -t has one value"
                )
            }
            Slip::Quoted(word, bare) => {
                let (word, bare) = (Visible { text: *word }, Visible { text: *bare });
                write!(
                    f,
                    "`{word}` has quotes in it, which belong to the pattern: write '{bare}'"
                )
            }
            Slip::Marked(word) => {
                let word = Visible { text: *word };
                write!(
                    f,
                    "`{word}` has quotes in it, which belong to the pattern: leave them out"
                )
            }
            Slip::Range(bracket) => {
                let bracket = Visible { text: *bracket };
                write!(
                    f,
                    "{bracket} matches no character: its range goes backwards, so write the lower end first"
                )
            }
            Slip::Numbers => {
                f.write_str("{1..3} is not a range here: write {1,2,3}, or [1-3] for a character")
            }
            Slip::Several(word, between) => {
                let word = Visible { text: *word };
                write!(
                    f,
                    "`{word}` is one pattern, with {between} in it: quote each pattern separately"
                )
            }
            Slip::Top(path) => {
                let path = Visible { text: *path };
                write!(
                    f,
                    "`:/` is git's syntax: write '{path}', from the start of the search"
                )
            }
            Slip::Escaped(beginning, form) => {
                let form = Visible { text: *form };
                write!(
                    f,
                    "\\ is an ordinary character here, and escapes nothing: write '{beginning}{form}'"
                )
            }
            Slip::Anchored(form) => {
                let form = Visible { text: *form };
                write!(
                    f,
                    "^ and $ are ordinary characters here, not anchors: write '{form}'"
                )
            }
            Slip::Instead(form) => {
                let form = Visible { text: *form };
                write!(f, "write instead: '{form}'")
            }
            Slip::Backslash(pattern) => {
                let pattern = Visible { text: *pattern };
                write!(
                    f,
                    "`{pattern}` has a \\, which is an ordinary character here: / separates names"
                )
            }
            Slip::Upper(pattern) => {
                let pattern = Visible { text: *pattern };
                write!(
                    f,
                    "`{pattern}` matches upper-case letters only: use -i for both cases"
                )
            }
            Slip::Shallow(lead, pattern) => {
                let pattern = Visible { text: *pattern };
                write!(
                    f,
                    "`{lead}{pattern}` matches only names at the start: '{lead}**/{pattern}' also matches those below"
                )
            }
            Slip::Unmatched(name) => {
                let name = Visible { text: *name };
                write!(
                    f,
                    "`{name}` is a name, but does not match itself as a pattern: quote the pattern, or use globs escape"
                )
            }
            Slip::Magic(magic, path) => {
                let flag = if *magic == "icase" { "-i " } else { "" };
                let (magic, path) = (Visible { text: *magic }, Visible { text: *path });
                write!(f, "`:({magic})` is git's syntax: write {flag}'{path}'")
            }
            Slip::Drive(drive) => {
                write!(
                    f,
                    "`{drive}` is a drive of Windows: here paths begin with /, as in '/mnt/c/*'"
                )
            }
            Slip::Regex(pattern) => {
                let pattern = Visible { text: *pattern };
                write!(
                    f,
                    "`{pattern}` is not read as a regular expression: * is any characters, as in '**/*.c'"
                )
            }
            Slip::Meant(pattern, beginning, form) => {
                let (pattern, form) = (Visible { text: *pattern }, Visible { text: *form });
                write!(
                    f,
                    "`{pattern}` is not read as a regular expression: write '{beginning}{form}'"
                )
            }
            Slip::Either(before, after) => {
                let (before, after) = (Visible { text: *before }, Visible { text: *after });
                write!(
                    f,
                    "\\ is an ordinary character here: write '{before}/*{after}', or '{before}[*]{after}' for the character *"
                )
            }
            Slip::Blank(word) => {
                let word = Visible { text: *word };
                write!(
                    f,
                    "`{word}` has a blank after a comma, which belongs to the alternative: leave it out"
                )
            }
            Slip::Unclosed(form) => {
                let form = Visible { text: *form };
                write!(
                    f,
                    "close the [ with a ], or write for the character [: '{form}'"
                )
            }
            Slip::Joint(word) => {
                write!(
                    f,
                    "`{word}` was read as a pattern: patterns follow each other, each in quotes"
                )
            }
            Slip::Absolute(rule) => {
                let rule = Visible { text: *rule };
                write!(
                    f,
                    "-x {rule} ignores nothing: the / of a rule is where the search begins, not the root"
                )
            }
            Slip::Program(program) => {
                write!(
                    f,
                    "-x {program} ignores what is called {program}, and runs nothing: pipe the paths of globs find -0 to xargs -0r {program}"
                )
            }
            Slip::Joined(rule, between) => {
                let rule = Visible { text: *rule };
                write!(
                    f,
                    "-x {rule} is one rule, with {between} in it: use -x for each"
                )
            }
        }
    }
}

/// Says what to write instead of a word that begins with a typographic dash.
fn write_dash<W: fmt::Write>(f: &mut fmt::Formatter<W>, word: &str, name: &str) -> fmt::Result {
    let hyphens = if name.chars().count() == 1 { "-" } else { "--" };
    let (word, name) = (Visible { text: word }, Visible { text: name });
    write!(
        f,
        "`{word}` begins with a dash that is not `-`: write {hyphens}{name}"
    )
}
