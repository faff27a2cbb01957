//! What to write instead of a word that `find` refuses.
use crate::find::below::is_below;
use crate::find::leads::split_lead;
use crate::find::missing::is_plain;
use crate::options::Options;
use crate::quoting::ShellWord;
use crate::visible::Visible;
use glob_console::ErrorLines;
use glob_pattern::Pattern;
use std::alloc::Allocator;
use std::fmt::{self, Display};
use std::io::Write;

/// Writes what to write instead of the first refused word, if it is refused because of a component and the answer is
/// certain.
pub fn note_astray<A: Allocator + Copy, E: Write>(
    alloc: A,
    options: &Options<'_, A>,
    words: &[&str],
    errors: &mut ErrorLines<'_, A, E>,
) {
    for word in words {
        if note_braces(words, word, errors) {
            return;
        }
        if !is_below(word) {
            if let Some((_, path)) = word.split_once("://") {
                errors.write(&AddressLine { path });
            } else if words.len() > 1 && (*word == "." || *word == "./") {
                errors.write(&HereLine { word });
            } else if let Some(line) = InsteadLine::new(word) {
                errors.write(&line);
            } else if let Some(line) = ShorterLine::new(word) {
                errors.write(&line);
            } else {
                note_up(options.directory, word, errors);
            }
            return;
        }
        if Pattern::new(alloc, word).is_err() {
            return;
        }
    }
}

/// Writes what to write instead of a word that has a `..` after its lead.
fn note_up<A: Allocator + Copy, E: Write>(
    directory: &str,
    word: &str,
    errors: &mut ErrorLines<'_, A, E>,
) {
    match UpLine::new(word) {
        Some(line) if directory.is_empty() => errors.write(&line),
        _ => errors.write(
            &"leave out this component, or begin the search elsewhere, as in -C .. '*.c'",
        ),
    }
}

/// Writes what to write instead of a word whose braces are not closed or not opened, and returns whether they are not.
pub fn note_braces<A: Allocator + Copy, E: Write>(
    words: &[&str],
    word: &str,
    errors: &mut ErrorLines<'_, A, E>,
) -> bool {
    let opened = word.split('{').count();
    let closed = word.split('}').count();
    if opened == closed || word.contains('[') {
        return false;
    }
    let is_split = word.ends_with(',') && words.iter().any(|other| is_closing(other));
    if closed > opened {
        errors.write(&"open the } with a {, or write [}] for the character }");
    } else if is_split {
        errors.write(&"quote the word, and leave out the blank in its braces: '*.{c,h}'");
    } else {
        errors.write(&"close the { with a }, or write [{] for the character {");
    }
    true
}

/// Whether a word has a `}`, but no `{`.
fn is_closing(word: &str) -> bool {
    word.contains('}') && !word.contains('{')
}

/// The line about an address such as `file:///a`, whose path is what follows `://`.
#[derive(Clone, Copy)]
struct AddressLine<'a> {
    path: &'a str,
}

impl Display for AddressLine<'_> {
    fn fmt<W: fmt::Write>(&self, f: &mut fmt::Formatter<W>) -> fmt::Result {
        if self.path.starts_with('/') {
            let path = Visible { text: self.path };
            write!(f, "write instead: '{path}'")
        } else {
            f.write_str("an address of the network is not a path: globs find searches directories")
        }
    }
}

/// The line that says what to write instead of a word with a `..` after the name of a directory.
#[derive(Clone, Copy)]
struct UpLine<'a> {
    directory: &'a str,
    /// What follows the `..` and its `/`.
    below: &'a str,
}

impl<'a> UpLine<'a> {
    /// The line about a refused word; `None` if it is not certain what to write.
    fn new(word: &'a str) -> Option<Self> {
        let (directory, below) = word.split_once("/../")?;
        let (_, name) = split_lead(directory);
        let (_, rest) = split_lead(below);
        if is_plain(name)
            && is_below(rest)
            && !word.contains(|c: char| c == '\'' || c.is_control())
        {
            Some(UpLine { directory, below })
        } else {
            None
        }
    }
}

impl Display for UpLine<'_> {
    fn fmt<W: fmt::Write>(&self, f: &mut fmt::Formatter<W>) -> fmt::Result {
        let directory = ShellWord {
            text: self.directory,
        };
        let below = Visible { text: self.below };
        write!(f, "write instead: -C {directory} '../{below}'")
    }
}

/// The line about the directory where a search begins, among patterns.
#[derive(Clone, Copy)]
struct HereLine<'a> {
    word: &'a str,
}

impl Display for HereLine<'_> {
    fn fmt<W: fmt::Write>(&self, f: &mut fmt::Formatter<W>) -> fmt::Result {
        let word = self.word;
        write!(
            f,
            "leave out `{word}`: a search begins in the current directory, or with -C DIR in another"
        )
    }
}

/// The line that says what to write instead of a word with an empty component or a `.` inside: the word without it.
#[derive(Clone, Copy)]
struct ShorterLine<'a> {
    lead: &'a str,
    /// The pattern after the lead.
    below: &'a str,
}

impl<'a> ShorterLine<'a> {
    /// The line about a refused word. `None` if there is no such component inside, or if the answer is not certain: if
    /// one is last, or if a `..`, `{`, `'` or `:` comes after the lead.
    fn new(word: &'a str) -> Option<Self> {
        let (lead, below) = split_lead(word);
        let is_inside = below.contains("//") || below.contains("/./");
        let is_last = below.ends_with('/') || below.ends_with("/.");
        let is_other = below.contains(['{', '\'', ':'].as_slice()) || below.contains("..");
        if is_inside && !is_last && !is_other {
            Some(ShorterLine { lead, below })
        } else {
            None
        }
    }
}

impl Display for ShorterLine<'_> {
    fn fmt<W: fmt::Write>(&self, f: &mut fmt::Formatter<W>) -> fmt::Result {
        let lead = self.lead;
        write!(f, "write instead: '{lead}")?;
        let mut is_first = true;
        for name in self.below.split('/') {
            if name.is_empty() || name == "." {
                continue;
            }
            if !is_first {
                f.write_str("/")?;
            }
            is_first = false;
            let name = Visible { text: name };
            write!(f, "{name}")?;
        }
        f.write_str("'")
    }
}

/// The line that says what to write instead of a word that ends at a place, or in `/`.
#[derive(Clone, Copy)]
struct InsteadLine<'a> {
    lead: &'a str,
    /// The `..` or `.` at the end of the word, or nothing.
    last: &'a str,
    /// The pattern after the lead, or an empty text.
    below: &'a str,
    is_directory: bool,
}

impl<'a> InsteadLine<'a> {
    /// The line about a refused word; `None` if it is not certain what to write.
    fn new(word: &'a str) -> Option<Self> {
        let (lead, rest) = split_lead(word);
        if rest == "." || rest == ".." {
            return Some(InsteadLine {
                lead,
                last: rest,
                below: "",
                is_directory: false,
            });
        }
        let below = rest.strip_suffix('/').unwrap_or(rest);
        if !below.is_empty() && (!is_below(below) || below.contains('\'')) {
            return None;
        }
        Some(InsteadLine {
            lead,
            last: "",
            below,
            is_directory: below.len() < rest.len(),
        })
    }
}

impl Display for InsteadLine<'_> {
    fn fmt<W: fmt::Write>(&self, f: &mut fmt::Formatter<W>) -> fmt::Result {
        f.write_str("write instead: ")?;
        if self.is_directory {
            f.write_str("-t d ")?;
        }
        let (lead, last) = (self.lead, self.last);
        let join = if last.is_empty() { "" } else { "/" };
        let below = if self.below.is_empty() {
            "**"
        } else {
            self.below
        };
        let below = Visible { text: below };
        write!(f, "'{lead}{last}{join}{below}'")?;
        if self.is_directory && is_plain(self.below) {
            write!(f, ", or for what is in it '{lead}{below}/**'")?;
        }
        Ok(())
    }
}
