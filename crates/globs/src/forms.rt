//! A line about another tool's syntax in a pattern that finds or matches nothing.
ghost use Rattle.std.specs.Prelude.{◌≡◌, ◌++◌, ◌∷◌, Some};

use crate::explain::notes::first_form;
use glob_console::ErrorLines;
use std::alloc::Allocator;
use std::fmt::{self, Display};
use std::io::Write;

/// Writes what another tool's syntax means here, if there is only one pattern and it has such syntax.
pub fn note_form<A: Allocator + Copy, E: Write>(
    alloc: A,
    patterns: &[&str],
    errors: &mut ErrorLines<'_, A, E>,
) {
    if let [pattern] = patterns {
        if let Ok(Some((form, words))) = first_form(alloc, pattern) {
            errors.write(&FormLine { form, words });
        }
    }
}

/// The line about another tool's syntax.
#[derive(Clone, Copy)]
pub struct FormLine {
    pub form: &'static str,
    pub words: &'static str,
}

impl Display for FormLine {
    ghost output = { λ line. Some (line.form.now ++ 32 ∷ line.words.now) };

    fn fmt<W: fmt::Write>(&self, f: &mut fmt::Formatter<W>) -> fmt::Result {
        write!(f, "{} {}", self.form, self.words)
    }
}
