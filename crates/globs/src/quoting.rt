//! Prints a word as it is typed in a shell.
use crate::visible::Visible;
use std::fmt::{self, Display};

/// A word that prints in single quotes if a shell might read it otherwise: `src` as it is, and `a*` as `'a*'`.
#[derive(Clone, Copy)]
pub struct ShellWord<'a> {
    pub text: &'a str,
}

impl Display for ShellWord<'_> {
    fn fmt<W: fmt::Write>(&self, f: &mut fmt::Formatter<W>) -> fmt::Result {
        let text = Visible { text: self.text };
        if is_bare(self.text) {
            write!(f, "{text}")
        } else {
            write!(f, "'{text}'")
        }
    }
}

/// Whether a shell reads a word as it is: it has only characters that mean nothing to a shell.
fn is_bare(text: &str) -> bool {
    let is_safe = |c: char| c.is_alphanumeric() || "/._-+,@%:=".contains(c);
    !text.is_empty() && text.chars().all(is_safe)
}
