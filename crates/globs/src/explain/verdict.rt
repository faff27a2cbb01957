//! What `match` and `find` do with a text.
ghost use Rattle.std.specs.Prelude.{◌≡◌, Some, if◌then◌else◌, map, not};
ghost use Rattle.globs.specs.Explain.Verdict.{finding_words, verdict_words};
ghost use Rattle.globs.specs.Find.Below.{are_below, is_below};
ghost use Rattle.globs.specs.declared.explain.verdict.Finding.TheVariants.{Finds, Misses, Parts, Refuses, Unwritten};

use crate::find::below::{are_below, is_below};
use std::fmt::{self, Display};

/// What `find` does with a text by some patterns.
#[derive(Clone, Copy, PartialEq, Eq)]
pub enum Finding {
    /// It finds a path with this text.
    Finds,
    /// No pattern matches the text.
    Misses,
    /// A pattern matches the text, but only if wildcards match a `/`.
    Parts,
    /// After its lead, a pattern has a component that is empty, `.` or `..`.
    Refuses,
    /// The text has such a component after its lead, so no path has this text.
    Unwritten,
}

/// Whether `match` accepts a text, and what `find` does with it. It prints as a line without its line feed.
#[derive(Clone, Copy)]
pub struct Verdict {
    pub is_match: bool,
    pub finding: Finding,
}

impl Finding {
    /// What `find` does with the text. `is_parted` says whether a pattern with the text's lead matches what follows the
    /// lead under the options, and `is_found` whether a pattern does so under the separator rule, too.
    ///
    /// For `src/*.rs` and `src/a/b.rs` it is [`Parts`](Finding::Parts).
    pub fn new(patterns: &[&str], text: &str, is_parted: bool, is_found: bool) -> Self
        ensures { result ≡ (if not (are_below (map (λ p. p.now) patterns.now)) then Refuses
            else (if not (is_below text.now) then Unwritten
            else (if is_found then Finds else (if is_parted then Parts else Misses)))) }
    {
        if !are_below(patterns) {
            Finding::Refuses
        } else if !is_below(text) {
            Finding::Unwritten
        } else if is_found {
            Finding::Finds
        } else if is_parted {
            Finding::Parts
        } else {
            Finding::Misses
        }
    }

    /// What the line says about `find`.
    fn words(self) -> &'static str
        ensures { result.now ≡ finding_words self }
    {
        match self {
            Finding::Finds => "yes",
            Finding::Misses => "no",
            Finding::Parts => "no, because ?, * and brackets never match / in find",
            Finding::Refuses => "refused, because a component of the pattern is empty, . or ..",
            Finding::Unwritten =>
                "no, because it never writes a path with a component that is empty, . or ..",
        }
    }
}

impl Display for Verdict {
    ghost output = { λ verdict. Some (verdict_words verdict) };

    fn fmt<W: fmt::Write>(&self, f: &mut fmt::Formatter<W>) -> fmt::Result {
        let matches = if self.is_match { "yes" } else { "no" };
        write!(
            f,
            "globs match: {matches}. globs find: {}",
            self.finding.words()
        )
    }
}
