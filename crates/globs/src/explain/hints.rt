//! Which single changes give a match. Each one reported was tried.
ghost use Rattle.std.specs.Prelude.{◌≡◌, ◌↔◌, ◌++◌, ◌≢◌, ◌∷◌, IfOk, IsTrue, List, ℕ, MatchOption, codes, false, map, string_bytes, true};
ghost use Rattle.globs.specs.Explain.Hints.{AreHints, GivesAny, GivesMatch, GivesNone, change_words};
ghost use Rattle.globs.specs.declared.explain.hints.Change.TheVariants.{LowerCase};

use crate::explain::instead::is_match;
use glob_pattern::MatchOptions;
use std::alloc::{AllocError, Allocator};

/// A change of one option, or of the pattern or the text.
#[derive(Clone, Copy)]
pub enum Change {
    /// ASCII letters in either case are the same.
    EitherCase,
    /// Wildcards and brackets match a `/`.
    AnySeparator,
    /// Wildcards and brackets match a leading `.`.
    AnyDot,
    /// The pattern without the `./` at its start.
    PatternHere,
    /// The text without the `./` at its start.
    TextHere,
    /// The pattern without the `/**` at its end.
    NotBelow,
    /// The pattern without the white space at its end.
    PatternEnd,
    /// The text without the white space at its end.
    TextEnd,
    /// Under `-i`, the pattern and the text in lower case, beyond ASCII too.
    LowerCase,
}

/// All changes, in the order of their lines.
const CHANGES: [Change; 9] = [
    Change::EitherCase,
    Change::AnySeparator,
    Change::AnyDot,
    Change::PatternHere,
    Change::TextHere,
    Change::NotBelow,
    Change::PatternEnd,
    Change::TextEnd,
    Change::LowerCase,
];

/// A line for exactly the changes that make one of the patterns match the text: `it matches with -i` is there exactly
/// if a pattern matches with `-i`. The error is an allocation failure.
///
/// For `*.RS` and `a.rs` it is this line; for `./a` and `a` it is `it matches without ./ before the pattern`.
pub fn hint_lines<A: Allocator + Copy>(
    alloc: A,
    patterns: &[&str],
    text: &str,
    options: MatchOptions,
) -> Result<String<A>, AllocError>
    ensures { IfOk result (λ lines.
        AreHints options (map (λ p. p.now) patterns.now) text.now (string_bytes lines)) }
{
    let mut lines = String::new(alloc);
    for change in &CHANGES {
        if change.gives_any(alloc, patterns, text, options)? {
            lines.push_str(change.words())?;
            lines.push('\n')?;
        }
    }
    Ok(lines)
}

impl Change {
    /// The line for this change, without its line feed.
    fn words(self) -> &'static str
        ensures { result.now ≡ change_words self }
    {
        match self {
            Change::EitherCase => "it matches with -i",
            Change::AnySeparator => "it matches without -s, but find has no such option",
            Change::AnyDot => "it matches without -d",
            Change::PatternHere => "it matches without ./ before the pattern",
            Change::TextHere => "it matches without ./ before the text",
            Change::NotBelow => "it matches without /**, which takes only what is below",
            Change::PatternEnd => "it matches without white space at the end of the pattern",
            Change::TextEnd => "it matches without white space at the end of the text",
            Change::LowerCase => "it matches in lower case, but -i only covers ASCII letters",
        }
    }

    /// Whether one of the patterns matches the text after the change.
    fn gives_any<A: Allocator + Copy>(
        self,
        alloc: A,
        patterns: &[&str],
        text: &str,
        options: MatchOptions,
    ) -> Result<bool, AllocError>
        ensures some { IfOk result (λ yes. yes ≡ true
            → GivesAny self options (map (λ p. p.now) patterns.now) text.now) }
        ensures none { IfOk result (λ yes. yes ≡ false
            → GivesNone self options (map (λ p. p.now) patterns.now) text.now) }
    {
        for pattern in patterns {
            if self.gives_match(alloc, pattern, text, options)? {
                return Ok(true);
            }
        }
        Ok(false)
    }

    /// Whether the pattern matches the text after the change.
    fn gives_match<A: Allocator + Copy>(
        self,
        alloc: A,
        pattern: &str,
        text: &str,
        options: MatchOptions,
    ) -> Result<bool, AllocError>
        ensures { IfOk result
            (λ yes. IsTrue yes ↔ GivesMatch self options pattern.now text.now) }
    {
        match self {
            Change::EitherCase => {
                let options = MatchOptions {
                    case_sensitive: false,
                    ..options
                };
                is_match(alloc, pattern, text, options)
            }
            Change::AnySeparator => {
                let options = MatchOptions {
                    require_literal_separator: false,
                    ..options
                };
                is_match(alloc, pattern, text, options)
            }
            Change::AnyDot => {
                let options = MatchOptions {
                    require_literal_leading_dot: false,
                    ..options
                };
                is_match(alloc, pattern, text, options)
            }
            Change::PatternHere => match without_here(pattern) {
                Some(rest) => is_match(alloc, rest, text, options),
                None => Ok(false),
            },
            Change::TextHere => match without_here(text) {
                Some(rest) => is_match(alloc, pattern, rest, options),
                None => Ok(false),
            },
            Change::NotBelow => match without_below(pattern) {
                Some(above) => is_match(alloc, above, text, options),
                None => Ok(false),
            },
            Change::PatternEnd => is_match(alloc, pattern.trim_end(), text, options),
            Change::TextEnd => is_match(alloc, pattern, text.trim_end(), options),
            Change::LowerCase => is_lower_match(alloc, pattern, text, options),
        }
    }
}

/// Whether, under `-i`, the pattern in lower case matches the text in lower case.
fn is_lower_match<A: Allocator + Copy>(
    alloc: A,
    pattern: &str,
    text: &str,
    options: MatchOptions,
) -> Result<bool, AllocError>
    ensures { IfOk result
        (λ yes. IsTrue yes ↔ GivesMatch LowerCase options pattern.now text.now) }
{
    if options.case_sensitive {
        return Ok(false);
    }
    let lower_pattern = pattern.to_lowercase(alloc)?;
    let lower_text = text.to_lowercase(alloc)?;
    is_match(alloc, lower_pattern.as_str(), lower_text.as_str(), options)
}

/// What follows the `./` at the start of a text. `None` if there is no `./` there.
pub fn without_here(text: &str) -> Option<&str>
    ensures { MatchOption result
        ((rest : List ℕ) → text.now ≢ 46 ∷ 47 ∷ rest) (λ rest. text.now ≡ 46 ∷ 47 ∷ rest.now) }
{
    text.strip_prefix('.')?.strip_prefix('/')
}

/// What precedes the `/**` at the end of a text. `None` if there is no `/**` there.
fn without_below(text: &str) -> Option<&str>
    ensures { MatchOption result ((above : List ℕ) → text.now ≢ above ++ codes "/**")
        (λ above. text.now ≡ above.now ++ codes "/**") }
{
    text.strip_suffix('*')?.strip_suffix('*')?.strip_suffix('/')
}
