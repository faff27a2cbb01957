//! A text that comes before its pattern.
use crate::explain::explanation::Question;
use crate::explain::instead::is_match;
use crate::visible::Visible;
use glob_set::braces::{BraceRefusal, expand};
use std::alloc::{AllocError, Allocator};

/// Adds a line if the words are in the wrong order: the text is a pattern that matches the word before it, which has no
/// wildcards.
///
/// For `a.rs` and `*.rs` it is "the pattern comes first: *.rs matches a.rs".
pub fn add_swapped<A: Allocator + Copy>(
    alloc: A,
    lines: &mut String<A>,
    question: Question<'_>,
) -> Result<(), AllocError> {
    let (text, pattern) = (question.word, question.text);
    if has_wildcard(text) || !has_wildcard(pattern) {
        return Ok(());
    }
    let alternatives = match expand(alloc, pattern) {
        Ok(alternatives) => alternatives,
        Err(BraceRefusal::Syntax(_)) => return Ok(()),
        Err(BraceRefusal::Memory) => return Err(AllocError),
    };
    for alternative in alternatives.as_slice() {
        if is_match(alloc, alternative.as_str(), text, question.options)? {
            let (pattern, text) = (Visible { text: pattern }, Visible { text });
            return writeln!(lines, "the pattern comes first: {pattern} matches {text}");
        }
    }
    Ok(())
}

/// Whether a text has a wildcard, a bracket or a brace.
fn has_wildcard(text: &str) -> bool {
    text.contains(['*', '?', '[', '{'].as_slice())
}
