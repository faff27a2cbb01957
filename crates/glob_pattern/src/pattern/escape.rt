//! Escaped texts: patterns that match the text they are made from.
ghost use Rattle.std.specs.Prelude.{◌≡◌, ◌++◌, IfOk, OnOk, chars, count_by, encode_utf8_all, string_bytes};
ghost use Rattle.glob_pattern.specs.Escaping.{is_special, escaped_character, escaped_text};

use crate::pattern::Pattern;
use std::alloc::{AllocError, Allocator};

impl<A: Allocator> Pattern<A> {
    /// Escapes a text to a pattern that matches it: puts each `?`, `*`, `[` and `]` in a bracket of its own, and keeps
    /// every other character. `a[1].rs` becomes `a[[]1[]].rs`. Fails only if allocation fails.
    ///
    /// ```text
    /// let escaped = Pattern::escape(alloc, "a[1].rs")?;
    /// assert_eq!(escaped, "a[[]1[]].rs");
    /// assert!(Pattern::new(alloc, escaped.as_str())?.matches("a[1].rs")?);
    /// ```
    pub fn escape(alloc: A, s: &str) -> Result<String<A>, AllocError>
        ensures { IfOk result
            (λ t. chars (string_bytes t) ≡ escaped_text (chars s.now)) }
    {
        let specials = count_special(s);
        if specials == 0 {
            return String::from_str(alloc, s);
        }
        // Each special character grows from one byte to three.
        let length = specials.saturating_mul(2).saturating_add(s.len());
        let mut escaped = String::with_capacity(alloc, length)?;
        for c in s.chars() {
            push_escaped(&mut escaped, c)?;
        }
        Ok(escaped)
    }
}

/// The number of special characters, each of one byte.
fn count_special(text: &str) -> usize
    ensures { result ≡ count_by is_special text.now }
{
    text.bytes()
        .filter(|byte| is_special(char::from(*byte)))
        .count()
}

/// Appends a character, escaped.
#[inline(always)]
fn push_escaped<A: Allocator>(escaped: &mut String<A>, c: char) -> Result<(), AllocError>
    ensures { OnOk result (string_bytes escaped.new
        ≡ string_bytes escaped.old ++ encode_utf8_all (escaped_character c)) }
{
    if !is_special(c) {
        return escaped.push(c);
    }
    escaped.push('[')?;
    escaped.push(c)?;
    escaped.push(']')
}

/// Whether the character is one of `?`, `*`, `[` and `]`.
fn is_special(c: char) -> bool
    ensures { result ≡ is_special c }
{
    matches!(c, '?' | '*' | '[' | ']')
}
