//! Escaped texts: patterns with braces that match the text they are made from.
ghost use Rattle.std.specs.Prelude.{◌≡◌, IfOk, OnOk, ◌++◌, chars, encode_utf8_all, string_bytes};
ghost use Rattle.glob_set.specs.BraceEscaping.{StandsFor, escaped_character, escaped_text, is_special};

use std::alloc::{AllocError, Allocator};

/// Escapes a text to a pattern with braces that matches it: puts each `?`, `*`, `[`, `]`, `{` and `}` in a bracket of
/// its own, and keeps every other character. `{a}*` becomes `[{]a[}][*]`, which [`expand`](crate::braces::expand)
/// returns as its only alternative. Fails only if allocation fails.
pub fn escape<A: Allocator>(alloc: A, text: &str) -> Result<String<A>, AllocError>
    ensures escaped { IfOk result
        (λ escaped. chars (string_bytes escaped) ≡ escaped_text (chars text.now)) }
    ensures stands { IfOk result (λ escaped. StandsFor (string_bytes escaped) text.now) }
{
    let mut escaped = String::new(alloc);
    for c in text.chars() {
        push_escaped(&mut escaped, c)?;
    }
    Ok(escaped)
}

/// Appends a character, escaped.
fn push_escaped<A: Allocator>(escaped: &mut String<A>, c: char) -> Result<(), AllocError>
    ensures { OnOk result (string_bytes escaped.new
        ≡ string_bytes escaped.old ++ encode_utf8_all (escaped_character c)) }
{
    if !is_special(c) {
        return escaped.push(c);
    }
    escaped.push('[')?;
    escaped.push(c)?;
    escaped.push(']')
}

/// Whether the character has a meaning in patterns or braces.
fn is_special(c: char) -> bool
    ensures { result ≡ is_special c }
{
    matches!(c, '?' | '*' | '[' | ']' | '{' | '}')
}
