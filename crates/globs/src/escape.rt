//! `globs escape`: writes patterns that match given texts literally.
ghost use Rattle.std.specs.Prelude.{◌≡◌, ◌≤◌, IfOk, map, string_bytes};
ghost use Rattle.globs.specs.Escaping.{AreEscaped, WritesEscaped};

use glob_console::{ErrorLines, write_text};
use glob_set::braces::escape;
use std::alloc::{AllocError, Allocator};
use std::io::Write;

/// Writes a record for each text: the pattern that matches only this text, with braces escaped too, and the character
/// `end`. Returns the status.
///
/// With a line feed the texts `*.rs` and `{a}` are written as `"[*].rs\n[{]a[}]\n"`.
pub fn run_escape<A: Allocator + Copy, W: Write, E: Write>(
    alloc: A,
    end: u8,
    texts: &[&str],
    output: &mut W,
    errors: &mut ErrorLines<'_, A, E>,
) -> u8
    ensures most { result ≤ 2 }
    ensures escaped { WritesEscaped end (map (λ t. t.now) texts.now)
        (W.contents output.old) (W.contents output.new) result }
{
    match escaped_records(alloc, end, texts) {
        Ok(records) => write_text(records.as_str(), output, errors),
        Err(_) => errors.memory_fault(),
    }
}

/// The escaped texts, each with the character `end`.
fn escaped_records<A: Allocator + Copy>(
    alloc: A,
    end: u8,
    texts: &[&str],
) -> Result<String<A>, AllocError>
    ensures { IfOk result (λ records.
        AreEscaped end (map (λ t. t.now) texts.now) (string_bytes records)) }
{
    let mut records = String::new(alloc);
    for text in texts {
        let pattern = escape(alloc, text)?;
        records.push_str(pattern.as_str())?;
        records.push(char::from(end))?;
    }
    Ok(records)
}
