//! Writes whole texts.
ghost use Rattle.std.specs.Prelude.{◌≡◌, ◌≤◌, codes};
ghost use Rattle.glob_console.specs.Lines.{WritesLine};
ghost use Rattle.glob_console.specs.Outcomes.{WritesText};

use crate::error_lines::ErrorLines;
use crate::status::FOUND;
use glob_lines::write_whole;
use std::alloc::Allocator;
use std::io::Write;

/// Writes the whole text, and returns the exit status: 0, or 2 after a line that says that the write failed.
#[tactic(auto, unfolding(crate::specs::Outcomes::WritesText))]
pub fn write_text<A: Allocator + Copy, W: Write, E: Write>(
    text: &str,
    output: &mut W,
    errors: &mut ErrorLines<'_, A, E>,
) -> u8
    ensures most { result ≤ 2 }
    ensures written { WritesText text.now (W.contents output.old) (W.contents output.new) result }
    ensures line { WritesLine errors.old.prefix.now (codes "writing failed")
        (E.contents errors.old.writer.now) (E.contents errors.new.writer.now) }
    ensures silent { result ≡ 0
        → E.contents errors.new.writer.now ≡ E.contents errors.old.writer.now }
    ensures prefix { errors.new.prefix.now ≡ errors.old.prefix.now }
    ensures quiet { errors.new.is_quiet ≡ errors.old.is_quiet }
{
    match write_whole(output, text.as_bytes()) {
        Ok(()) => FOUND,
        Err(error) => errors.write_fault(&error),
    }
}
