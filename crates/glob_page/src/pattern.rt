ghost use Rattle.std.specs.Prelude.{◌≡◌, ◌<◌, ◌≤◌, IsUtf8, chars, length, take};
ghost use Rattle.glob_pattern.specs.Grammar.Units.{IsAccepted};
ghost use Rattle.glob_pattern.specs.Grammar.Faults.{IsFault, kind_of, number_of};
ghost use Rattle.glob_page.specs.Answers.{fault, no, not_utf8, too_large, yes};

use crate::buffer::{FAULT, NOT_UTF8, OUT_OF_MEMORY, TOO_LARGE, YES, write};
use glob_pattern::{Pattern, PatternRefusal};
use std::alloc::Global;

/// Whether the bytes are a valid pattern: 1 if they are; 2 if not, with the place of the first fault, in characters
/// from 0, its message, and the number of its kind; 3 if an allocation fails, 4 if the bytes are not UTF-8, and 5 if
/// the message does not fit.
#[unsafe(no_mangle)]
pub extern "C" fn page_pattern(
    alloc: Global,
    pattern: &[u8],
    message: &mut [u8],
    count: &mut usize,
    place: &mut usize,
    kind: &mut u32,
) -> u32
    ensures range { result ≤ too_large }
    ensures some { ¬ (result ≡ no) }
    ensures utf8 { ¬ (result ≡ not_utf8) → IsUtf8 pattern.now }
    ensures accepted { result ≡ yes → IsAccepted (chars pattern.now) }
    ensures refused { result ≡ fault → IsFault (chars pattern.now)
        (record { place = place.new; message = take count.new message.new }) }
    ensures kind { result ≡ fault
        → kind.new ≡ number_of (kind_of (take count.new message.new)) }
    ensures fits { result ≡ fault → count.new ≤ length message.old }
    ensures not_utf8 { result ≡ not_utf8 → ¬ (IsUtf8 pattern.now) }
    ensures short { result ≡ too_large → length message.old < count.new }
{
    let Ok(text) = str::from_utf8(pattern) else {
        return NOT_UTF8;
    };
    match Pattern::new(alloc, text) {
        Ok(_) => YES,
        Err(PatternRefusal::Syntax(error)) => {
            *place = error.pos;
            *kind = error.kind().number();
            if write(error.msg.as_bytes(), message, count) {
                FAULT
            } else {
                TOO_LARGE
            }
        }
        Err(PatternRefusal::Memory) => OUT_OF_MEMORY,
    }
}
