//! Escapes texts for C.
ghost use Rattle.std.specs.Prelude.{◌≡◌, ◌≤◌, ◌<◌, IsUtf8, chars, length, take, drop};
ghost use Rattle.glob_pattern.specs.Escaping.{escaped_text};
ghost use Rattle.glob_c.specs.Answers.{done, syntax_fault, not_utf8, too_short};
ghost use Rattle.glob_c.specs.Escaped.{IsLengthOfEscaped};

use crate::pattern::{DONE, NOT_UTF8, OUT_OF_MEMORY};
use glob_pattern::Pattern;
use std::alloc::Global;

pub(crate) const TOO_SHORT: u32 = 4;

/// Writes the pattern that matches the text literally to the start of `out`, and its length in bytes to `needed`.
///
/// Returns 0; 2 if an allocation fails; 3 if the bytes are not UTF-8; or 4 if `out` is too short, and then `needed` is
/// the length that it must have. `out` changes only if 0 is returned.
#[unsafe(no_mangle)]
pub extern "C" fn cadmiumdove_pattern_escape(
    alloc: Global,
    text: &[u8],
    out: &mut [u8],
    needed: &mut usize,
) -> u32
    ensures range { result ≤ too_short }
    ensures no_fault { ¬ (result ≡ syntax_fault) }
    ensures fits { result ≡ done → needed.new ≤ length out.old }
    ensures written { result ≡ done →
        chars (take needed.new out.new) ≡ escaped_text (chars text.now) }
    ensures utf8 { result ≡ done → IsUtf8 (take needed.new out.new) }
    ensures rest { result ≡ done → drop needed.new out.new ≡ drop needed.new out.old }
    ensures kept { ¬ (result ≡ done) → out.new ≡ out.old }
    ensures short { result ≡ too_short → length out.old < needed.new }
    ensures needed { result ≡ too_short → IsLengthOfEscaped (chars text.now) needed.new }
    ensures not_utf8 { result ≡ not_utf8 → ¬ (IsUtf8 text.now) }
    ensures valid { ¬ (result ≡ not_utf8) → IsUtf8 text.now }
{
    let Ok(text) = str::from_utf8(text) else {
        return NOT_UTF8;
    };
    let Ok(escaped) = Pattern::escape(alloc, text) else {
        return OUT_OF_MEMORY;
    };
    let escaped = escaped.as_str();
    let bytes = escaped.as_bytes();
    *needed = bytes.len();
    if out.len() < bytes.len() {
        return TOO_SHORT;
    }
    out[..bytes.len()].copy_from_slice(bytes);
    DONE
}
