//! Why a pattern is refused.
ghost use Rattle.std.specs.Prelude.{◌≡◌, ◌++◌, List, ℕ, IfOk, string_bytes};
ghost use Rattle.globs.specs.Explain.Offers.{IsOffer};

use crate::explain::explanation::Question;
use crate::explain::instead::valid_forms;
use crate::explain::offers::offer_line;
use crate::patterns::message_of;
use crate::visible::{Caret, Visible};
use glob_pattern::PatternError;
use std::alloc::{AllocError, Allocator};

/// Explains why `Pattern::new` refused a pattern with this error, in five lines: the fault, the pattern, a caret under
/// the character at fault, what to write instead, and where to find help. If the pattern comes from braces, the word
/// comes before the fault. The last line has no line feed. The error is an allocation failure.
///
/// For `a[b` they are `unclosed [`, `a[b`, a caret below the `[`, `write instead: a[[]b` and `try globs help explain`.
pub fn explain_refusal<A: Allocator + Copy>(
    alloc: A,
    question: Question<'_>,
    pattern: &str,
    error: PatternError,
) -> Result<String<A>, AllocError>
    ensures { IfOk result (λ lines. (front : List ℕ) × (offer : List ℕ) × (back : List ℕ)
        × IsOffer question.entry.options question.entry.text.now offer
        × (string_bytes lines ≡ front ++ (offer ++ back))) }
{
    let fault = fault_lines(alloc, question.word, pattern, error)?;
    let forms = valid_forms(alloc, pattern, question.options)?;
    let offer = offer_line(alloc, forms.as_slice(), question.text, question.options)?;
    let general = if offer.is_empty() {
        "write [[] for the character [, and ** as a whole component\n"
    } else {
        ""
    };
    format!(in alloc; "{fault}{offer}{general}try globs help explain")
}

/// The fault, the pattern, and a caret under the character at fault.
fn fault_lines<A: Allocator + Copy>(
    alloc: A,
    word: &str,
    pattern: &str,
    error: PatternError,
) -> Result<String<A>, AllocError> {
    let caret = Caret {
        text: pattern,
        column: error.pos,
    };
    let message = message_of(error.kind());
    if word == pattern {
        return format!(in alloc; "{message}\n{caret}\n");
    }
    let word = Visible { text: word };
    format!(in alloc; "`{word}`: {message}\n{caret}\n")
}
