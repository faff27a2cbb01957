//! What each public error prints, except those of a walk and of a pattern.
use glob::{LineFault, ListError, Pattern, PatternError, PatternRefusal, TreeRefusal};
use glob_captures::CapturesError;
use glob_set::braces::BraceRefusal;
use glob_set::{BraceSetRefusal, SetRefusal};
use std::io::{self, ErrorKind};
use std::test::Fail;

/// A fault prints its place in digits; in a set, the number of the text comes before it. A listing's error prints as
/// its I/O error.
#[test]
fn errors_and_patterns_are_printed(rt: HostRuntime) -> Result<(), Fail> {
    let (pos, msg) = (usize::MAX, "\u{e9}\u{20ac}\u{10fffe}");
    let fault = PatternError { pos, msg };
    let refusal = PatternRefusal::Syntax(PatternError { pos, msg });
    let numbered = SetRefusal::Syntax(12, PatternError { pos, msg });
    let error = io::Error::new(ErrorKind::Interrupted, "words");
    let (read, write) = (LineFault::Read(error), LineFault::Write(error));
    let pattern = Pattern::new(rt.alloc(), "src/**/[!a-\u{e9}]?*.rs/")?;
    let printed = format!(in rt.alloc();
        "{fault}<{refusal}<{numbered}<{read}<{write}<{pattern}<{}<{}<{}<{}<{}<{}<{}<{}<{}<{}<{}<{}<{}<{}<",
        ListError::Read(error),
        TreeRefusal::Improper,
        TreeRefusal::NoParent,
        TreeRefusal::Taken,
        TreeRefusal::NoDirectory,
        CapturesError::TooLarge,
        PatternRefusal::Memory,
        BraceRefusal::Memory,
        BraceSetRefusal::Memory,
        SetRefusal::Memory,
        CapturesError::Memory,
        LineFault::Memory,
        ListError::Memory,
        TreeRefusal::Memory
    )?;
    let line = "Pattern syntax error near position 18446744073709551615: \u{e9}\u{20ac}\u{10fffe}<";
    let words = "reading failed<writing failed<src/**/[!a-\u{e9}]?*.rs/<words<improper path<\
        no parent directory<path already exists<not a directory<\
        the pattern's tokens times the text's bytes are more than 67108864<";
    let memory = "out of memory<".repeat(rt.alloc(), 8)?;
    let known = format!(in rt.alloc(); "{line}{line}pattern 12: {line}{words}{memory}")?;
    assert_eq!(rt; printed, known);
    Ok(())
}
