//! Copies records of the input, or writes something for each.
ghost use Rattle.std.specs.Prelude.{◌≡◌, ◌≤◌, Bool, List, ℕ, false, IfOk, IsErr, IsTrue, OnErr, OnOk};
ghost use Rattle.std.specs.Io.KnownBytes.{IsAtEnd};
ghost use Rattle.glob_lines.specs.Lines.{Rewrites, RewritesBytes, RewritesWhole};
ghost use Rattle.globs.specs.Copying.{Copies, WritesSelected, input_of};

use glob_console::{Borrowed, ErrorLines, FOUND, UNFOUND};
use glob_lines::{Copied, LineFault, Rewrite, Selection, Watch, rewrite_selected};
use std::alloc::Allocator;
use std::io::{Read, Write};

/// Copies the selected records of the input, which end in `end`, and returns the status: 0 if records were copied, 1 if
/// not, and 2 after a fault, which is reported on `errors` unless the reader closed the output.
///
/// With the input `"a.o\na.c\n"`, a selection of records that end in `c` writes `"a.c\n"`.
pub fn copy<A: Allocator + Copy, S: Selection, R: Read, W: Write, E: Write>(
    alloc: A,
    selection: &S,
    end: u8,
    input: &mut Watch<R>,
    output: &mut W,
    errors: &mut ErrorLines<'_, A, E>,
) -> u8
    requires { input.old.failed ≡ false }
    ensures most { result ≤ 2 }
    ensures copied { Copies end (S.selects selection.now) (input_of R.remaining input.old input.new)
        (W.contents output.old) (W.contents output.new) result }
{
    let mut copied = Copied { selection, end };
    write_selected(alloc, &mut copied, end, input, output, errors)
}

/// Writes what `rewrite` gives for each record of the input that it selects, and returns the status, as [`copy`] does.
/// A record of the input ends in `end`.
#[tactic(auto, unfolding(crate::specs::Copying::WritesSelected))]
pub fn write_selected<A: Allocator + Copy, S: Rewrite, R: Read, W: Write, E: Write>(
    alloc: A,
    rewrite: &mut S,
    end: u8,
    input: &mut Watch<R>,
    output: &mut W,
    errors: &mut ErrorLines<'_, A, E>,
) -> u8
    requires { input.old.failed ≡ false }
    ensures most { result ≤ 2 }
    ensures written { (selects : List ℕ → Bool) (write : List ℕ → List ℕ)
        → S.gives rewrite.old selects write → WritesSelected end selects write
        (input_of R.remaining input.old input.new)
        (W.contents output.old) (W.contents output.new) result }
{
    match write_input(alloc, rewrite, end, input, output) {
        Ok(0) => UNFOUND,
        Ok(_) => FOUND,
        Err(LineFault::Write(error)) => errors.write_fault(&error),
        Err(line_fault) => errors.fault(line_fault),
    }
}

/// Writes what `rewrite` gives for each selected record, and returns the number of these records. After an error, the
/// first bytes of the output were written.
fn write_input<A: Allocator + Copy, S: Rewrite, R: Read, W: Write>(
    alloc: A,
    rewrite: &mut S,
    end: u8,
    input: &mut Watch<R>,
    output: &mut W,
) -> Result<u64, LineFault>
    requires { input.old.failed ≡ false }
    ensures records { (selects : List ℕ → Bool) (write : List ℕ → List ℕ)
        → S.gives rewrite.old selects write → IfOk result (Rewrites end selects write
        (R.remaining input.old.inner) (W.contents output.old) (W.contents output.new)) }
    ensures end { OnOk result (IsAtEnd (R.remaining input.new.inner)) }
    ensures some { (selects : List ℕ → Bool) (write : List ℕ → List ℕ)
        → S.gives rewrite.old selects write → OnErr result (RewritesBytes end selects write
        (R.remaining input.old.inner) (W.contents output.old) (W.contents output.new)) }
    ensures failed { IsTrue input.new.failed → IsErr result }
    ensures whole { (selects : List ℕ → Bool) (write : List ℕ → List ℕ)
        → S.gives rewrite.old selects write → IsTrue input.new.failed
        → RewritesWhole end selects write
        (R.remaining input.old.inner) (R.remaining input.new.inner)
        (W.contents output.old) (W.contents output.new) }
{
    let mut writer = Watch::new(Borrowed { writer: output });
    let answer = rewrite_selected(alloc, rewrite, end, input, &mut writer);
    let Borrowed { writer: output } = writer.into_inner();
    // This has no effect at run time: the proof needs the contents of the output here.
    let _ = &*output;
    answer
}
