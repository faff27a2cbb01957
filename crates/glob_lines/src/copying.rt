//! The selected records of a reader, copied or rewritten as they come.
ghost use Rattle.std.specs.Prelude.{◌≡◌, ◌↔◌, ◌≤◌, ◌-◌, Bool, List, ℕ, false, length, take, drop, vec_len, IsTrue, IsErrAnd, IfOk, OnOk};
ghost use Rattle.std.specs.Io.KnownBytes.{IsAtEnd};
ghost use Rattle.glob_lines.specs.LineFaults.{IsRead, IsMemory, IsWrite};
ghost use Rattle.glob_lines.specs.Lines.{AreWhole, HasNoEnd, CopiesSelected, CopiesSomeSelected, CopiesSelectedBytes, CopiesWholeSelected};
ghost use Rattle.glob_lines.specs.Lines.{Rewrites, RewritesSome, RewritesBytes, RewritesWhole};

use crate::fault::LineFault;
use crate::lines::{read_piece, write_records};
use crate::rewriting::{Copied, Rewrite};
use crate::selection::Selection;
use crate::watch::Watch;
use std::alloc::Allocator;
use std::io::{Read, Write};

/// Copies the records of `reader` that the selection selects to `writer`, in order, and returns their number, which
/// stops at `u64::MAX`. The byte `end` ends a record and is written after each. What follows the last such byte is a
/// record if it is not empty.
///
/// For example, if the records that begin with `#` are selected and `end` is a line feed, the input `"#a\nb\n#c"` gives
/// the output `"#a\n#c\n"`, and the call returns 2.
///
/// The selected records of each read are written before the next read. Memory from `alloc` holds about 64 KiB of the
/// input, or its longest record, and the output gathered for a write. Neither the reader nor the writer may have failed
/// before. The errors are:
///
/// - [`LineFault::Read`]: a read failed, `Interrupted` included. All selected records whose end was read before were
///   written, and nothing else.
/// - [`LineFault::Memory`]: an allocation failed, for the input, the output or the selection. The first selected
///   records were written, perhaps none, each of them completely.
/// - [`LineFault::Write`]: a write failed, `Interrupted` included. The first bytes of the output were written,
///   perhaps none.
pub fn copy_selected<A: Allocator + Copy, S: Selection, R: Read, W: Write>(
    alloc: A,
    selection: &S,
    end: u8,
    reader: &mut Watch<R>,
    writer: &mut Watch<W>,
) -> Result<u64, LineFault>
    requires reader { reader.old.failed ≡ false }
    requires writer { writer.old.failed ≡ false }
    ensures records { IfOk result (CopiesSelected end (S.selects selection.now)
        (R.remaining reader.old.inner)
        (W.contents writer.old.inner) (W.contents writer.new.inner)) }
    ensures end { OnOk result (IsAtEnd (R.remaining reader.new.inner)) }
    ensures read_failed { IsTrue reader.new.failed ↔ IsErrAnd result IsRead }
    ensures write_failed { IsTrue writer.new.failed ↔ IsErrAnd result IsWrite }
    ensures read_fault { IsErrAnd result IsRead → CopiesWholeSelected end (S.selects selection.now)
        (R.remaining reader.old.inner) (R.remaining reader.new.inner)
        (W.contents writer.old.inner) (W.contents writer.new.inner) }
    ensures memory { IsErrAnd result IsMemory → CopiesSomeSelected end (S.selects selection.now)
        (R.remaining reader.old.inner) (W.contents writer.old.inner) (W.contents writer.new.inner) }
    ensures write_fault { IsErrAnd result IsWrite → CopiesSelectedBytes end (S.selects selection.now)
        (R.remaining reader.old.inner) (W.contents writer.old.inner) (W.contents writer.new.inner) }
{
    rewrite_selected(alloc, &mut Copied { selection, end }, end, reader, writer)
}

/// Writes to `writer` what `rewrite` gives for each record of `reader` that it selects, in order, and returns the
/// number of these records, which stops at `u64::MAX`. The byte `end` ends a record of the input. What follows the last
/// such byte is a record if it is not empty.
///
/// For example, if `rewrite` gives `"<", the record, ">"` for those that begin with `#`, and `end` is a line feed, the
/// input `"#a\nb\n#c"` gives the output `"<#a><#c>"`, and the call returns 2.
///
/// What is written for the records of each read is written before the next read. Memory and errors are those of
/// [`copy_selected`].
#[tactic(auto, unfolding(crate::specs::Lines::Rewrites))]
pub fn rewrite_selected<A: Allocator + Copy, S: Rewrite, R: Read, W: Write>(
    alloc: A,
    rewrite: &mut S,
    end: u8,
    reader: &mut Watch<R>,
    writer: &mut Watch<W>,
) -> Result<u64, LineFault>
    requires reader { reader.old.failed ≡ false }
    requires writer { writer.old.failed ≡ false }
    ensures keeps { (selects : List ℕ → Bool) (write : List ℕ → List ℕ)
        → S.gives rewrite.old selects write → S.gives rewrite.new selects write }
    ensures records { (selects : List ℕ → Bool) (write : List ℕ → List ℕ)
        → S.gives rewrite.old selects write → IfOk result (Rewrites end selects write
        (R.remaining reader.old.inner)
        (W.contents writer.old.inner) (W.contents writer.new.inner)) }
    ensures end { OnOk result (IsAtEnd (R.remaining reader.new.inner)) }
    ensures read_failed { IsTrue reader.new.failed ↔ IsErrAnd result IsRead }
    ensures write_failed { IsTrue writer.new.failed ↔ IsErrAnd result IsWrite }
    ensures read_fault { (selects : List ℕ → Bool) (write : List ℕ → List ℕ)
        → S.gives rewrite.old selects write → IsErrAnd result IsRead
        → RewritesWhole end selects write
        (R.remaining reader.old.inner) (R.remaining reader.new.inner)
        (W.contents writer.old.inner) (W.contents writer.new.inner) }
    ensures memory { (selects : List ℕ → Bool) (write : List ℕ → List ℕ)
        → S.gives rewrite.old selects write → IsErrAnd result IsMemory
        → RewritesSome end selects write
        (R.remaining reader.old.inner) (W.contents writer.old.inner) (W.contents writer.new.inner) }
    ensures write_fault { (selects : List ℕ → Bool) (write : List ℕ → List ℕ)
        → S.gives rewrite.old selects write → IsErrAnd result IsWrite
        → RewritesBytes end selects write
        (R.remaining reader.old.inner) (W.contents writer.old.inner) (W.contents writer.new.inner) }
{
    let mut input = Vec::new(alloc);
    let mut output = Vec::new(alloc);
    // The length of the incomplete record at the front of `input`.
    let mut partial = 0;
    let mut count = 0u64;
    // Never reached; the loop needs a bound, since nothing says that a reader comes to an end.
    for _ in 0..u64::MAX {
        let len = read_piece(&mut input, partial, reader)?;
        if len == 0 {
            let last = write_records(rewrite, end, &input[..partial], &mut output, writer)?;
            return Ok(count.saturating_add(last));
        }
        let filled = partial + len;
        let whole = whole_len(&input[..filled], partial, end);
        let copied = write_records(rewrite, end, &input[..whole], &mut output, writer)?;
        count = count.saturating_add(copied);
        move_front(&mut input, whole, filled);
        partial = filled - whole;
    }
    Err(LineFault::Memory)
}

/// How many of the bytes are complete records with their ends. The first `partial` bytes have no end among them.
fn whole_len(bytes: &[u8], partial: usize, end: u8) -> usize
    requires within { partial ≤ length bytes.now }
    requires partial { HasNoEnd end (take partial bytes.now) }
    ensures bound { result ≤ length bytes.now }
    ensures whole { AreWhole end (take result bytes.now) }
    ensures rest { HasNoEnd end (drop result bytes.now) }
{
    let mut len = bytes.len();
    while len > partial {
        if bytes[len - 1] == end {
            return len;
        }
        len -= 1;
    }
    0
}

/// Moves the bytes `start..end` to the front.
fn move_front<A: Allocator>(bytes: &mut Vec<u8, A>, start: usize, end: usize)
    requires order { start ≤ end }
    requires within { end ≤ vec_len bytes.old }
    ensures moved { take (end - start) bytes.new.items ≡ drop start (take end bytes.old.items) }
    ensures len { vec_len bytes.new ≡ vec_len bytes.old }
{
    // Skip no-op moves: they would make a long record, which takes many reads, cost quadratic time.
    if start == 0 {
        return;
    }
    bytes.copy_within(start..end, 0);
}
