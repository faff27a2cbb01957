//! Copies matching records in the order in which they are read.
ghost use Rattle.std.specs.Prelude.{◌≡◌, ◌↔◌, ◌<◌, ◌≤◌, ◌+◌, ◌∷◌, ◌++◌, Bool, List, ℕ, false, length, take, drop, vec_len, IsTrue};
ghost use Rattle.std.specs.Prelude.{IsErr, IsErrAnd, IfOk, OnOk, OnErr};
ghost use Rattle.std.specs.Io.KnownBytes.{Keeps, Appends, Consumes, IsAtEnd};
ghost use Rattle.glob_lines.specs.LineFaults.{IsRead, IsMemory, IsWrite};
ghost use Rattle.glob_lines.specs.Lines.{records_of, AppendsFront, Selected, WritesEach, FiltersRecords};
ghost use Rattle.glob_lines.specs.Lines.{FiltersSomeRecords, FiltersRecordBytes, FiltersLines, FiltersSomeLines};
ghost use Rattle.glob_lines.specs.Lines.{FiltersSomeBytes};
ghost use Rattle.glob_lines.specs.Private.Fronts.{WritesFrontRecords, WritesFrontBytes};
ghost use Rattle.glob_lines.specs.Private.Gathering.{IsGathered};

use crate::fault::LineFault;
use crate::matching::Matching;
use crate::record_ends::first_end;
use crate::rewriting::{Copied, Rewrite};
use crate::watch::Watch;
use glob_pattern::{MatchOptions, Pattern};
use std::alloc::Allocator;
use std::io::{Read, Write};

/// How many bytes a full input buffer grows by.
const READ_LEN: usize = 64 * 1024;

/// How many bytes of output are gathered before a write.
const WRITE_LEN: usize = 64 * 1024;

/// Copies the lines of `reader` that `pattern` matches to `writer`, in order, each with a line feed, and returns their
/// number, which stops at `u64::MAX`.
///
/// A line feed ends a line, and what follows the last one is a line if it is not empty. A carriage return is part of
/// its line. A line that is not UTF-8 never matches. For example, with the pattern `a*` the input `"ab\nb\nac"` gives
/// the output `"ab\nac\n"`, and the call returns 2.
///
/// The input is read to its end, into memory from `alloc`, before anything is written. Neither the reader nor the
/// writer may have failed before. The errors are:
///
/// - [`LineFault::Read`]: a read failed, `Interrupted` included. Nothing was written.
/// - [`LineFault::Memory`]: an allocation failed, for the input, the output or a match. The first matching lines were
///   written, perhaps none, each of them completely.
/// - [`LineFault::Write`]: a write failed, `Interrupted` included. The first bytes of the output were written,
///   perhaps none.
pub fn filter_lines<A: Allocator + Copy, B: Allocator + Copy, R: Read, W: Write>(
    alloc: A,
    pattern: &Pattern<B>,
    options: MatchOptions,
    reader: &mut Watch<R>,
    writer: &mut Watch<W>,
) -> Result<u64, LineFault>
    requires reader { reader.old.failed ≡ false }
    requires writer { writer.old.failed ≡ false }
    ensures lines { IfOk result (FiltersLines options pattern.now
        (R.remaining reader.old.inner)
        (W.contents writer.old.inner) (W.contents writer.new.inner)) }
    ensures end { OnOk result (IsAtEnd (R.remaining reader.new.inner)) }
    ensures read_failed { IsTrue reader.new.failed ↔ IsErrAnd result IsRead }
    ensures write_failed { IsTrue writer.new.failed ↔ IsErrAnd result IsWrite }
    ensures read_fault { IsErrAnd result IsRead
        → Keeps (W.contents writer.old.inner) (W.contents writer.new.inner) }
    ensures memory { IsErrAnd result IsMemory → FiltersSomeLines options pattern.now
        (R.remaining reader.old.inner) (W.contents writer.old.inner) (W.contents writer.new.inner) }
    ensures write_fault { IsErrAnd result IsWrite → FiltersSomeBytes options pattern.now
        (R.remaining reader.old.inner) (W.contents writer.old.inner) (W.contents writer.new.inner) }
{
    filter_records(alloc, pattern, options, b'\n', reader, writer)
}

/// Copies the records of `reader` that `pattern` matches to `writer`, as [`filter_lines`] does with lines. The byte
/// `end` ends a record and is written after each. What follows the last such byte is a record if it is not empty.
///
/// For example, with the pattern `a*` and the end `0` the input `"a\nb\0b\0"` gives the output `"a\nb\0"`, and the call
/// returns 1: a line feed is an ordinary character here. The errors are those of `filter_lines`.
pub fn filter_records<A: Allocator + Copy, B: Allocator + Copy, R: Read, W: Write>(
    alloc: A,
    pattern: &Pattern<B>,
    options: MatchOptions,
    end: u8,
    reader: &mut Watch<R>,
    writer: &mut Watch<W>,
) -> Result<u64, LineFault>
    requires reader { reader.old.failed ≡ false }
    requires writer { writer.old.failed ≡ false }
    ensures records { IfOk result (FiltersRecords end options pattern.now
        (R.remaining reader.old.inner)
        (W.contents writer.old.inner) (W.contents writer.new.inner)) }
    ensures end { OnOk result (IsAtEnd (R.remaining reader.new.inner)) }
    ensures read_failed { IsTrue reader.new.failed ↔ IsErrAnd result IsRead }
    ensures write_failed { IsTrue writer.new.failed ↔ IsErrAnd result IsWrite }
    ensures read_fault { IsErrAnd result IsRead
        → Keeps (W.contents writer.old.inner) (W.contents writer.new.inner) }
    ensures memory { IsErrAnd result IsMemory → FiltersSomeRecords end options pattern.now
        (R.remaining reader.old.inner) (W.contents writer.old.inner) (W.contents writer.new.inner) }
    ensures write_fault { IsErrAnd result IsWrite → FiltersRecordBytes end options pattern.now
        (R.remaining reader.old.inner) (W.contents writer.old.inner) (W.contents writer.new.inner) }
{
    let input = read_all(alloc, reader)?;
    let mut output = Vec::new(alloc);
    let matching = Matching { pattern, options };
    let mut copied = Copied {
        selection: &matching,
        end,
    };
    write_records(&mut copied, end, &input, &mut output, writer)
}

/// Reads all bytes that are left in the reader.
fn read_all<A: Allocator + Copy, R: Read>(
    alloc: A,
    reader: &mut Watch<R>,
) -> Result<Vec<u8, A>, LineFault>
    requires { reader.old.failed ≡ false }
    ensures bytes { IfOk result (λ input.
        Consumes (R.remaining reader.old.inner) (R.remaining reader.new.inner) input.items) }
    ensures end { OnOk result (IsAtEnd (R.remaining reader.new.inner)) }
    ensures failed { IsTrue reader.new.failed ↔ IsErrAnd result IsRead }
    ensures no_write { ¬ (IsErrAnd result IsWrite) }
{
    let mut input = Vec::new(alloc);
    let mut filled = 0;
    loop {
        let len = read_piece(&mut input, filled, reader)?;
        if len == 0 {
            input.truncate(filled);
            return Ok(input);
        }
        filled += len;
    }
}

/// Reads once into `input` from byte `filled` on, and returns how many bytes were read. If `input` is full, it first
/// grows by `READ_LEN` zeros.
pub(crate) fn read_piece<A: Allocator, R: Read>(
    input: &mut Vec<u8, A>,
    filled: usize,
    reader: &mut Watch<R>,
) -> Result<usize, LineFault>
    requires watch { reader.old.failed ≡ false }
    requires filled { filled ≤ vec_len input.old }
    ensures front { take filled input.new.items ≡ take filled input.old.items }
    ensures fits { IfOk result (λ n. filled + n ≤ vec_len input.new) }
    ensures bytes { IfOk result (λ n.
        Consumes (R.remaining reader.old.inner) (R.remaining reader.new.inner)
        (take n (drop filled input.new.items))) }
    ensures end { IfOk result (λ n. n ≡ 0 → IsAtEnd (R.remaining reader.new.inner)) }
    ensures kept { OnErr result
        (Keeps (R.remaining reader.old.inner) (R.remaining reader.new.inner)) }
    ensures failed { IsTrue reader.new.failed ↔ IsErrAnd result IsRead }
    ensures no_write { ¬ (IsErrAnd result IsWrite) }
{
    if filled == input.len() {
        input.resize(filled + READ_LEN, 0)?;
    }
    reader.read(&mut input[filled..]).map_err(LineFault::Read)
}

/// Writes what `rewrite` gives for each record of the input that it selects, and returns the number of these records.
/// `output` is a scratch buffer: its bytes before and after the call mean nothing.
pub(crate) fn write_records<A: Allocator, S: Rewrite, W: Write>(
    rewrite: &mut S,
    end: u8,
    input: &[u8],
    output: &mut Vec<u8, A>,
    writer: &mut Watch<W>,
) -> Result<u64, LineFault>
    requires { writer.old.failed ≡ false }
    ensures keeps { (selects : List ℕ → Bool) (write : List ℕ → List ℕ)
        → S.gives rewrite.old selects write → S.gives rewrite.new selects write }
    ensures records { (selects : List ℕ → Bool) (write : List ℕ → List ℕ)
        → S.gives rewrite.old selects write
        → IfOk result (WritesEach end write (Selected selects) input.now
        (W.contents writer.old.inner) (W.contents writer.new.inner)) }
    ensures failed { IsTrue writer.new.failed ↔ IsErrAnd result IsWrite }
    ensures no_read { ¬ (IsErrAnd result IsRead) }
    ensures memory { (selects : List ℕ → Bool) (write : List ℕ → List ℕ)
        → S.gives rewrite.old selects write → IsErrAnd result IsMemory
        → WritesFrontRecords end write (Selected selects) input.now
        (W.contents writer.old.inner) (W.contents writer.new.inner) }
    ensures write_fault { (selects : List ℕ → Bool) (write : List ℕ → List ℕ)
        → S.gives rewrite.old selects write → IsErrAnd result IsWrite
        → WritesFrontBytes end write (Selected selects) input.now
        (W.contents writer.old.inner) (W.contents writer.new.inner) }
{
    output.clear();
    let mut count = 0u64;
    let mut rest = input;
    while !rest.is_empty() {
        let (first, after) = split_record(rest, end);
        if rewrite.rewrite(first, output)? {
            write_long(output, writer)?;
            count = count.saturating_add(1);
        }
        rest = after;
    }
    writer.write_all(output).map_err(LineFault::Write)?;
    Ok(count)
}

/// The first record of `bytes`, and the bytes after its end.
fn split_record(bytes: &[u8], end: u8) -> (&[u8], &[u8])
    requires { 0 < length bytes.now }
    ensures records { records_of end bytes.now ≡ result.0.now ∷ records_of end result.1.now }
    ensures shorter { length result.1.now < length bytes.now }
{
    match first_end(bytes, end) {
        Some(place) => (&bytes[..place], &bytes[place + 1..]),
        None => (bytes, &[]),
    }
}

/// Writes and empties `output` once it is long.
#[inline]
fn write_long<A: Allocator, W: Write>(
    output: &mut Vec<u8, A>,
    writer: &mut Watch<W>,
) -> Result<(), LineFault>
    requires { writer.old.failed ≡ false }
    ensures ok { OnOk result (IsGathered output.old.items output.new.items
        (W.contents writer.old.inner) (W.contents writer.new.inner)) }
    ensures no_memory { ¬ (IsErrAnd result IsMemory) }
    ensures write_fault { IsErrAnd result IsWrite → AppendsFront (W.contents writer.old.inner)
        (W.contents writer.new.inner) output.old.items }
    ensures failed { IsTrue writer.new.failed ↔ IsErrAnd result IsWrite }
    ensures no_read { ¬ (IsErrAnd result IsRead) }
{
    if output.len() >= WRITE_LEN {
        writer.write_all(output).map_err(LineFault::Write)?;
        output.clear();
    }
    Ok(())
}
