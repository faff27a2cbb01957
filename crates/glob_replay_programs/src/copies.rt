//! Rows about copied records: `SELECTION | END | READER | WRITER | INPUT`, with what is copied, and how often the
//! reader and the writer are called.
ghost use Rattle.std.specs.Prelude.{◌==◌, slice_index_or};

use glob_lines::{LineFault, Selection, Watch, copy_selected, filter_lines, filter_records};
use glob_pattern::MatchOptions;
use glob_replay::calls::Calls;
use glob_replay::ration::Memory;
use glob_replay::streams::{Stream, Trouble};
use glob_replay::words::{are_same, out_of_memory, pattern_of, unusable};
use std::alloc::{AllocError, Global};
use std::io::{self, ErrorKind, Write};

/// Selects the records that begin with `#`. Runs out of memory at one that begins with `!`.
#[derive(Drop)]
struct Marked;

impl Selection for Marked {
    ghost selects = { λ m bytes. slice_index_or bytes 0 0 == 35 };

    fn selects(&self, bytes: &[u8]) -> Result<bool, AllocError> {
        match bytes {
            [b'#', ..] => Ok(true),
            [b'!', ..] => Err(AllocError),
            _ => Ok(false),
        }
    }
}

/// The result of a copy: its answer, the number of bytes, whether the reader and the writer failed, and both of them.
#[derive(Drop)]
struct Copied<'a> {
    answer: Result<u64, LineFault>,
    len: usize,
    failed: (bool, bool),
    reader: Stream<'a>,
    writer: Stream<'a>,
}

/// Copies records from the reader to the writer of a row: the `marked` ones, or the ones that the pattern matches. If
/// they end in a line feed, they are copied as lines.
fn copy<'a, M: Memory>(alloc: M, row: &[&'a str]) -> io::Result<Copied<'a>> {
    let [selection, end, reading, writing, input] = *row else {
        return Err(unusable());
    };
    let end = end.bytes().next().ok_or(unusable())?;
    let mut reader = Watch::new(Stream::new(alloc.inner(), input.as_bytes(), reading)?);
    let mut writer = Watch::new(Stream::new(alloc.inner(), b"", writing)?);
    let answer = if selection == "marked" {
        copy_selected(alloc, &Marked, end, &mut reader, &mut writer)
    } else {
        let (pattern, options) = (pattern_of(alloc, selection)?, MatchOptions::new());
        match end {
            b'\n' => filter_lines(alloc, &pattern, options, &mut reader, &mut writer),
            _ => filter_records(alloc, &pattern, options, end, &mut reader, &mut writer),
        }
    };
    Ok(Copied {
        answer,
        len: input.len(),
        failed: (reader.failed(), writer.failed()),
        reader: reader.into_inner(),
        writer: writer.into_inner(),
    })
}

/// Copies as a row says. Adds the output, the number of records or what failed, and, if few bytes move in a call, the
/// number of reads and writes.
pub fn add_copy<M: Memory>(calls: &mut Calls<M>, row: &[&str]) -> io::Result<()> {
    let (alloc, words) = (calls.alloc, &mut calls.words);
    let copied = copy(alloc, row)?;
    words.push_str(copied.writer.text()?)?;
    match &copied.answer {
        Ok(count) => write!(words, " {count}")?,
        Err(LineFault::Memory) if alloc.ration().has_refused() => return Err(out_of_memory()),
        Err(fault) => write!(words, " {fault}")?,
    }
    if !is_its_fault(alloc.inner(), &copied)? {
        words.push_str(" otherwise")?;
    }
    add_calls(&copied, words)
}

/// Whether only the stream that the answer names failed, with the error that the row gives it.
fn is_its_fault(alloc: Global, copied: &Copied<'_>) -> Result<bool, AllocError> {
    let (trouble, error, failed) = match &copied.answer {
        Err(LineFault::Read(error)) => (copied.reader.trouble, error, (true, false)),
        Err(LineFault::Write(error)) => (copied.writer.trouble, error, (false, true)),
        _ => return Ok(copied.failed == (false, false)),
    };
    let known = match trouble {
        Trouble::Errs(_, known) => known,
        _ => io::Error::from(ErrorKind::WriteZero),
    };
    Ok(copied.failed == failed && are_same(alloc, error, &known)?)
}

/// Adds the number of reads and writes if few bytes move in a call; otherwise only if it is higher than needed.
fn add_calls(copied: &Copied<'_>, words: &mut String) -> io::Result<()> {
    let (reader, writer) = (&copied.reader, &copied.writer);
    let are_few = reader.calls <= most_calls(copied.len, reader.most)
        && writer.calls <= most_calls(writer.written.len(), writer.most);
    if reader.most >= 100 && are_few {
        return Ok(());
    }
    Ok(write!(words, " {} {}", reader.calls, writer.calls)?)
}

/// The most calls for `len` bytes, in pieces of 64 KiB, if a call moves at most `most` bytes: the full calls, one call
/// that is not full for each piece and for the rest, and a read of nothing or a write of the last record.
fn most_calls(len: usize, most: usize) -> u64 {
    let full = len / most.max(1);
    (full as u64).saturating_add(len as u64 / 65_536 + 2)
}
