//! Writes all bytes, in as many writes as needed.
ghost use Rattle.std.specs.Prelude.{◌<◌, length, IfOk, OnOk, OnErr};
ghost use Rattle.std.specs.Io.{WritesAtMost};
ghost use Rattle.std.specs.Io.KnownBytes.{Appends, WriteAppends};
ghost use Rattle.glob_lines.specs.Lines.{AppendsFront};

use std::io::{self, ErrorKind, Write};

/// Writes all bytes, in as many writes as needed: `abc` in two, if the writer accepts two bytes a call. A write that
/// fails with `Interrupted`, for example because of a signal, is retried.
///
/// Any other failed write ends the call with its error. So does a writer that accepts none of the bytes that are left,
/// with an error of the kind `WriteZero`. Then the first bytes were written, perhaps none; `Write::write_all` promises
/// nothing about them.
pub fn write_whole<W: Write>(writer: &mut W, bytes: &[u8]) -> io::Result<()>
    ensures all { OnOk result
        (Appends (W.contents writer.old) (W.contents writer.new) bytes.now) }
    ensures some { OnErr result
        (AppendsFront (W.contents writer.old) (W.contents writer.new) bytes.now) }
{
    let mut rest = bytes;
    // Never reached; the loop needs a bound, since every write may be interrupted.
    for _ in 0..u64::MAX {
        if rest.is_empty() {
            return Ok(());
        }
        let len = write_or_retry(writer, rest)?;
        rest = &rest[len..];
    }
    Err(io::Error::from(ErrorKind::Interrupted))
}

/// Writes once, and returns how many bytes were written: 0 if it was interrupted.
#[inline(always)]
fn write_or_retry<W: Write>(writer: &mut W, bytes: &[u8]) -> io::Result<usize>
    ensures bound { WritesAtMost result bytes.now }
    ensures bytes { WriteAppends (W.contents writer.old) (W.contents writer.new) result bytes.now }
{
    match write_some(writer, bytes) {
        Err(error) if error.kind() == ErrorKind::Interrupted => Ok(0),
        answer => answer,
    }
}

/// Writes once from the start of the bytes, and returns how many were written. A writer that accepts nothing of a
/// nonempty buffer is an error.
#[inline]
pub(crate) fn write_some<W: Write>(writer: &mut W, bytes: &[u8]) -> io::Result<usize>
    ensures bound { WritesAtMost result bytes.now }
    ensures bytes { WriteAppends (W.contents writer.old) (W.contents writer.new) result bytes.now }
    ensures some { IfOk result (λ n. 0 < length bytes.now → 0 < n) }
{
    match writer.write(bytes) {
        Ok(0) if !bytes.is_empty() => Err(io::Error::from(ErrorKind::WriteZero)),
        answer => answer,
    }
}
