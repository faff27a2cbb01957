//! A reader or writer that remembers whether one of its calls has failed.
ghost use Rattle.std.specs.Prelude.{◌≡◌, ◌↔◌, ◌⊎◌, ◌<◌, false, length, IsTrue, IsErr, IfOk, OnOk, OnErr};
ghost use Rattle.std.specs.Io.{ReadsAtMost, WritesAtMost};
ghost use Rattle.std.specs.Io.KnownBytes.{Appends, ReadConsumes, WriteAppends};
ghost use Rattle.glob_lines.specs.Lines.{AppendsFront};

use crate::writing::write_some;
use std::io::{self, Read, Write};
use std::marker::Model;

/// A reader or writer that remembers whether one of its calls has failed.
///
/// [`failed`](Watch::failed) is false until a call returns an error, and true from then on, whatever later calls
/// return.
///
/// ```text
/// let mut reader = Watch::new(stdin);
/// reader.failed()        // false
/// reader.read(buf)       // Err(..)
/// reader.failed()        // true
/// let stdin = reader.into_inner();
/// ```
#[derive(Debug, Drop)]
pub struct Watch<S> {
    inner: S,
    failed: bool,
}

impl<S> Model for Watch<S> {
    ghost use Rattle.glob_lines.specs.Watch.{Watched};

    ghost Value = { Watched S };

    ghost view = { λ a. record { inner = a.inner; failed = a.failed } };
}

impl<S> Watch<S> {
    /// Watches `inner`, as in `Watch::new(stdin)`. No call has failed yet.
    pub fn new(inner: S) -> Self
        ensures inner { result.inner ≡ inner }
        ensures failed { result.failed ≡ false }
    {
        Watch {
            inner,
            failed: false,
        }
    }

    /// The reader or writer itself.
    pub fn into_inner(self) -> S
        ensures { result ≡ self.inner }
    {
        self.inner
    }

    /// Whether a call has returned an error. After a read that was `Interrupted` it is true, even if the next read
    /// succeeds.
    pub fn failed(&self) -> bool
        ensures { result ≡ self.now.failed }
    {
        self.failed
    }
}

impl<S: Read> Watch<S> {
    /// Reads once from the inner reader into the start of `buf`, and returns how many bytes were read: 0 only at the
    /// end of the input, or if `buf` is empty. With `abc` left and room for two bytes it may return 2, and then 1.
    ///
    /// The error is the inner reader's, `Interrupted` included. No byte was read then.
    pub fn read(&mut self, buf: &mut [u8]) -> io::Result<usize>
        ensures bound { ReadsAtMost result buf.new }
        ensures bytes { ReadConsumes (S.remaining self.old.inner) (S.remaining self.new.inner)
            result buf.new }
        ensures failed { IsTrue self.new.failed ↔ (IsTrue self.old.failed ⊎ IsErr result) }
    {
        let answer = self.inner.read(buf);
        self.failed |= answer.is_err();
        answer
    }
}

impl<S: Write> Watch<S> {
    /// Writes once to the inner writer, from the start of `buf`, and returns how many bytes were written: 0 only if
    /// `buf` is empty.
    ///
    /// The error is the inner writer's, `Interrupted` included, or is of the kind `WriteZero` if the inner writer
    /// accepted none of the bytes of a nonempty `buf`. No byte was written then. If the inner writer accepts two bytes
    /// a call, `write(b"abc")` returns 2.
    pub fn write(&mut self, buf: &[u8]) -> io::Result<usize>
        ensures bound { WritesAtMost result buf.now }
        ensures bytes { WriteAppends (S.contents self.old.inner) (S.contents self.new.inner)
            result buf.now }
        ensures some { IfOk result (λ n. 0 < length buf.now → 0 < n) }
        ensures failed { IsTrue self.new.failed ↔ (IsTrue self.old.failed ⊎ IsErr result) }
    {
        let answer = write_some(&mut self.inner, buf);
        self.failed |= answer.is_err();
        answer
    }

    /// Writes all bytes, in as many writes as needed: `abc` in two, if the inner writer accepts two bytes a call. It
    /// returns the first error, `Interrupted` included. Then the first bytes were written, perhaps none.
    pub(crate) fn write_all(&mut self, bytes: &[u8]) -> io::Result<()>
        ensures ok { OnOk result
            (Appends (S.contents self.old.inner) (S.contents self.new.inner) bytes.now) }
        ensures err { OnErr result
            (AppendsFront (S.contents self.old.inner) (S.contents self.new.inner) bytes.now) }
        ensures failed { IsTrue self.new.failed ↔ (IsTrue self.old.failed ⊎ IsErr result) }
    {
        let mut rest = bytes;
        while !rest.is_empty() {
            let len = self.write(rest)?;
            rest = &rest[len..];
        }
        Ok(())
    }
}
