//! The lines of standard error.
ghost use Rattle.std.specs.Prelude.{◌≡◌, ◌++◌, ◌↔◌, IfSome, IsFalse, IsTrue, codes, false, true};
ghost use Rattle.std.specs.IoError.{error_kind};
ghost use Rattle.std.specs.declared.io.ErrorKind.TheVariants.{BrokenPipe, OutOfMemory};
ghost use Rattle.glob_console.specs.Lines.{WritesLine};
ghost use Rattle.glob_lines.specs.Lines.{AppendsFront};

use crate::status::FAULT;
use glob_lines::write_whole;
use std::alloc::Allocator;
use std::fmt::Display;
use std::io::{self, Write};

/// The lines that a program writes to standard error, each after the same prefix: the program's name, or nothing.
/// Errors of the writer are ignored.
///
/// With `ErrorLines::new(alloc, "globs: ", &mut stderr)` the message `out of memory` becomes `globs: out of memory`.
#[derive(Drop)]
pub struct ErrorLines<'e, A: Allocator, E> {
    alloc: A,
    prefix: &'e str,
    writer: &'e mut E,
    is_quiet: bool,
}

impl<'e, A: Allocator + Copy, E: Write> ErrorLines<'e, A, E> {
    /// Lines for the writer that begin with `prefix`.
    pub fn new(alloc: A, prefix: &'e str, writer: &'e mut E) -> Self
        ensures prefix { result.prefix.now ≡ prefix.entry.now }
        ensures quiet { result.is_quiet ≡ false }
    {
        ErrorLines {
            alloc,
            prefix,
            writer,
            is_quiet: false,
        }
    }

    /// The same, but silent about a failed write if the reader of the output is gone (a broken pipe).
    pub fn quiet(alloc: A, prefix: &'e str, writer: &'e mut E) -> Self
        ensures prefix { result.prefix.now ≡ prefix.entry.now }
        ensures quiet { result.is_quiet ≡ true }
    {
        ErrorLines {
            is_quiet: true,
            ..Self::new(alloc, prefix, writer)
        }
    }

    /// Writes a line as [`write_line`] does, with the prefix of these lines.
    pub fn write<D: Display>(&mut self, message: &D)
        ensures line { IfSome (D.output message.now) (λ text. WritesLine self.old.prefix.now text
            (E.contents self.old.writer.now) (E.contents self.new.writer.now)) }
        ensures prefix { self.new.prefix.now ≡ self.old.prefix.now }
        ensures quiet { self.new.is_quiet ≡ self.old.is_quiet }
    {
        write_line(self.alloc, self.prefix, message, self.writer);
    }

    /// Writes the line of a fault, and returns its exit status.
    pub fn fault<D: Display + Drop>(&mut self, message: D) -> u8
        ensures status { result ≡ 2 }
        ensures line { IfSome (D.output message) (λ text. WritesLine self.old.prefix.now text
            (E.contents self.old.writer.now) (E.contents self.new.writer.now)) }
        ensures prefix { self.new.prefix.now ≡ self.old.prefix.now }
        ensures quiet { self.new.is_quiet ≡ self.old.is_quiet }
    {
        self.write(&message);
        FAULT
    }

    /// Writes the line of a failed allocation, `out of memory`, and returns the exit status of a fault.
    pub fn memory_fault(&mut self) -> u8
        ensures status { result ≡ 2 }
        ensures line { WritesLine self.old.prefix.now (codes "out of memory")
            (E.contents self.old.writer.now) (E.contents self.new.writer.now) }
        ensures prefix { self.new.prefix.now ≡ self.old.prefix.now }
        ensures quiet { self.new.is_quiet ≡ self.old.is_quiet }
    {
        self.fault("out of memory")
    }

    /// Writes the line of a failed write to the output, `writing failed`, and returns the exit status of a fault. Quiet
    /// lines say nothing if the reader of the output is gone.
    pub fn write_fault(&mut self, error: &io::Error) -> u8
        ensures status { result ≡ 2 }
        ensures line { WritesLine self.old.prefix.now (codes "writing failed")
            (E.contents self.old.writer.now) (E.contents self.new.writer.now) }
        ensures gone { IsTrue self.old.is_quiet → error_kind error.now ≡ BrokenPipe
            → E.contents self.new.writer.now ≡ E.contents self.old.writer.now }
        ensures prefix { self.new.prefix.now ≡ self.old.prefix.now }
        ensures quiet { self.new.is_quiet ≡ self.old.is_quiet }
    {
        if !is_reported(self.is_quiet, error) {
            return FAULT;
        }
        self.fault("writing failed")
    }

    /// Writes the line for arguments that could not be read: `out of memory`, or `message` if one is not UTF-8. Returns
    /// the exit status of a fault.
    pub fn arguments_fault(&mut self, error: &io::Error, message: &str) -> u8
        ensures status { result ≡ 2 }
        ensures line { WritesLine self.old.prefix.now message.now
            (E.contents self.old.writer.now) (E.contents self.new.writer.now) }
        ensures memory { error_kind error.now ≡ OutOfMemory
            → WritesLine self.old.prefix.now (codes "out of memory")
            (E.contents self.old.writer.now) (E.contents self.new.writer.now) }
        ensures prefix { self.new.prefix.now ≡ self.old.prefix.now }
        ensures quiet { self.new.is_quiet ≡ self.old.is_quiet }
    {
        match error.kind() {
            io::ErrorKind::OutOfMemory => self.memory_fault(),
            _ => self.fault(message),
        }
    }
}

/// Writes a line that begins with `prefix`, in one write if the writer accepts all of it, so that no other process
/// writes into it. If there is no memory for the line, it says `out of memory`. Errors of the writer are ignored.
pub fn write_line<A: Allocator + Copy, D: Display, E: Write>(
    alloc: A,
    prefix: &str,
    message: &D,
    writer: &mut E,
)
    ensures { IfSome (D.output message.now) (λ text. WritesLine prefix.now text
        (E.contents writer.old) (E.contents writer.new)) }
{
    let _ = match format!(in alloc; "{prefix}{message}\n") {
        Ok(line) => write_whole(writer, line.as_bytes()),
        Err(_) => write_scarce(prefix, writer),
    };
}

/// Writes the line `out of memory` without allocating.
fn write_scarce<E: Write>(prefix: &str, writer: &mut E) -> io::Result<()>
    ensures { AppendsFront (E.contents writer.old) (E.contents writer.new)
        (prefix.now ++ codes "out of memory\n") }
{
    write_whole(writer, prefix.as_bytes())?;
    write_whole(writer, b"out of memory\n")
}

/// Whether a failed write is reported: not if the lines are quiet and the reader is gone.
fn is_reported(is_quiet: bool, error: &io::Error) -> bool
    ensures { IsFalse result ↔ (IsTrue is_quiet × (error_kind error.now ≡ BrokenPipe)) }
{
    !(is_quiet && error.kind() == io::ErrorKind::BrokenPipe)
}
