//! A stream over memory that moves few bytes a call, counts its calls, and fails at a chosen call.
ghost use Rattle.std.specs.Prelude.{◌≤◌, IfOk, None};

use crate::counts::raise;
use crate::words::{cut, number_of, unusable};
use std::alloc::Global;
use std::cell::Cell;
use std::io::{self, ErrorKind, Read, Write};

/// What goes wrong with a stream, at the call of this number, counted from 0.
#[derive(Clone, Copy)]
pub enum Trouble {
    Never,
    /// It returns this error.
    Errs(u64, io::Error),
    /// It moves no byte, and returns 0.
    Idles(u64),
    /// It is interrupted at three out of four calls, from the first on.
    Interrupts,
    /// Each flush returns this error.
    Holds(io::Error),
    /// It returns the same bytes again and again.
    Repeats,
}

/// A reader of some bytes, or a writer into memory.
#[derive(Drop)]
pub struct Stream<'a> {
    rest: &'a [u8],
    /// How many bytes it moves in a call at most.
    pub most: usize,
    pub trouble: Trouble,
    /// What was written.
    pub written: Vec<u8>,
    /// How many reads or writes there were, and how many flushes.
    pub calls: u64,
    pub flushes: u64,
    /// A clock that each write advances by one.
    pub clock: Option<&'a Cell<u64>>,
    /// The first and the last time at which each write may come. If this is empty, writes may come at any time.
    pub due: Vec<(u64, u64)>,
}

impl<'a> Stream<'a> {
    /// The stream that a row describes: the most bytes in a call, and what goes wrong, as in `3 errs 2 Other`, or when
    /// it is written, as in `3 at 305 307-407`.
    pub fn new(alloc: Global, rest: &'a [u8], words: &str) -> io::Result<Self> {
        let (most, trouble) = words.split_once(' ').unwrap_or((words, ""));
        let mut due = Vec::new(alloc);
        let times = trouble.strip_prefix("at ");
        let trouble = if times.is_some() { "" } else { trouble };
        for word in times.unwrap_or("").split_whitespace() {
            let (first, last) = word.split_once('-').unwrap_or((word, word));
            due.push((number_of(first)? as u64, number_of(last)? as u64))?;
        }
        Ok(Stream {
            rest,
            most: number_of(most)?,
            trouble: trouble_of(trouble)?,
            written: Vec::new(alloc),
            calls: 0,
            flushes: 0,
            clock: None,
            due,
        })
    }

    /// The text that was written.
    pub fn text(&self) -> io::Result<&str> {
        str::from_utf8(self.written.as_slice()).map_err(|_| unusable())
    }

    /// Whether a write is due now; always, if no times are given.
    fn is_due(&self) -> bool {
        let now = self.clock.map_or(0, |clock| clock.get());
        let times = self.due.get(self.calls as usize);
        self.due.is_empty() || times.is_some_and(|&(first, last)| first <= now && now <= last)
    }

    /// Counts a call, and returns how many of `len` bytes it moves.
    fn count(&mut self, len: usize) -> io::Result<usize>
        ensures { IfOk result (λ moved. moved ≤ len) }
    {
        let now = self.calls;
        self.calls = now.saturating_add(1);
        match self.trouble {
            Trouble::Errs(call, error) if call == now => Err(error),
            Trouble::Idles(call) if call == now => Ok(0),
            Trouble::Interrupts if now % 4 < 3 => Err(io::Error::from(ErrorKind::Interrupted)),
            _ => Ok(len.min(self.most)),
        }
    }
}

/// What goes wrong, by the words of a row.
fn trouble_of(words: &str) -> io::Result<Trouble> {
    let (kind, rest) = words.split_once(' ').unwrap_or((words, ""));
    match kind {
        "" => Ok(Trouble::Never),
        "repeats" => Ok(Trouble::Repeats),
        "interrupts" => Ok(Trouble::Interrupts),
        "holds" => Ok(Trouble::Holds(error_of(rest)?)),
        "idles" => Ok(Trouble::Idles(number_of(rest)? as u64)),
        "errs" => {
            let (call, error) = cut(rest, " ")?;
            Ok(Trouble::Errs(number_of(call)? as u64, error_of(error)?))
        }
        _ => Err(unusable()),
    }
}

/// The error that a word names: by a number of the system, or by a kind, perhaps followed by `=` and a message.
pub fn error_of(word: &str) -> io::Result<io::Error> {
    let (name, words) = word.split_once('=').unwrap_or((word, ""));
    let kind = match name {
        "Other" => ErrorKind::Other,
        "NotFound" => ErrorKind::NotFound,
        "Interrupted" => ErrorKind::Interrupted,
        "WouldBlock" => ErrorKind::WouldBlock,
        "UnexpectedEof" => ErrorKind::UnexpectedEof,
        "BrokenPipe" => ErrorKind::BrokenPipe,
        "OutOfMemory" => ErrorKind::OutOfMemory,
        "InvalidData" => ErrorKind::InvalidData,
        number => {
            let code = number.parse::<i32>().map_err(|_| unusable())?;
            return Ok(io::Error::from_raw_os_error(code));
        }
    };
    Ok(match words {
        "" => io::Error::from(kind),
        words => io::Error::new(kind, words),
    })
}

impl Read for Stream<'_> {
    ghost remaining = { λ _. None };

    fn read(&mut self, buf: &mut [u8]) -> io::Result<usize> {
        let rest = self.rest;
        let len = self.count(rest.len().min(buf.len()))?;
        buf[..len].copy_from_slice(&rest[..len]);
        if !matches!(self.trouble, Trouble::Repeats) {
            self.rest = &rest[len..];
        }
        Ok(len)
    }
}

impl Write for Stream<'_> {
    ghost contents = { λ _. None };

    fn write(&mut self, buf: &[u8]) -> io::Result<usize> {
        if buf.is_empty() || !self.is_due() {
            return Err(unusable());
        }
        if let Some(clock) = self.clock {
            raise(clock, 1);
        }
        let len = self.count(buf.len())?;
        self.written.extend_from_slice(&buf[..len])?;
        Ok(len)
    }

    fn flush(&mut self) -> io::Result<()> {
        self.flushes = self.flushes.saturating_add(1);
        match self.trouble {
            Trouble::Holds(error) => Err(error),
            _ => Ok(()),
        }
    }
}
