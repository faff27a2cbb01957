//! A reader that closes the output.
ghost use Rattle.std.specs.Prelude.{◌≡◌, if◌then◌else◌};

use std::cell::Cell;
use std::io::{self, ErrorKind, Write};

/// The status after the reader closed the output: the same that a shell reports for a program killed by SIGPIPE.
const GONE: u8 = 141;

/// A writer that notes whether its reader closed it.
#[derive(Drop)]
pub struct PipeWatch<'a, W> {
    pub writer: W,
    pub is_gone: &'a Cell<bool>,
}

impl<W: Write> Write for PipeWatch<'_, W> {
    ghost contents = { λ watch. W.contents watch.writer };

    fn write(&mut self, buf: &[u8]) -> io::Result<usize> {
        let answer = self.writer.write(buf);
        if let Err(error) = &answer {
            if error.kind() == ErrorKind::BrokenPipe {
                self.is_gone.set(true);
            }
        }
        answer
    }

    fn flush(&mut self) -> io::Result<()> {
        self.writer.flush()
    }
}

/// The status of a run: 141 if the reader closed its output, and otherwise the run's own.
pub fn pipe_status(is_gone: bool, status: u8) -> u8
    ensures { result ≡ (if is_gone then 141 else status) }
{
    if is_gone { GONE } else { status }
}
