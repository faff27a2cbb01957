//! A writer behind a reference.
ghost use Rattle.std.specs.Prelude.{◌∷◌, option_map};

use std::io::{self, Write};

/// A writer behind a reference, which both programs pass to the functions that copy lines, as a `&mut Borrowed`. The
/// contract of such a call does not rule out that it replaces the reference, so `contents` begins with the reference's
/// name. Calls only add at the end of `contents`, so an unchanged name shows that the writer is still the same.
#[derive(Drop)]
pub struct Borrowed<'w, W> {
    pub writer: &'w mut W,
}

impl<W: Write> Write for Borrowed<'_, W> {
    ghost contents = { λ borrowed. option_map (λ bytes. borrowed.writer.ghost_name ∷ bytes)
        (W.contents borrowed.writer.now) };

    fn write(&mut self, buf: &[u8]) -> io::Result<usize> {
        self.writer.write(buf)
    }

    fn flush(&mut self) -> io::Result<()> {
        self.writer.flush()
    }
}
