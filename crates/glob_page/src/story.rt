//! What a walk did, as lines: each has a word, the number of units charged so far, and a text.
use std::alloc::{AllocError, Global};

/// The lines so far.
#[derive(Drop)]
pub(crate) struct Story {
    text: String<Global>,
}

impl Story {
    pub(crate) fn new(alloc: Global) -> Story {
        Story {
            text: String::new(alloc),
        }
    }

    /// Adds a line.
    pub(crate) fn line(&mut self, word: &str, spent: u64, text: &str) -> Result<(), AllocError> {
        writeln!(self.text, "{word} {spent} {text}")
    }

    /// The lines.
    pub(crate) fn as_bytes(&self) -> &[u8] {
        self.text.as_str().as_bytes()
    }
}
