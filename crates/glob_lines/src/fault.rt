//! Why a copy of records failed.
ghost use Rattle.std.specs.Prelude.{Some};
ghost use Rattle.glob_lines.specs.LineFaults.{words_of_line_fault};

use std::alloc::AllocError;
use std::error::Error;
use std::{fmt, io};

/// Why [`filter_lines`](crate::filter_lines), or another copy of records, failed.
///
/// It prints as `reading failed`, `out of memory` or `writing failed`. A full disk under the output is a `Write`.
#[derive(Debug, Drop)]
pub enum LineFault {
    /// Reading failed with this error.
    Read(io::Error),
    /// Out of memory: an allocation failed for the input, the output buffer, a match of more than 63 tokens, or a
    /// selection.
    Memory,
    /// Writing failed with this error.
    Write(io::Error),
}

impl fmt::Display for LineFault {
    ghost output = { λ fault. Some (words_of_line_fault fault) };

    fn fmt<W: fmt::Write>(&self, f: &mut fmt::Formatter<W>) -> fmt::Result {
        f.write_str(match self {
            LineFault::Read(_) => "reading failed",
            LineFault::Memory => "out of memory",
            LineFault::Write(_) => "writing failed",
        })
    }
}

impl Error for LineFault {}

/// A failed allocation.
impl From<AllocError> for LineFault {
    ghost use Rattle.std.specs.Prelude.{◌≡◌};
    ghost use Rattle.glob_lines.specs.declared.fault.LineFault.TheVariants.{Memory};

    ghost from_gives = { λ _ fault. fault ≡ Memory };

    fn from(_error: AllocError) -> LineFault {
        LineFault::Memory
    }
}
