//! Why `find_in` failed.
ghost use Rattle.std.specs.Prelude.{◌≡◌};
ghost use Rattle.glob_console.specs.FoundPaths.{find_fault_words};
ghost use Rattle.glob_console.specs.Lines.{WritesLine};

use crate::error_lines::ErrorLines;
use glob_pattern::PatternRefusal;
use std::alloc::{AllocError, Allocator};
use std::io;

/// Why `find_in` failed.
#[derive(Drop)]
pub enum FindFault {
    /// The pattern of the walk was refused, before anything was looked up or written.
    Pattern(PatternRefusal),
    /// An allocation failed, for a line or in the choice.
    Memory,
    /// A line could not be written.
    Write(io::Error),
}

/// A refused pattern.
impl From<PatternRefusal> for FindFault {
    ghost use Rattle.std.specs.Prelude.{◌≡◌};
    ghost use Rattle.glob_console.specs.declared.find.fault.FindFault.TheVariants.{Pattern};

    ghost from_gives = { λ refusal fault. fault ≡ Pattern refusal };

    fn from(refusal: PatternRefusal) -> FindFault {
        FindFault::Pattern(refusal)
    }
}

/// A failed allocation.
impl From<AllocError> for FindFault {
    ghost use Rattle.std.specs.Prelude.{◌≡◌};
    ghost use Rattle.glob_console.specs.declared.find.fault.FindFault.TheVariants.{Memory};

    ghost from_gives = { λ error fault. fault ≡ Memory };

    fn from(_error: AllocError) -> FindFault {
        FindFault::Memory
    }
}

/// A line that could not be written.
impl From<io::Error> for FindFault {
    ghost use Rattle.std.specs.Prelude.{◌≡◌};
    ghost use Rattle.glob_console.specs.declared.find.fault.FindFault.TheVariants.{Write};

    ghost from_gives = { λ error fault. fault ≡ Write error };

    fn from(error: io::Error) -> FindFault {
        FindFault::Write(error)
    }
}

impl FindFault {
    /// Writes the line of the fault, and returns its exit status.
    pub fn report<A: Allocator + Copy, E: io::Write>(self, errors: &mut ErrorLines<'_, A, E>) -> u8
        ensures status { result ≡ 2 }
        ensures line { WritesLine errors.old.prefix.now (find_fault_words self)
            (E.contents errors.old.writer.now) (E.contents errors.new.writer.now) }
        ensures prefix { errors.new.prefix.now ≡ errors.old.prefix.now }
        ensures quiet { errors.new.is_quiet ≡ errors.old.is_quiet }
    {
        match self {
            FindFault::Pattern(refusal) => errors.fault(refusal),
            FindFault::Memory => errors.memory_fault(),
            FindFault::Write(error) => errors.write_fault(&error),
        }
    }
}
