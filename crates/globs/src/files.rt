//! Sources of ignore files.
ghost use Rattle.std.specs.Prelude.{◌≡◌, List, ℕ, Option, None, IfOk, IfSome, string_bytes};

use std::alloc::{Allocator, Global};
use std::fs::{File, Files};
use std::io;

/// A source of ignore files: a disk, or the files of a test.
pub trait IgnoreFiles {
    /// The text of the file at a path, if it is known.
    ghost holds: { Self → (path : List ℕ) → Option (List ℕ) };

    /// Reads the text of the file at a path. The error has the kind `OutOfMemory` if an allocation fails, `InvalidData`
    /// if the file is not UTF-8, and otherwise comes from the system.
    fn read<A: Allocator + Copy>(&self, alloc: A, path: &str) -> io::Result<String<A>>
        ensures { IfOk result (λ text. IfSome (holds self.now path.now)
            (λ known. string_bytes text ≡ known)) };
}

/// The files of the disk. Clauses know nothing about their contents.
#[derive(Drop)]
pub struct DiskFiles<R: Files> {
    pub rt: R,
}

impl<R: Files> IgnoreFiles for DiskFiles<R> {
    ghost holds = { λ files path. None };

    fn read<A: Allocator + Copy>(&self, alloc: A, path: &str) -> io::Result<String<A>> {
        io::read_to_string(alloc, File::open(&self.rt, path)?)
    }
}
