//! A system in memory.
ghost use Rattle.std.specs.Prelude.{◌≡◌, false, IfErr, IfOk};
ghost use Rattle.glob_tree.specs.Answers.{entries_of, names_of};
ghost use Rattle.glob_tree.specs.Content.{look_result};
ghost use Rattle.glob_tree.specs.FileSystems.{IsLookupError, IsNumberAnswer, IsStatAnswer, no_number, plain_files};
ghost use Rattle.glob_tree.specs.Private.Listing.{found_by, name_bytes};

use crate::directory_id::DirectoryId;
use crate::mem_tree::MemTree;
use crate::system::{Directory, System};
use crate::tree::{Entry, ListError, Look};
use std::alloc::{AllocError, Allocator, Global};
use std::collections::VecDeque;
use std::fs::Metadata;
use std::io::{self, ErrorKind, Read};
use std::marker::Model;

/// A [`System`] that holds the files of a tree in memory, without symbolic links. It keeps the promises of a system,
/// and reads directories in pieces, as a real system may.
#[derive(Drop)]
pub struct MemSystem<A: Allocator = Global> {
    tree: MemTree<A>,
    piece: usize,
}

/// Its files.
impl<A: Allocator> Model for MemSystem<A> {
    ghost use Rattle.glob_tree.specs.Content.{Content};

    ghost Value = { Content };

    ghost view = { λ system. system.tree.content };
}

impl<A: Allocator + Copy> MemSystem<A> {
    /// A system with the files of `tree`. A read of a directory returns at most `piece` bytes, or at most one if that
    /// is 0: with 2, the names `a` and `bc` come as `a\0`, `bc` and `\0`. No clause says how the bytes are split.
    pub fn new(tree: MemTree<A>, piece: usize) -> Self
        ensures { result ≡ tree.content }
    {
        MemSystem { tree, piece }
    }

    /// The metadata of what is at a path. If nothing is there, the error is `NotFound`.
    fn metadata(&self, path: &str) -> io::Result<Metadata>
        ensures found { IsStatAnswer (found_by (look_result self.now path.now)) result }
        ensures fails { IfErr result (IsLookupError false) }
    {
        match self.tree.seen(path) {
            Look::Dir => Ok(Metadata::of_dir()),
            Look::Other => Ok(Metadata::of_file(0)),
            Look::Missing => Err(ErrorKind::NotFound.into()),
        }
    }

    /// The number of the directory at a path, which is 0: directories in memory have no numbers.
    fn number(&self, path: &str) -> io::Result<Option<DirectoryId>>
        ensures found { IsNumberAnswer (found_by (look_result self.now path.now)) no_number result }
        ensures fails { IfErr result (IsLookupError false) }
    {
        match self.tree.seen(path) {
            Look::Dir => Ok(Some(DirectoryId { dev: 0, ino: 0 })),
            Look::Other => Ok(None),
            Look::Missing => Err(ErrorKind::NotFound.into()),
        }
    }
}

impl<A: Allocator + Copy> System for MemSystem<A> {
    type Dir = MemDirectory<A>;

    ghost use Rattle.std.specs.Prelude.{Some};

    ghost holds = { λ system. Some (plain_files system) };

    fn lstat(&self, path: &str) -> io::Result<Metadata> {
        self.metadata(path)
    }

    fn stat(&self, path: &str) -> io::Result<Metadata> {
        self.metadata(path)
    }

    fn directory_id(&self, path: &str) -> io::Result<Option<DirectoryId>> {
        self.number(path)
    }

    fn open(&self, path: &str) -> io::Result<MemDirectory<A>> {
        let piece = self.piece;
        match self.tree.entries(path) {
            Ok(entries) => {
                let bytes = bytes_of(*entries.allocator(), entries.as_slice())?;
                let names = VecDeque::from(bytes);
                Ok(MemDirectory { names, piece })
            }
            Err(ListError::Read(error)) => Err(error),
            Err(ListError::Memory) => Err(ErrorKind::OutOfMemory.into()),
        }
    }
}

/// The names of the entries, each followed by a NUL.
fn bytes_of<A: Allocator + Copy>(alloc: A, entries: &[Entry<A>]) -> Result<Vec<u8, A>, AllocError>
    ensures { IfOk result (λ bytes. bytes.items ≡ name_bytes (names_of (entries_of entries.now))) }
{
    let mut bytes = Vec::new(alloc);
    for entry in entries {
        bytes.extend_from_slice(entry.name.as_str().as_bytes())?;
        bytes.push(0)?;
    }
    Ok(bytes)
}

/// A directory that a [`MemSystem`] has opened.
#[derive(Drop)]
pub struct MemDirectory<A: Allocator = Global> {
    names: VecDeque<u8, A>,
    piece: usize,
}

impl<A: Allocator> Directory for MemDirectory<A> {
    ghost use Rattle.std.specs.Prelude.{None, Some};

    ghost left = { λ directory. Some directory.names.items };

    ghost fault = { λ _. None };

    fn read(&mut self, block: &mut [u8]) -> io::Result<usize> {
        let room = block.len().min(self.piece.max(1));
        self.names.read(&mut block[..room])
    }
}
