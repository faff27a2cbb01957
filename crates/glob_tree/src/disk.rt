//! The file system, with symbolic links followed.
ghost use Rattle.std.specs.Prelude.{◌≡◌, ◌+◌, Option, true, false, option_and_then, IfOk, IfErr, IsOkAnd};
ghost use Rattle.std.specs.Fs.{file_type, IsSymlink};
ghost use Rattle.glob_tree.specs.Answers.{IsEntriesAnswer, IsListAnswer, IsListError, IsNamesAnswer, IsTold, entries_of, entry_count};
ghost use Rattle.glob_tree.specs.Content.{Content, list_result, look_result};
ghost use Rattle.glob_tree.specs.FileSystems.{FileSystem, Found, IsHeld, IsStatAnswer, is_direct};
ghost use Rattle.glob_tree.specs.Followed.{followed, list_followed, look_followed, look_found};
ghost use Rattle.glob_tree.specs.Private.Listing.{are_looked_up};

use crate::asks::Asks;
use crate::reading::{Kinds, Reader, entries};
use crate::system::System;
use crate::tree::{Entry, ListError, Look, Tree};
use std::alloc::{AllocError, Allocator, Global};
use std::fs::Metadata;
use std::io::{self, ErrorKind};
use std::marker::Model;

/// The file system that a [`System`] reaches, as a tree that follows symbolic links. If the system holds a known file
/// system without symbolic links to directories and without non-UTF-8 names, the tree has its content. Relative paths
/// start at the current directory of the process.
///
/// A look makes one system call, or two at a link. A listing makes one for each entry (`list_names` makes none), and it
/// opens, reads and closes the directory: it reads two blocks of 4 KiB and then blocks of 32 KiB, until a read returns
/// nothing. That is four calls if the names fit in the first block, which holds about a hundred. A listing reads all
/// names before it makes entries from them. No clause counts system calls. An I/O error of the kind `OutOfMemory`
/// counts as an allocation failure.
///
/// In a directory with a file `a` and a link `b` to `a`, a look at `b` returns `Other`, and a listing of `.` returns
/// `a` and `b`, neither of them as a directory.
#[derive(Debug, Drop)]
pub struct Disk<R: System, A: Allocator = Global> {
    lookups: FollowedLookups<R>,
    alloc: A,
    asks: Asks,
}

/// The file system, if it is known, and how much was asked.
impl<R: System, A: Allocator> Model for Disk<R, A> {
    ghost use Rattle.glob_tree.specs.Disks.{DiskModel};

    ghost Value = { DiskModel };

    ghost view = { λ disk. record { files = disk.lookups; asks = disk.asks } };
}

impl<R: System, A: Allocator> Disk<R, A> {
    /// A tree of the file system that `rt` reaches, as `Disk::new(rt, alloc)`. Its listings are allocated from `alloc`.
    /// This call takes no memory.
    pub fn new(rt: R, alloc: A) -> Self
        ensures files { result.files ≡ R.holds rt }
        ensures asks { result.asks ≡ 0 }
    {
        Disk {
            lookups: FollowedLookups { rt },
            alloc,
            asks: Asks::new(),
        }
    }
}

impl<R: System, A: Allocator + Copy> Tree for Disk<R, A> {
    type Alloc = A;

    ghost use Rattle.std.specs.Prelude.{option_and_then};
    ghost use Rattle.glob_tree.specs.Followed.{followed};

    ghost tells = { λ disk. option_and_then followed disk.files };

    ghost asks = { λ disk. disk.asks };

    /// `Other` also stands for a path that is there but cannot be followed to its end, such as a link with a missing
    /// target. A path that cannot be looked up is `Missing`, such as one below a directory that may not be searched. It
    /// fails only if the I/O error's kind is `OutOfMemory`.
    fn look(&mut self, path: &str) -> Result<Look, AllocError>
        ensures files { self.new.files ≡ self.old.files }
        ensures asks { self.new.asks ≡ self.old.asks + 1 }
        ensures followed { (f : FileSystem) → IsHeld self.old.files f → is_direct f path.now ≡ true
            → IfOk result (λ seen. seen ≡ look_followed f path.now) }
        ensures seen { (c : Content)
            → IsTold (option_and_then followed self.old.files) c
            → IfOk result (λ seen. seen ≡ look_result c path.now) }
    {
        self.asks = self.asks.after(1);
        self.lookups.look(path)
    }

    /// An entry whose kind cannot be learned is not reported as a directory. The error is `Read` with the I/O error of
    /// the system, such as `PermissionDenied` or `NotFound`, or `Memory` if an allocation failed. If a name is not
    /// UTF-8, the whole listing fails with an error of the kind `InvalidFilename`.
    fn list(&mut self, path: &str) -> Result<Vec<Entry<A>, A>, ListError>
        ensures files { self.new.files ≡ self.old.files }
        ensures asks { self.new.asks ≡ self.old.asks + 1 + entry_count result }
        ensures followed { (f : FileSystem) → IsHeld self.old.files f
            → IfOk result (λ v. IsListAnswer (list_followed f path.now) (entries_of v.items)) }
        ensures unread { (f : FileSystem) → IsHeld self.old.files f
            → IfErr result (λ e. IsListError (list_followed f path.now) e) }
        ensures entries { (c : Content)
            → IsTold (option_and_then followed self.old.files) c
            → IfOk result (λ v. IsListAnswer (list_result c path.now) (entries_of v.items)) }
        ensures fails { (c : Content)
            → IsTold (option_and_then followed self.old.files) c
            → IfErr result (λ e. IsListError (list_result c path.now) e) }
    {
        self.listing(path, Kinds::LookedUp)
    }

    /// The names of the entries. It looks up no entry, so it reports none as a directory; the clauses promise only that
    /// what it reports as a directory is one. Errors are as for a listing.
    fn list_names(&mut self, path: &str) -> Result<Vec<Entry<A>, A>, ListError>
        ensures files { self.new.files ≡ self.old.files }
        ensures asks { self.new.asks ≡ self.old.asks + 1 + entry_count result }
        ensures followed { (f : FileSystem) → IsHeld self.old.files f
            → IfOk result (λ v. IsNamesAnswer (list_followed f path.now) (entries_of v.items)) }
        ensures unread { (f : FileSystem) → IsHeld self.old.files f
            → IfErr result (λ e. IsListError (list_followed f path.now) e) }
        ensures names { (c : Content)
            → IsTold (option_and_then followed self.old.files) c
            → IfOk result (λ v. IsNamesAnswer (list_result c path.now) (entries_of v.items)) }
        ensures fails { (c : Content)
            → IsTold (option_and_then followed self.old.files) c
            → IfErr result (λ e. IsListError (list_result c path.now) e) }
    {
        self.listing(path, Kinds::LeftOut)
    }
}

impl<R: System, A: Allocator + Copy> Disk<R, A> {
    /// Lists a directory, and counts the questions.
    fn listing(&mut self, path: &str, kinds: Kinds) -> Result<Vec<Entry<A>, A>, ListError>
        ensures files { self.new.files ≡ self.old.files }
        ensures asks { self.new.asks ≡ self.old.asks + 1 + entry_count result }
        ensures entries { (f : FileSystem) → IsHeld self.old.files f → IfOk result (λ v.
            IsEntriesAnswer (are_looked_up kinds) (list_followed f path.now) (entries_of v.items)) }
        ensures fails { (f : FileSystem) → IsHeld self.old.files f
            → IfErr result (λ e. IsListError (list_followed f path.now) e) }
    {
        self.asks = self.asks.after(1);
        let entries = self.lookups.list(self.alloc, path, kinds)?;
        self.asks = self.asks.after(entries.len());
        Ok(entries)
    }
}

/// The calls of a system, with links followed.
#[derive(Debug, Drop)]
struct FollowedLookups<R: System> {
    rt: R,
}

/// The file system, if it is known.
impl<R: System> Model for FollowedLookups<R> {
    ghost use Rattle.std.specs.Prelude.{Option};
    ghost use Rattle.glob_tree.specs.FileSystems.{FileSystem};

    ghost Value = { Option FileSystem };

    ghost view = { λ a. R.holds a.rt };
}

impl<R: System> FollowedLookups<R> {
    /// What is at a path.
    fn look(&self, path: &str) -> Result<Look, AllocError>
        ensures { (f : FileSystem) → IsHeld self.now f → is_direct f path.now ≡ true
            → IfOk result (λ seen. seen ≡ look_followed f path.now) }
    {
        let found = self.rt.lstat(path);
        if is_symlink(&found) {
            return look_of(self.rt.stat(path), Look::Other);
        }
        look_of(found, Look::Missing)
    }

    /// The entries of the directory at a path.
    fn list<A: Allocator + Copy>(
        &mut self,
        alloc: A,
        path: &str,
        kinds: Kinds,
    ) -> Result<Vec<Entry<A>, A>, ListError>
        ensures files { self.new ≡ self.old }
        ensures entries { (f : FileSystem) → IsHeld self.old f → IfOk result (λ v.
            IsEntriesAnswer (are_looked_up kinds) (list_followed f path.now) (entries_of v.items)) }
        ensures fails { (f : FileSystem) → IsHeld self.old f
            → IfErr result (λ e. IsListError (list_followed f path.now) e) }
    {
        entries(self, alloc, path, kinds)
    }
}

/// A non-UTF-8 name fails the listing, so it receives no names and no paths.
impl<R: System> Reader for FollowedLookups<R> {
    type Dir = R::Dir;

    ghost use Rattle.std.specs.Prelude.{false, Some, []};
    ghost use Rattle.glob_tree.specs.declared.physical.Links.TheVariants.{Followed};

    ghost files = { λ files. files };

    ghost links = { λ _. Followed };

    ghost names = { λ _. Some [] };

    ghost paths = { λ _. Some [] };

    ghost receives = { λ _. false };

    fn open(&self, path: &str) -> io::Result<R::Dir> {
        self.rt.open(path)
    }

    fn finds_dir(&mut self, path: &str) -> Result<bool, AllocError> {
        Ok(look_of(self.rt.stat(path), Look::Missing)?.is_dir())
    }

    fn receive(&mut self, _directory: &str, _name: &[u8]) -> Result<(), ListError> {
        Err(ListError::Read(io::Error::from(ErrorKind::InvalidFilename)))
    }
}

/// Whether the system returned the metadata of a symbolic link.
fn is_symlink(answer: &io::Result<Metadata>) -> bool
    ensures symlink { result ≡ true
        → IsOkAnd answer.now (λ metadata. IsSymlink (file_type metadata)) }
    ensures other { result ≡ false
        → IfOk answer.now (λ metadata. IsSymlink (file_type metadata) → ⊥) }
{
    match answer {
        Ok(metadata) => metadata.is_symlink(),
        Err(_) => false,
    }
}

/// Maps the answer of `lstat` or `stat` to a `Look`; returns `absent` if the call failed, and an error if memory ran
/// out.
fn look_of(answer: io::Result<Metadata>, absent: Look) -> Result<Look, AllocError>
    ensures { (found : Option Found) → IsStatAnswer found answer
        → IfOk result (λ look. look ≡ look_found absent found) }
{
    match answer {
        Ok(metadata) if metadata.is_dir() => Ok(Look::Dir),
        Ok(_) => Ok(Look::Other),
        Err(error) if error.kind() == ErrorKind::OutOfMemory => Err(AllocError),
        Err(_) => Ok(absent),
    }
}
