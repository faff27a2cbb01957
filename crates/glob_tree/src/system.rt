//! The system calls that disks are built on.
ghost use Rattle.std.specs.Prelude.{◌≡◌, ℕ, ◌<◌, List, Option, true, None, length, IfOk, IfErr};
ghost use Rattle.std.specs.Io.{ReadsAtMost};
ghost use Rattle.std.specs.Io.KnownBytes.{ReadConsumes};
ghost use Rattle.std.specs.declared.io.ErrorKind.{ErrorKind};
ghost use Rattle.glob_tree.specs.Content.{list_result};
ghost use Rattle.glob_tree.specs.Directories.{HasEnded, ReadMayFail};
ghost use Rattle.glob_tree.specs.FileSystems.{FileSystem, IsHeld, IsLookupError, IsNumberAnswer, IsOpened, OpenMayFail, IsStatAnswer};
ghost use Rattle.glob_tree.specs.FileSystems.{is_direct, is_lost, is_target_lost, lstat_found, number_found, stat_found, strays_found};

use crate::directory_id::DirectoryId;
use std::fs::{Files, Metadata};
use std::io::{self, Read};
use std::os::unix::fs::MetadataExt;

/// The calls of a system: what is at a path, and which names a directory has. `HostRuntime` is the real system;
/// contracts know nothing about what it holds.
///
/// What contracts see of a system is the file system that it holds, if that is known. It then never changes, and each
/// call answers for paths of any length. If memory runs out, the error's kind is `OutOfMemory`. Otherwise `lstat` fails
/// only if nothing is there or it cannot be looked up, `stat` also if a link there points to no such thing, and `open`
/// if it is no directory that can be listed. Nothing is promised for a path that goes on behind a symbolic link to a
/// directory, or to what cannot be looked up.
///
/// In a file system with a directory `a`, a file `a/b` and a symbolic link `l` to it, `lstat("l")` returns the metadata
/// of a symbolic link and `stat("l")` that of a file, `lstat("a/c")` fails, and `open("a")` gives the bytes `b\0` to
/// read, maybe with `.\0` and `..\0` before, between and after the names.
pub trait System: Drop {
    /// An open directory.
    type Dir: Directory;

    ghost holds: { Self → Option FileSystem };

    /// The metadata of what is at a path; for a symbolic link, of the link itself.
    ///
    /// If nothing is there, the error is `NotFound` or `NotADirectory`. If that cannot be known, such as in a directory
    /// that may not be searched, it is another error.
    fn lstat(&self, path: &str) -> io::Result<Metadata>
        ensures found { (f : FileSystem) → IsHeld (holds self.now) f → is_direct f path.now ≡ true
            → IsStatAnswer (lstat_found f path.now) result }
        ensures fails { (f : FileSystem) → IsHeld (holds self.now) f → is_direct f path.now ≡ true
            → IfErr result (IsLookupError (is_lost f path.now)) };

    /// The metadata of what is at a path; for a symbolic link, of what it points to.
    ///
    /// If nothing is there, or a symbolic link that points nowhere, the error is `NotFound` or `NotADirectory`. If that
    /// cannot be known, such as for a cycle of links, it is another error.
    fn stat(&self, path: &str) -> io::Result<Metadata>
        ensures found { (f : FileSystem) → IsHeld (holds self.now) f → is_direct f path.now ≡ true
            → IsStatAnswer (stat_found f path.now) result }
        ensures fails { (f : FileSystem) → IsHeld (holds self.now) f → is_direct f path.now ≡ true
            → IfErr result (IsLookupError (is_target_lost f path.now)) };

    /// The number of the directory that [`stat`](System::stat) finds at a path; `None` if it finds something other than
    /// a directory.
    ///
    /// It fails where and as `stat` does.
    fn directory_id(&self, path: &str) -> io::Result<Option<DirectoryId>>
        ensures number { (f : FileSystem) → IsHeld (holds self.now) f → is_direct f path.now ≡ true
            → IsNumberAnswer (stat_found f path.now) (number_found f path.now) result }
        ensures fails { (f : FileSystem) → IsHeld (holds self.now) f → is_direct f path.now ≡ true
            → IfErr result (IsLookupError (is_target_lost f path.now)) };

    /// Opens the directory at a path.
    ///
    /// If the directory cannot be listed, this call or a read fails with an error of that kind. If the path does not
    /// lead to a directory, this call may fail with any error.
    fn open(&self, path: &str) -> io::Result<Self::Dir>
        ensures opened { (f : FileSystem) → IsHeld (holds self.now) f → is_direct f path.now ≡ true
            → IfOk result (λ dir. IsOpened (list_result f.content path.now)
            (strays_found f path.now) (Self.Dir.left dir) (Self.Dir.fault dir)) }
        ensures fails { (f : FileSystem) → IsHeld (holds self.now) f → is_direct f path.now ≡ true
            → IfErr result (λ e. OpenMayFail (list_result f.content path.now) e) };
}

/// An open directory. Reads return its names, each followed by a NUL, in pieces of any size. `.` and `..` may be among
/// them.
pub trait Directory: Drop {
    /// The bytes that further reads return, if they are known.
    ghost left: { Self → Option (List ℕ) };

    /// The kind of the error that a read returns after the last byte; `None` if the directory ends there.
    ghost fault: { Self → Option ErrorKind };

    /// Reads the next bytes into the front of `block`, and returns how many they are: 0 at the end, or if `block` is
    /// empty. A directory with the names `a` and `b` may be read as `a\0b`, `\0`, and the end.
    ///
    /// If its bytes are known, a read fails only if memory runs out, with an error of the kind `OutOfMemory`, or after
    /// the last byte, with the kind of error in which reading this directory ends.
    fn read(&mut self, block: &mut [u8]) -> io::Result<usize>
        ensures bound { ReadsAtMost result block.new }
        ensures bytes { ReadConsumes (left self.old) (left self.new) result block.new }
        ensures kept { fault self.new ≡ fault self.old }
        ensures end { IfOk result (λ n. n ≡ 0 → 0 < length block.new
            → HasEnded (left self.new) (fault self.new)) }
        ensures fails { IfErr result (λ e. ReadMayFail (left self.old) (fault self.old) e) };
}

/// The system that any [`Files`] reaches, such as a runtime of your own, or the real one with an allocator. Contracts
/// know nothing about what it holds.
///
/// ```text
/// let disk = Disk::new(FilesSystem { files: rt }, alloc);    // a tree of the files that `rt` reaches
/// walk_in(alloc, disk, "src/*.rs", options, u64::MAX)?
/// ```
#[derive(Clone, Copy, Drop)]
pub struct FilesSystem<F: Files + Drop> {
    /// What reaches the files.
    pub files: F,
}

/// It is believed, not proved, that these calls do what [`System`] says.
impl<F: Files + Drop> System for FilesSystem<F> {
    type Dir = FilesDirectory<F>;

    ghost holds = { λ _. None };

    fn lstat(&self, path: &str) -> io::Result<Metadata> {
        self.files.symlink_metadata(path)
    }

    fn stat(&self, path: &str) -> io::Result<Metadata> {
        self.files.metadata(path)
    }

    fn directory_id(&self, path: &str) -> io::Result<Option<DirectoryId>> {
        let found = self.files.metadata(path)?;
        if !found.is_dir() {
            return Ok(None);
        }
        let (dev, ino) = (found.dev(), found.ino());
        Ok(Some(DirectoryId { dev, ino }))
    }

    fn open(&self, path: &str) -> io::Result<FilesDirectory<F>> {
        let names = self.files.open_dir(path)?;
        Ok(FilesDirectory { names })
    }
}

/// A directory that a [`FilesSystem`] has opened.
#[derive(Drop)]
pub struct FilesDirectory<F: Files> {
    names: F::Dir,
}

impl<F: Files> Directory for FilesDirectory<F> {
    ghost left = { λ _. None };

    ghost fault = { λ _. None };

    fn read(&mut self, block: &mut [u8]) -> io::Result<usize> {
        self.names.read(block)
    }
}

/// The real system, as a [`FilesSystem`].
impl System for HostRuntime {
    type Dir = OpenDirectory;

    ghost holds = { λ _. None };

    fn lstat(&self, path: &str) -> io::Result<Metadata> {
        FilesSystem { files: *self }.lstat(path)
    }

    fn stat(&self, path: &str) -> io::Result<Metadata> {
        FilesSystem { files: *self }.stat(path)
    }

    fn directory_id(&self, path: &str) -> io::Result<Option<DirectoryId>> {
        FilesSystem { files: *self }.directory_id(path)
    }

    fn open(&self, path: &str) -> io::Result<OpenDirectory> {
        let opened = FilesSystem { files: *self }.open(path)?;
        Ok(OpenDirectory { opened })
    }
}

/// A directory that the real system has opened.
#[derive(Drop)]
pub struct OpenDirectory {
    opened: FilesDirectory<HostRuntime>,
}

impl Directory for OpenDirectory {
    ghost left = { λ _. None };

    ghost fault = { λ _. None };

    fn read(&mut self, block: &mut [u8]) -> io::Result<usize> {
        self.opened.read(block)
    }
}
