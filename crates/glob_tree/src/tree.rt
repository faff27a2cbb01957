//! Trees: what a walk can ask, and what the answers are.
ghost use Rattle.std.specs.Prelude.{◌≡◌, ℕ, ◌+◌, Option, IfOk, IfErr};
ghost use Rattle.glob_tree.specs.Content.{Content, look_result, list_result};
ghost use Rattle.glob_tree.specs.Answers.{IsTold, IsListAnswer, IsListError, IsNamesAnswer, entries_of, entry_count};
ghost use Rattle.glob_tree.specs.Looks.{is_directory};
ghost use Rattle.glob_tree.specs.Words.{list_error_words};

use crate::name::Name;
use std::alloc::{AllocError, AllocFailed, Allocator, Global};
use std::error::Error;
use std::fmt;
use std::io::{self, ErrorKind};

/// What a path leads to. If `a` is a directory with the file `b`, then `a` leads to `Dir`, `a/b` to `Other`, and `a/c`
/// to `Missing`.
#[derive(Clone, Copy, PartialEq, Eq, Debug)]
pub enum Look {
    /// A directory.
    Dir,
    /// Something other than a directory.
    Other,
    /// Nothing.
    Missing,
}

impl Look {
    /// Whether it is a directory: true only for `Dir`.
    pub fn is_dir(self) -> bool
        ensures { result ≡ is_directory self }
    {
        matches!(self, Look::Dir)
    }
}

/// An entry of a directory, as a listing returns it. A file `b` has the name `b`, and is not a directory.
#[derive(Drop)]
#[derive_where(Debug)]
pub struct Entry<A: Allocator = Global> {
    /// Its name in the directory.
    pub name: Name<A>,
    /// Whether it is a directory, even one that cannot be listed. In a listing of names it may be false for a
    /// directory.
    pub is_dir: bool,
}

/// Why a listing failed. For a file in a tree in memory it is `Read`, with an I/O error of the kind `NotADirectory`.
///
/// `Read` prints like its I/O error, which no clause describes, and `Memory` prints `out of memory`.
#[derive(Debug, Drop)]
pub enum ListError {
    /// The directory cannot be read, or the path does not lead to one, for this reason.
    Read(io::Error),
    /// Out of memory: the entries could not be allocated.
    Memory,
}

impl fmt::Display for ListError {
    ghost output = { list_error_words };

    fn fmt<W: fmt::Write>(&self, f: &mut fmt::Formatter<W>) -> fmt::Result {
        match self {
            ListError::Read(error) => fmt::Display::fmt(error, f),
            ListError::Memory => f.write_str("out of memory"),
        }
    }
}

impl Error for ListError {}

/// A failed allocation.
impl From<AllocError> for ListError {
    ghost use Rattle.std.specs.Prelude.{◌≡◌};
    ghost use Rattle.glob_tree.specs.declared.tree.ListError.TheVariants.{Memory};

    ghost from_gives = { λ _ error. error ≡ Memory };

    fn from(_error: AllocError) -> ListError {
        ListError::Memory
    }
}

/// A failed allocation.
impl<T: Drop> From<AllocFailed<T>> for ListError {
    ghost use Rattle.std.specs.Prelude.{◌≡◌};
    ghost use Rattle.glob_tree.specs.declared.tree.ListError.TheVariants.{Memory};

    ghost from_gives = { λ _ error. error ≡ Memory };

    fn from(_error: AllocFailed<T>) -> ListError {
        ListError::Memory
    }
}

/// An error of the system. If its kind is `OutOfMemory`, it is a failed allocation.
impl From<io::Error> for ListError {
    ghost use Rattle.glob_tree.specs.Answers.{IsListErrorOf};

    ghost from_gives = { IsListErrorOf };

    fn from(error: io::Error) -> ListError {
        if error.kind() == ErrorKind::OutOfMemory {
            ListError::Memory
        } else {
            ListError::Read(error)
        }
    }
}

/// A tree of files and directories, as a walk sees it.
///
/// Contracts see two things of a tree:
///
/// - `tells` is its content, if it is known: what is at each key, and the current directory. Each answer is then the
///   content's, apart from allocation failures, and no call changes the content. If a path does not lead to a
///   directory, a listing may return any entries and any error. If `tells` is `None`, any answer may come.
/// - `asks` counts what was asked: one for each `look`, one for each `list` or `list_names`, and one for each entry
///   that these return. A tree keeps the count in a field of type [`Asks`](crate::Asks).
///
/// For a tree in memory, `tree.look("/")` returns `Look::Dir`, and raises its `asks` by one.
pub trait Tree: Drop {
    /// The allocator of the entries that it lists.
    type Alloc: Allocator + Copy;

    ghost tells: { Self → Option Content };

    ghost asks: { Self → ℕ };

    /// What `path` leads to, from the root if it begins with `/`, and otherwise from the current directory. If the
    /// current directory is `/a` and has the file `b`, both `look("b")` and `look("/a/b")` return `Look::Other`, and
    /// `look("b/c")` returns `Look::Missing`. It is one question.
    ///
    /// [`AllocError`] is an allocation failure, and says nothing about the path.
    fn look(&mut self, path: &str) -> Result<Look, AllocError>
        ensures asks { asks self.new ≡ asks self.old + 1 }
        ensures content { tells self.new ≡ tells self.old }
        ensures seen { (c : Content) → IsTold (tells self.old) c
            → IfOk result (λ seen. seen ≡ look_result c path.now) };

    /// The entries of the directory that `path` leads to, each once and in any order, without `.` and `..`. For a
    /// directory with the file `b` and the directory `c`, it returns `b` with `is_dir` false and `c` with `is_dir`
    /// true. It is one question, plus one for each entry.
    ///
    /// [`ListError::Read`] is the reason why it cannot be listed, for example that `path` leads to a file or to
    /// nothing, and [`ListError::Memory`] an allocation failure.
    fn list(&mut self, path: &str) -> Result<Vec<Entry<Self::Alloc>, Self::Alloc>, ListError>
        ensures asks { asks self.new ≡ asks self.old + 1 + entry_count result }
        ensures content { tells self.new ≡ tells self.old }
        ensures entries { (c : Content) → IsTold (tells self.old) c
            → IfOk result (λ v. IsListAnswer (list_result c path.now) (entries_of v.items)) }
        ensures fails { (c : Content) → IsTold (tells self.old) c
            → IfErr result (λ e. IsListError (list_result c path.now) e) };

    /// Like [`list`](Tree::list), for callers that need only the names: `is_dir` may be `false` for any entry. A tree
    /// that would have to find out the kind of each entry can skip that here.
    ///
    /// For a directory with the directory `a` and the file `b` it returns the names `a` and `b`. The errors are those
    /// of [`list`](Tree::list), which is the provided body.
    fn list_names(&mut self, path: &str) -> Result<Vec<Entry<Self::Alloc>, Self::Alloc>, ListError>
        ensures asks { asks self.new ≡ asks self.old + 1 + entry_count result }
        ensures content { tells self.new ≡ tells self.old }
        ensures names { (c : Content) → IsTold (tells self.old) c
            → IfOk result (λ v. IsNamesAnswer (list_result c path.now) (entries_of v.items)) }
        ensures fails { (c : Content) → IsTold (tells self.old) c
            → IfErr result (λ e. IsListError (list_result c path.now) e) }
    {
        self.list(path)
    }
}
