//! A tree held in memory.
ghost use Rattle.std.specs.Prelude.{◌≡◌, ◌+◌, true, Some, Ok, IsOk, IfOk, IfErr, OnOk, OnErr, MatchResult};
ghost use Rattle.glob_tree.specs.Answers.{IsListError, entries_of, entry_count};
ghost use Rattle.glob_tree.specs.Content.{is_content, look_result, list_result, Entries};
ghost use Rattle.glob_tree.specs.Memory.{empty_content, add_refusal, content_with, current_refusal, directory_key, with_current, IsChangeAnswer, IsFaultOf, change_answer, list_fault};
ghost use Rattle.glob_tree.specs.Private.Places.{IsDirectoryOf, IsPlace};
ghost use Rattle.glob_tree.specs.declared.kind.Kind.TheVariants.{Dir, Shut, Other};

use crate::asks::Asks;
use crate::keys::{last_name, proper_names};
use crate::kind::Kind;
use crate::name::name_from_proper;
use crate::nodes::Nodes;
use crate::refusal::TreeRefusal;
use crate::tree::{Entry, ListError, Look, Tree};
use std::alloc::{AllocError, Allocator, Global};
use std::io;
use std::marker::Model;

/// A tree held in memory. Contracts know its content.
///
/// ```text
/// let mut tree = MemTree::new(alloc)?;
/// tree.add_dir("/a")?;
/// tree.add_other("/a/b")?;
/// tree.look("a/b")?          // Look::Other
/// tree.list("a")?            // one entry: b, which is not a directory
/// tree.add_dir("/x/y")       // Err(TreeRefusal::NoParent)
/// ```
#[derive(Debug, Drop)]
pub struct MemTree<A: Allocator = Global> {
    nodes: Nodes<A>,
    current: usize,
    asks: Asks,
    alloc: A,
}

impl<A: Allocator> Model for MemTree<A> {
    ghost use Rattle.std.specs.Prelude.{◌≡◌, ◌<◌, length, true};
    ghost use Rattle.glob_tree.specs.Content.{is_content};
    ghost use Rattle.glob_tree.specs.Memory.{MemoryTree};
    ghost use Rattle.glob_tree.specs.Private.Nodes.{content_at};

    ghost Value = { MemoryTree };

    ghost view = { λ a. record { content = content_at a.nodes a.current; asks = a.asks } };

    ghost invariant = { λ a. (a.current < length a.nodes)
        × (is_content (content_at a.nodes a.current) ≡ true) };
}

impl<A: Allocator + Copy> MemTree<A> {
    /// A tree with only its root, which is the current directory. All that the tree holds and lists is allocated from
    /// `alloc`.
    ///
    /// This call succeeds, since only changes take memory. It returns the same error type as they do.
    pub fn new(alloc: A) -> Result<Self, AllocError>
        ensures made { IsOk result }
        ensures empty { IfOk result (λ tree. tree.content ≡ empty_content) }
        ensures content { IfOk result (λ tree. is_content tree.content ≡ true) }
        ensures asks { IfOk result (λ tree. tree.asks ≡ 0) }
    {
        Ok(MemTree {
            nodes: Nodes::new(alloc),
            current: 0,
            asks: Asks::new(),
            alloc,
        })
    }

    /// Adds an empty directory at `path`, which must be `/` followed by one or more proper names joined by `/`.
    ///
    /// The first of these errors that applies is returned, and then the content is unchanged:
    ///
    /// - [`TreeRefusal::Improper`]: `path` has another form.
    /// - [`TreeRefusal::NoParent`]: `path` without its last name does not lead to a directory.
    /// - [`TreeRefusal::Taken`]: something is at `path` already.
    /// - [`TreeRefusal::Memory`]: an allocation failed.
    pub fn add_dir(&mut self, path: &str) -> Result<(), TreeRefusal>
        ensures answer { IsChangeAnswer (add_refusal self.old.content path.now) result }
        ensures added { OnOk result
            (self.new.content ≡ content_with self.old.content path.now Dir) }
        ensures refused { OnErr result (self.new.content ≡ self.old.content) }
        ensures content { is_content self.new.content ≡ true }
        ensures asks { self.new.asks ≡ self.old.asks }
    {
        self.add(path, Kind::Dir)
    }

    /// Adds a directory that cannot be listed: listing it fails with an error of this kind. After `add_shut("/a",
    /// ErrorKind::PermissionDenied)`, a look at `/a` returns `Look::Dir`, and `list("/a")` fails.
    ///
    /// Errors are as for [`add_dir`](MemTree::add_dir).
    pub fn add_shut(&mut self, path: &str, kind: io::ErrorKind) -> Result<(), TreeRefusal>
        ensures answer { IsChangeAnswer (add_refusal self.old.content path.now) result }
        ensures added { OnOk result
            (self.new.content ≡ content_with self.old.content path.now (Shut kind)) }
        ensures refused { OnErr result (self.new.content ≡ self.old.content) }
        ensures content { is_content self.new.content ≡ true }
        ensures asks { self.new.asks ≡ self.old.asks }
    {
        self.add(path, Kind::Shut(kind))
    }

    /// Adds something other than a directory, such as a file. After `add_other("/a.rs")`, a look at `/a.rs` returns
    /// `Look::Other`.
    ///
    /// Errors are as for [`add_dir`](MemTree::add_dir).
    pub fn add_other(&mut self, path: &str) -> Result<(), TreeRefusal>
        ensures answer { IsChangeAnswer (add_refusal self.old.content path.now) result }
        ensures added { OnOk result
            (self.new.content ≡ content_with self.old.content path.now Other) }
        ensures refused { OnErr result (self.new.content ≡ self.old.content) }
        ensures content { is_content self.new.content ≡ true }
        ensures asks { self.new.asks ≡ self.old.asks }
    {
        self.add(path, Kind::Other)
    }

    /// Makes the directory at `path` the current one. `path` is `/`, or has the form that [`add_dir`](MemTree::add_dir)
    /// wants. After `set_current("/a")`, the path `b` leads where `/a/b` leads.
    ///
    /// After one of these errors the current directory is unchanged:
    ///
    /// - [`TreeRefusal::Improper`]: `path` has another form.
    /// - [`TreeRefusal::NoDirectory`]: `path` does not lead to a directory.
    #[tactic(auto, unfolding(crate::specs::Memory::current_refusal, crate::specs::Memory::directory_key, crate::specs::Memory::with_current))]
    pub fn set_current(&mut self, path: &str) -> Result<(), TreeRefusal>
        ensures answer { result ≡ change_answer (current_refusal self.old.content path.now) }
        ensures current { OnOk result
            (self.new.content ≡ with_current self.old.content (directory_key path.now)) }
        ensures refused { OnErr result (self.new.content ≡ self.old.content) }
        ensures content { is_content self.new.content ≡ true }
        ensures asks { self.new.asks ≡ self.old.asks }
    {
        let number = self.directory(path)?;
        self.current = number;
        Ok(())
    }

    /// Adds an entry of any kind.
    #[tactic(auto, unfolding(crate::specs::Memory::content_with))]
    fn add(&mut self, path: &str, kind: Kind) -> Result<(), TreeRefusal>
        ensures answer { IsChangeAnswer (add_refusal self.old.content path.now) result }
        ensures added { OnOk result
            (self.new.content ≡ content_with self.old.content path.now kind) }
        ensures refused { OnErr result (self.new.content ≡ self.old.content) }
        ensures content { is_content self.new.content ≡ true }
        ensures asks { self.new.asks ≡ self.old.asks }
    {
        let (directory, name) = self.place(path)?;
        let name = name_from_proper(self.alloc, name)?;
        self.nodes.add(directory, name, kind)?;
        Ok(())
    }
}

impl<A: Allocator + Copy> Tree for MemTree<A> {
    type Alloc = A;

    ghost tells = { λ tree. Some tree.content };

    ghost asks = { λ tree. tree.asks };

    /// It never fails: for a path that leads nowhere it returns `Look::Missing`.
    fn look(&mut self, path: &str) -> Result<Look, AllocError>
        ensures well_formed { is_content self.old.content ≡ true }
        ensures asks { self.new.asks ≡ self.old.asks + 1 }
        ensures content { self.new.content ≡ self.old.content }
        ensures seen { result ≡ Ok (look_result self.old.content path.now) }
    {
        self.asks = self.asks.after(1);
        Ok(self.seen(path))
    }

    /// The error is [`ListError::Read`], with the kind `NotADirectory` if `path` leads to a non-directory, `NotFound`
    /// if it leads nowhere, and for a directory of [`add_shut`](MemTree::add_shut) the kind given there; or
    /// [`ListError::Memory`] if the entries cannot be allocated.
    fn list(&mut self, path: &str) -> Result<Vec<Entry<A>, A>, ListError>
        ensures well_formed { is_content self.old.content ≡ true }
        ensures asks { self.new.asks ≡ self.old.asks + 1 + entry_count result }
        ensures content { self.new.content ≡ self.old.content }
        ensures entries { IfOk result (λ v.
            list_result self.old.content path.now ≡ Entries (entries_of v.items)) }
        ensures fails { IfErr result (λ e. IsListError (list_result self.old.content path.now) e) }
        ensures fault { IfErr result (λ e. IsFaultOf (list_fault self.old.content path.now) e) }
    {
        self.asks = self.asks.after(1);
        let entries = self.entries(path)?;
        self.asks = self.asks.after(entries.len());
        Ok(entries)
    }
}

impl<A: Allocator + Copy> MemTree<A> {
    /// The entries of the directory at a path.
    #[tactic(auto, unfolding(crate::specs::Memory::list_fault))]
    pub(crate) fn entries(&self, path: &str) -> Result<Vec<Entry<A>, A>, ListError>
        ensures entries { IfOk result (λ v.
            list_result self.now.content path.now ≡ Entries (entries_of v.items)) }
        ensures fails { IfErr result (λ e. IsListError (list_result self.now.content path.now) e) }
        ensures fault { IfErr result (λ e. IsFaultOf (list_fault self.now.content path.now) e) }
    {
        let number = self
            .nodes
            .find(self.current, path)
            .ok_or(ListError::Read(io::Error::from(io::ErrorKind::NotFound)))?;
        match self.nodes.kind(number) {
            Kind::Shut(kind) => Err(ListError::Read(io::Error::from(kind))),
            Kind::Other => Err(ListError::Read(io::Error::from(io::ErrorKind::NotADirectory))),
            Kind::Dir => Ok(self.nodes.entries(self.alloc, number)?),
        }
    }
}

impl<A: Allocator> MemTree<A> {
    /// What a path leads to.
    pub(crate) fn seen(&self, path: &str) -> Look
        ensures { result ≡ look_result self.now.content path.now }
    {
        let Some(number) = self.nodes.find(self.current, path) else {
            return Look::Missing;
        };
        if self.nodes.kind(number).is_dir() {
            return Look::Dir;
        }
        Look::Other
    }

    /// Where to add an entry at `path`: the number of its directory, and its name.
    #[tactic(auto, unfolding(crate::specs::Memory::add_refusal))]
    fn place<'p>(&self, path: &'p str) -> Result<(usize, &'p str), TreeRefusal>
        ensures { MatchResult result
            (λ place. IsPlace self.now.content path.now place.0 place.1.now)
            (λ e. add_refusal self.now.content path.now ≡ Some e) }
    {
        let names = proper_names(path).ok_or(TreeRefusal::Improper)?;
        let (directory, name) = last_name(names);
        let number = self
            .nodes
            .directory(directory)
            .ok_or(TreeRefusal::NoParent)?;
        if self.nodes.child(number, name).is_some() {
            return Err(TreeRefusal::Taken);
        }
        Ok((number, name))
    }

    /// The number of the directory that a path names.
    #[tactic(auto, unfolding(crate::specs::Memory::current_refusal, crate::specs::Memory::directory_key))]
    fn directory(&self, path: &str) -> Result<usize, TreeRefusal>
        ensures { MatchResult result
            (λ number. IsDirectoryOf self.now.content path.now number)
            (λ e. current_refusal self.now.content path.now ≡ Some e) }
    {
        if path == "/" {
            return Ok(self.nodes.root());
        }
        let names = proper_names(path).ok_or(TreeRefusal::Improper)?;
        self.nodes
            .directory(Some(names))
            .ok_or(TreeRefusal::NoDirectory)
    }
}
