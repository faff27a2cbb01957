//! The file system, where a symbolic link is not treated as a directory unless links are followed.
ghost use Rattle.std.specs.Prelude.{◌≡◌, ◌+◌, true, IfOk, IfErr, OnOk, option_and_then};
ghost use Rattle.glob_tree.specs.Answers.{IsEntriesAnswer, IsListAnswer, IsListError, IsNamesAnswer, AreListedNames, IsTold};
ghost use Rattle.glob_tree.specs.Answers.{entries_of, entry_count, names_of};
ghost use Rattle.glob_tree.specs.Content.{Content, list_result, look_result};
ghost use Rattle.glob_tree.specs.Disks.{content_with_links};
ghost use Rattle.glob_tree.specs.FileSystems.{FileSystem, IsHeld, IsReceived, is_direct, strays_found};
ghost use Rattle.glob_tree.specs.Followed.{AreKindsSaid, IsLookSaid};
ghost use Rattle.glob_tree.specs.Private.Listing.{are_looked_up};
ghost use Rattle.glob_tree.specs.Received.{IsLookReceived};
ghost use Rattle.glob_tree.specs.declared.physical.Links.TheVariants.{Followed, Kept};
ghost use Rattle.glob_tree.specs.declared.reading.Kinds.TheVariants.{LookedUp, LeftOut};

use crate::asks::Asks;
use crate::lookups::Lookups;
use crate::reading::Kinds;
use crate::strays::Strays;
use crate::system::System;
use crate::tree::{Entry, ListError, Look, Tree};
use std::alloc::{AllocError, Allocator, Global};
use std::marker::Model;

/// Whether symbolic links are followed.
#[derive(Clone, Copy, PartialEq, Eq)]
pub enum Links {
    /// A link is not treated as a directory. A walk by `**` enters no link, so it ends on a cycle of links.
    Kept,
    /// A link is treated as what it points to, or as a non-directory if its target is missing. A link to one of its own
    /// ancestors is not treated as a directory, and the [`Strays`] receive it, so a walk by `**` ends on a cycle of
    /// links, such as `a/up` that points to `a`. If the system numbers no files, the walk ends when the system stops
    /// following links.
    Followed,
}

/// The file system that a [`System`] reaches, as a tree where a symbolic link is not treated as a directory unless
/// links are [`Followed`](Links::Followed): nothing is below it, so `link/a` is missing. If the system holds a known
/// file system in which each listed file can be looked up, the tree has its content; if links are followed, no link may
/// point to a directory for this. If some do, a look at a path that goes through none of these links says what `stat`
/// says (`Other` for a link without a target), or the path is a link to a directory above it, and the strays receive
/// it. Relative paths start at the current directory of the process.
///
/// A walk over it is complete, or the [`Strays`] receive what is missing: each name that is not UTF-8, without loss of
/// other entries, and each path where the system does not say what is there, such as one below a directory that may be
/// listed but not searched, or a followed link in a cycle of links. No other path is received: none where nothing is, and
/// no link without a target. A directory that cannot be listed is an error of its listing. The clauses promise this for
/// each path that does not go on behind a link to a directory.
///
/// ```text
/// let disk = PhysicalDisk::new(rt, Lost { count: 0 }, alloc);
/// walk_in(alloc, disk, "**/*.rs", options, u64::MAX)?    // `a/b.rs`, but not `link/b.rs` if `link` points to `a`
/// ```
///
/// A look makes one system call, and one more for each directory above the path, except for those that are also above
/// the last such path. A listing makes one for each entry (`list_names` makes none if links are kept), besides the
/// calls that open, read and close the directory. If links are followed, each link costs a second call, and a link to a
/// directory costs at most one more for each of its ancestors. No clause counts system calls.
#[derive(Drop)]
pub struct PhysicalDisk<R: System, S: Strays, A: Allocator = Global> {
    lookups: Lookups<R, S, A>,
    asks: Asks,
}

/// The file system, if it is known, how much was asked, whether links are followed, and what the strays received.
impl<R: System, S: Strays, A: Allocator> Model for PhysicalDisk<R, S, A> {
    ghost use Rattle.glob_tree.specs.Disks.{PhysicalModel};

    ghost Value = { PhysicalModel S };

    ghost view = { λ disk. record {
      files = disk.lookups.files;
      asks = disk.asks;
      links = disk.lookups.links;
      strays = disk.lookups.strays;
    } };
}

impl<R: System, S: Strays, A: Allocator + Copy> PhysicalDisk<R, S, A> {
    /// A tree of the file system that `rt` reaches, with links kept. Its listings are allocated from `alloc`. This call
    /// takes no memory.
    pub fn new(rt: R, strays: S, alloc: A) -> Self
        ensures files { result.files ≡ R.holds rt }
        ensures asks { result.asks ≡ 0 }
        ensures links { result.links ≡ Kept }
        ensures strays { result.strays ≡ strays }
    {
        PhysicalDisk::with_links(rt, strays, alloc, Links::Kept)
    }

    /// Like [`new`](Self::new), but `links` says whether links are kept or followed.
    pub fn with_links(rt: R, strays: S, alloc: A, links: Links) -> Self
        ensures files { result.files ≡ R.holds rt }
        ensures asks { result.asks ≡ 0 }
        ensures links { result.links ≡ links }
        ensures strays { result.strays ≡ strays }
    {
        PhysicalDisk {
            lookups: Lookups::new(rt, links, strays, alloc),
            asks: Asks::new(),
        }
    }
}

impl<R: System, S: Strays, A: Allocator + Copy> Tree for PhysicalDisk<R, S, A> {
    type Alloc = A;

    ghost use Rattle.std.specs.Prelude.{option_and_then};
    ghost use Rattle.glob_tree.specs.Disks.{content_with_links};

    ghost tells = { λ disk. option_and_then (content_with_links disk.links) disk.files };

    ghost asks = { λ disk. disk.asks };

    /// A symbolic link that is not followed is `Other`, and what is below it is `Missing`. A path that cannot be looked
    /// up is `Missing`, and the strays receive it unless the system says that nothing is there. It fails only if the
    /// I/O error's kind is `OutOfMemory`, or an allocation fails.
    fn look(&mut self, path: &str) -> Result<Look, AllocError>
        ensures files { self.new.files ≡ self.old.files }
        ensures links { self.new.links ≡ self.old.links }
        ensures asks { self.new.asks ≡ self.old.asks + 1 }
        ensures seen { (c : Content)
            → IsTold (option_and_then (content_with_links self.old.links) self.old.files) c
            → IfOk result (λ seen. seen ≡ look_result c path.now) }
        ensures said { (f : FileSystem) → IsHeld self.old.files f → is_direct f path.now ≡ true
            → IfOk result (λ seen. IsLookSaid self.old.links f path.now seen
            (S.paths self.old.strays) (S.paths self.new.strays)) }
        ensures names { S.names self.new.strays ≡ S.names self.old.strays }
        ensures received { IfOk result (λ seen. IsLookReceived path.now seen
            (S.paths self.old.strays) (S.paths self.new.strays)) }
    {
        self.asks = self.asks.after(1);
        self.lookups.look(path)
    }

    /// An entry whose kind cannot be learned is not reported as a directory, and the strays receive its path. The error
    /// is `Read` with the I/O error of the system, such as `PermissionDenied` or `NotFound`, or `Memory` if an
    /// allocation failed.
    fn list(&mut self, path: &str) -> Result<Vec<Entry<A>, A>, ListError>
        ensures files { self.new.files ≡ self.old.files }
        ensures links { self.new.links ≡ self.old.links }
        ensures asks { self.new.asks ≡ self.old.asks + 1 + entry_count result }
        ensures entries { (c : Content)
            → IsTold (option_and_then (content_with_links self.old.links) self.old.files) c
            → IfOk result (λ v. IsListAnswer (list_result c path.now) (entries_of v.items)) }
        ensures fails { (c : Content)
            → IsTold (option_and_then (content_with_links self.old.links) self.old.files) c
            → IfErr result (λ e. IsListError (list_result c path.now) e) }
        ensures said { (f : FileSystem) → IsHeld self.old.files f → IfOk result
            (λ v. AreKindsSaid self.old.links f path.now (list_result f.content path.now)
            (entries_of v.items) (S.paths self.old.strays) (S.paths self.new.strays)) }
        ensures named { (f : FileSystem) → IsHeld self.old.files f → IfOk result
            (λ v. AreListedNames (list_result f.content path.now) (names_of (entries_of v.items))) }
        ensures unread { (f : FileSystem) → IsHeld self.old.files f
            → IfErr result (λ e. IsListError (list_result f.content path.now) e) }
        ensures strays { (f : FileSystem) → IsHeld self.old.files f
            → OnOk result (IsReceived (list_result f.content path.now) (strays_found f path.now)
            (S.names self.old.strays) (S.names self.new.strays)) }
    {
        self.listing(path, Kinds::LookedUp)
    }

    /// The names of the entries. If links are kept, it looks up no entry, so it reports none as a directory; the
    /// clauses promise only that what it reports as a directory is one. If links are followed, it is
    /// [`list`](Tree::list), since only a lookup finds the links that the strays receive. Errors are as for a listing.
    fn list_names(&mut self, path: &str) -> Result<Vec<Entry<A>, A>, ListError>
        ensures files { self.new.files ≡ self.old.files }
        ensures links { self.new.links ≡ self.old.links }
        ensures asks { self.new.asks ≡ self.old.asks + 1 + entry_count result }
        ensures names { (c : Content)
            → IsTold (option_and_then (content_with_links self.old.links) self.old.files) c
            → IfOk result (λ v. IsNamesAnswer (list_result c path.now) (entries_of v.items)) }
        ensures fails { (c : Content)
            → IsTold (option_and_then (content_with_links self.old.links) self.old.files) c
            → IfErr result (λ e. IsListError (list_result c path.now) e) }
        ensures said { (f : FileSystem) → IsHeld self.old.files f → self.old.links ≡ Followed
            → IfOk result (λ v. AreKindsSaid self.old.links f path.now
            (list_result f.content path.now) (entries_of v.items)
            (S.paths self.old.strays) (S.paths self.new.strays)) }
        ensures unseen { self.old.links ≡ Kept → S.paths self.new.strays ≡ S.paths self.old.strays }
        ensures named { (f : FileSystem) → IsHeld self.old.files f → IfOk result
            (λ v. AreListedNames (list_result f.content path.now) (names_of (entries_of v.items))) }
        ensures unread { (f : FileSystem) → IsHeld self.old.files f
            → IfErr result (λ e. IsListError (list_result f.content path.now) e) }
        ensures strays { (f : FileSystem) → IsHeld self.old.files f
            → OnOk result (IsReceived (list_result f.content path.now) (strays_found f path.now)
            (S.names self.old.strays) (S.names self.new.strays)) }
    {
        match self.lookups.links() {
            Links::Kept => self.listing(path, Kinds::LeftOut),
            Links::Followed => self.list(path),
        }
    }
}

impl<R: System, S: Strays, A: Allocator + Copy> PhysicalDisk<R, S, A> {
    /// Lists a directory, and counts the questions.
    fn listing(&mut self, path: &str, kinds: Kinds) -> Result<Vec<Entry<A>, A>, ListError>
        ensures files { self.new.files ≡ self.old.files }
        ensures links { self.new.links ≡ self.old.links }
        ensures asks { self.new.asks ≡ self.old.asks + 1 + entry_count result }
        ensures entries { (c : Content)
            → IsTold (option_and_then (content_with_links self.old.links) self.old.files) c
            → IfOk result (λ v. IsEntriesAnswer (are_looked_up kinds) (list_result c path.now)
            (entries_of v.items)) }
        ensures fails { (c : Content)
            → IsTold (option_and_then (content_with_links self.old.links) self.old.files) c
            → IfErr result (λ e. IsListError (list_result c path.now) e) }
        ensures said { (f : FileSystem) → IsHeld self.old.files f → kinds ≡ LookedUp → IfOk result
            (λ v. AreKindsSaid self.old.links f path.now (list_result f.content path.now)
            (entries_of v.items) (S.paths self.old.strays) (S.paths self.new.strays)) }
        ensures unseen { kinds ≡ LeftOut → S.paths self.new.strays ≡ S.paths self.old.strays }
        ensures named { (f : FileSystem) → IsHeld self.old.files f → IfOk result
            (λ v. AreListedNames (list_result f.content path.now) (names_of (entries_of v.items))) }
        ensures unread { (f : FileSystem) → IsHeld self.old.files f
            → IfErr result (λ e. IsListError (list_result f.content path.now) e) }
        ensures strays { (f : FileSystem) → IsHeld self.old.files f
            → OnOk result (IsReceived (list_result f.content path.now) (strays_found f path.now)
            (S.names self.old.strays) (S.names self.new.strays)) }
    {
        self.asks = self.asks.after(1);
        let entries = self.lookups.list(path, kinds)?;
        self.asks = self.asks.after(entries.len());
        Ok(entries)
    }
}
