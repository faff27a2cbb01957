//! What the calls of a system say about paths and entries, with links kept or followed.
ghost use Rattle.std.specs.Prelude.{if◌then◌else◌, ◌≡◌, ◌≢◌, ◌∷◌, [], true, false, None, IfOk, IfErr, IsSome, OnOk};
ghost use Rattle.std.specs.List.{filter};
ghost use Rattle.glob_tree.specs.Answers.{AreListedNames, IsEntriesAnswer, IsListError, entries_of, names_of};
ghost use Rattle.glob_tree.specs.Content.{list_result, look_result};
ghost use Rattle.glob_tree.specs.FileSystems.{FileSystem, IsHeld, IsReceived, is_direct, is_lost, lstat_found, strays_found};
ghost use Rattle.glob_tree.specs.Followed.{AreKindsSaid, IsLookReported, IsLookSaid};
ghost use Rattle.glob_tree.specs.Looks.{is_directory};
ghost use Rattle.glob_tree.specs.Private.Listing.{IsSaid, are_looked_up};
ghost use Rattle.glob_tree.specs.Private.Looking.{HasWay, IsFoundAs, IsLookedUp, IsSeen, IsStopped, IsWay, LeadsOn};
ghost use Rattle.glob_tree.specs.Received.{IsLookReceived, ReceivesAtMost, ReceivesOnWay};
ghost use Rattle.glob_tree.specs.Strays.{and_then};
ghost use Rattle.glob_tree.specs.declared.reading.Kinds.TheVariants.{LookedUp, LeftOut};

mod following;

use crate::path_text::{cut_last, is_on_way};
use crate::physical::Links;
use crate::reading::{Kinds, Reader, entries};
use crate::strays::{Strays, settle};
use crate::system::System;
use crate::tree::{Entry, ListError, Look};
use std::alloc::{AllocError, Allocator};
use std::fs::Metadata;
use std::io;
use std::marker::Model;

/// The calls of a system, whether links are followed, and who receives what the calls cannot settle.
#[derive(Drop)]
pub(crate) struct Lookups<R: System, S: Strays, A: Allocator> {
    rt: R,
    links: Links,
    strays: S,
    /// The last path whose directories were all looked at. Paths beside it need no second look at them.
    way: String<A>,
}

impl<R: System, S: Strays, A: Allocator> Model for Lookups<R, S, A> {
    ghost use Rattle.std.specs.Prelude.{string_bytes};
    ghost use Rattle.glob_tree.specs.Private.Looking.{IsWayIn, LookupsModel};

    ghost Value = { LookupsModel S };

    ghost view = { λ a. record { files = R.holds a.rt; links = a.links; strays = a.strays } };

    ghost invariant = { λ a. IsWayIn a.links (R.holds a.rt) (string_bytes a.way) };
}

impl<R: System, S: Strays, A: Allocator + Copy> Lookups<R, S, A> {
    /// Lookups by the calls of `rt`.
    pub fn new(rt: R, links: Links, strays: S, alloc: A) -> Self
        ensures files { result.files ≡ R.holds rt }
        ensures links { result.links ≡ links }
        ensures strays { result.strays ≡ strays }
    {
        Lookups {
            rt,
            links,
            strays,
            way: String::new(alloc),
        }
    }

    /// Whether links are kept or followed.
    pub fn links(&self) -> Links
        ensures { result ≡ self.now.links }
    {
        self.links
    }

    /// What is at a path. Nothing is below a non-directory, so a path that goes on after a kept link is missing.
    pub fn look(&mut self, path: &str) -> Result<Look, AllocError>
        ensures files { self.new.files ≡ self.old.files }
        ensures links { self.new.links ≡ self.old.links }
        ensures seen { (f : FileSystem) → IsSeen self.old.links self.old.files f
            → IfOk result (λ seen. seen ≡ look_result f.content path.now) }
        ensures said { (f : FileSystem) → IsHeld self.old.files f → is_direct f path.now ≡ true
            → IfOk result (λ seen. IsLookSaid self.old.links f path.now seen
            (S.paths self.old.strays) (S.paths self.new.strays)) }
        ensures names { S.names self.new.strays ≡ S.names self.old.strays }
        ensures received { IfOk result (λ seen. IsLookReceived path.now seen
            (S.paths self.old.strays) (S.paths self.new.strays)) }
    {
        if self.has_way(path)? {
            self.look_at(path)
        } else {
            Ok(Look::Missing)
        }
    }

    /// Whether everything above a path is a directory.
    fn has_way(&mut self, path: &str) -> Result<bool, AllocError>
        ensures files { self.new.files ≡ self.old.files }
        ensures links { self.new.links ≡ self.old.links }
        ensures way { (f : FileSystem) → IsSeen self.old.links self.old.files f
            → IfOk result (HasWay f path.now) }
        ensures said { (f : FileSystem) → IsHeld self.old.files f → is_direct f path.now ≡ true
            → IfOk result (λ yes. yes ≡ false → HasWay f path.now false
            × IsLookReported self.old.links f path.now
            (S.paths self.old.strays) (S.paths self.new.strays)) }
        ensures settled { IfOk result (λ yes. yes ≡ true
            → S.paths self.new.strays ≡ S.paths self.old.strays) }
        ensures names { S.names self.new.strays ≡ S.names self.old.strays }
        ensures received { OnOk result
            (ReceivesOnWay path.now (S.paths self.old.strays) (S.paths self.new.strays)) }
    {
        let Some((above, _)) = cut_last(path) else {
            return Ok(true);
        };
        if self.is_known(above) {
            return Ok(true);
        }
        if !self.leads(above)? {
            return Ok(false);
        }
        self.way.clear();
        self.way.push_str(above)?;
        Ok(true)
    }

    /// Whether a path leads to a directory, through directories.
    fn leads(&mut self, above: &str) -> Result<bool, AllocError>
        ensures files { self.new.files ≡ self.old.files }
        ensures links { self.new.links ≡ self.old.links }
        ensures leads { (f : FileSystem) → IsSeen self.old.links self.old.files f
            → IfOk result (LeadsOn f above.now) }
        ensures said { (f : FileSystem) → IsHeld self.old.files f → is_direct f above.now ≡ true
            → IfOk result (λ yes. yes ≡ false → LeadsOn f above.now false
            × IsStopped self.old.links f above.now
            (S.paths self.old.strays) (S.paths self.new.strays)) }
        ensures settled { IfOk result (λ yes. yes ≡ true
            → S.paths self.new.strays ≡ S.paths self.old.strays) }
        ensures names { S.names self.new.strays ≡ S.names self.old.strays }
        ensures received { OnOk result
            (ReceivesOnWay above.now (S.paths self.old.strays) (S.paths self.new.strays)) }
    {
        let mut directory = above;
        while !self.is_known(directory) {
            if !self.is_dir(directory)? {
                return Ok(false);
            }
            let Some((further, _)) = cut_last(directory) else {
                break;
            };
            directory = further;
        }
        Ok(true)
    }

    /// Whether all directories of a path were looked at. The empty path has no directories.
    fn is_known(&self, directory: &str) -> bool
        ensures known { result ≡ true → (f : FileSystem)
            → IsSeen self.now.links self.now.files f → IsWay f.content directory.now }
        ensures some { result ≡ false → directory.now ≢ [] }
    {
        is_on_way(directory, self.way.as_str())
    }

    /// What is at a path below directories. A followed link is `Dir` if it points to a directory that is not
    /// above it, and otherwise `Other`.
    fn look_at(&mut self, path: &str) -> Result<Look, AllocError>
        ensures files { self.new.files ≡ self.old.files }
        ensures links { self.new.links ≡ self.old.links }
        ensures strays { S.names self.new.strays ≡ S.names self.old.strays }
        ensures seen { (f : FileSystem) → IsSeen self.old.links self.old.files f
            → is_direct f path.now ≡ true
            → IfOk result (λ seen. seen ≡ look_result f.content path.now) }
        ensures said { (f : FileSystem) → IsHeld self.old.files f → is_direct f path.now ≡ true
            → IfOk result (λ seen. IsLookedUp self.old.links f path.now seen
            (S.paths self.old.strays) (S.paths self.new.strays)) }
        ensures settled { IfOk result (λ seen. is_directory seen ≡ true
            → S.paths self.new.strays ≡ S.paths self.old.strays) }
        ensures received { OnOk result
            (ReceivesAtMost path.now (S.paths self.old.strays) (S.paths self.new.strays)) }
    {
        match self.found(path)? {
            None => Ok(Look::Missing),
            Some(found) if self.is_followed(&found) => Ok(look_for(self.leads_on(path)?)),
            Some(found) => Ok(look_for(found.is_dir())),
        }
    }

    /// The entries of the directory at a path.
    pub fn list(&mut self, path: &str, kinds: Kinds) -> Result<Vec<Entry<A>, A>, ListError>
        ensures files { self.new.files ≡ self.old.files }
        ensures links { self.new.links ≡ self.old.links }
        ensures entries { (f : FileSystem) → IsSeen self.old.links self.old.files f → IfOk result
            (λ v. IsEntriesAnswer (are_looked_up kinds) (list_result f.content path.now)
            (entries_of v.items)) }
        ensures said { (f : FileSystem) → IsHeld self.old.files f → kinds ≡ LookedUp → IfOk result
            (λ v. AreKindsSaid self.old.links f path.now (list_result f.content path.now)
            (entries_of v.items) (S.paths self.old.strays) (S.paths self.new.strays)) }
        ensures unseen { kinds ≡ LeftOut → S.paths self.new.strays ≡ S.paths self.old.strays }
        ensures named { (f : FileSystem) → IsHeld self.old.files f → IfOk result (λ v.
            AreListedNames (list_result f.content path.now) (names_of (entries_of v.items))) }
        ensures strays { (f : FileSystem) → IsHeld self.old.files f
            → OnOk result (IsReceived (list_result f.content path.now) (strays_found f path.now)
            (S.names self.old.strays) (S.names self.new.strays)) }
        ensures fails { (f : FileSystem) → IsHeld self.old.files f
            → IfErr result (λ e. IsListError (list_result f.content path.now) e) }
    {
        let alloc = *self.way.allocator();
        entries(self, alloc, path, kinds)
    }

    /// Whether a directory is at a path. A link to a directory counts only if links are followed.
    fn is_dir(&mut self, path: &str) -> Result<bool, AllocError>
        ensures files { self.new.files ≡ self.old.files }
        ensures links { self.new.links ≡ self.old.links }
        ensures strays { S.names self.new.strays ≡ S.names self.old.strays }
        ensures directory { (f : FileSystem) → IsSeen self.old.links self.old.files f
            → is_direct f path.now ≡ true
            → IfOk result (λ yes. yes ≡ is_directory (look_result f.content path.now)) }
        ensures said { (f : FileSystem) → IsHeld self.old.files f → is_direct f path.now ≡ true
            → IfOk result (λ yes. IsSaid true self.old.links f path.now yes
            (S.paths self.old.strays) (S.paths self.new.strays)) }
        ensures settled { IfOk result (λ yes. yes ≡ true
            → S.paths self.new.strays ≡ S.paths self.old.strays) }
        ensures received { OnOk result
            (ReceivesAtMost path.now (S.paths self.old.strays) (S.paths self.new.strays)) }
    {
        Ok(self.look_at(path)?.is_dir())
    }

    /// What is at a path; for a link, the link itself.
    fn found(&mut self, path: &str) -> Result<Option<Metadata>, AllocError>
        ensures files { self.new.files ≡ self.old.files }
        ensures links { self.new.links ≡ self.old.links }
        ensures strays { S.names self.new.strays ≡ S.names self.old.strays }
        ensures found { (f : FileSystem) → IsHeld self.old.files f → is_direct f path.now ≡ true
            → IfOk result (λ metadata. IsFoundAs (lstat_found f path.now) metadata) }
        ensures reported { (f : FileSystem) → IsHeld self.old.files f → is_direct f path.now ≡ true
            → OnOk result (S.paths self.new.strays
            ≡ and_then (S.paths self.old.strays) (filter (is_lost f) (path.now ∷ []))) }
        ensures known { IfOk result (λ metadata. IsSome metadata
            → S.paths self.new.strays ≡ S.paths self.old.strays) }
        ensures received { OnOk result
            (ReceivesAtMost path.now (S.paths self.old.strays) (S.paths self.new.strays)) }
    {
        let answer = self.rt.lstat(path);
        settle(&mut self.strays, path, answer)
    }
}

/// Non-UTF-8 names and links that point back to one of their ancestors go to the strays.
impl<R: System, S: Strays, A: Allocator + Copy> Reader for Lookups<R, S, A> {
    type Dir = R::Dir;

    ghost use Rattle.std.specs.Prelude.{true};

    ghost files = { λ a. a.files };

    ghost links = { λ a. a.links };

    ghost names = { λ a. S.names a.strays };

    ghost paths = { λ a. S.paths a.strays };

    ghost receives = { λ _. true };

    fn open(&self, path: &str) -> io::Result<R::Dir> {
        self.rt.open(path)
    }

    fn finds_dir(&mut self, path: &str) -> Result<bool, AllocError> {
        self.is_dir(path)
    }

    fn receive(&mut self, directory: &str, name: &[u8]) -> Result<(), ListError> {
        self.strays.stray(directory, name);
        Ok(())
    }
}

/// The look for something that is there.
fn look_for(is_dir: bool) -> Look
    ensures { result ≡ (if is_dir then Look.Dir else Look.Other) }
{
    if is_dir { Look::Dir } else { Look::Other }
}
