//! Followed links, and which of them point back to a directory above them.
ghost use Rattle.std.specs.Prelude.{◌≡◌, ◌∷◌, [], ◌&&◌, not, true, false, Some, IfOk, IsSome, OnOk};
ghost use Rattle.std.specs.Fs.{file_type, IsSymlink};
ghost use Rattle.std.specs.List.{filter};
ghost use Rattle.glob_tree.specs.FileSystems.{FileSystem, Directory, IsHeld, is_above as is_above_path, is_direct, is_same_directory, is_target_lost, number_found, stat_found};
ghost use Rattle.glob_tree.specs.Private.Looking.{IsLinkSaid, IsTarget, IsThere};
ghost use Rattle.glob_tree.specs.Received.{ReceivesAtMost};
ghost use Rattle.glob_tree.specs.Strays.{and_then};
ghost use Rattle.glob_tree.specs.declared.physical.Links.TheVariants.{Followed};

use super::Lookups;
use crate::directory_id::DirectoryId;
use crate::path_text::cut_last;
use crate::physical::Links;
use crate::strays::{Strays, settle};
use crate::system::System;
use std::alloc::{AllocError, Allocator};
use std::fs::Metadata;
use std::io::{self, ErrorKind};

impl<R: System, S: Strays, A: Allocator + Copy> Lookups<R, S, A> {
    /// Whether a link points to a directory that is not above it. A walk through a link to a directory above it would
    /// never end, so the strays receive such a link.
    pub(super) fn leads_on(&mut self, link: &str) -> Result<bool, AllocError>
        ensures files { self.new.files ≡ self.old.files }
        ensures links { self.new.links ≡ self.old.links }
        ensures strays { S.names self.new.strays ≡ S.names self.old.strays }
        ensures leads { (f : FileSystem) → IsHeld self.old.files f → is_direct f link.now ≡ true
            → IfOk result (λ yes.
            IsLinkSaid f link.now yes (S.paths self.old.strays) (S.paths self.new.strays)) }
        ensures settled { IfOk result (λ yes. yes ≡ true
            → S.paths self.new.strays ≡ S.paths self.old.strays) }
        ensures received { OnOk result
            (ReceivesAtMost link.now (S.paths self.old.strays) (S.paths self.new.strays)) }
    {
        let Some(target) = self.target(link)? else {
            return Ok(false);
        };
        let is_loop = self.is_above(target, link)?;
        if is_loop {
            self.strays
                .unsettled(link, &io::Error::from(ErrorKind::FilesystemLoop));
        }
        Ok(!is_loop)
    }

    /// Whether the directory is above the path: whether the path goes down through it, from the root or the current
    /// directory on, or from the last `..` on.
    fn is_above(&self, directory: DirectoryId, path: &str) -> Result<bool, AllocError>
        ensures { (f : FileSystem) → IsHeld self.now.files f → is_direct f path.now ≡ true
            → IsThere f path.now
            → IfOk result (λ yes. yes ≡ is_above_path f directory path.now) }
    {
        let mut below = path;
        while let Some((above, name)) = cut_last(below) {
            if name == ".." {
                return Ok(false);
            }
            if above.is_empty() {
                return self.is_at(directory, "/");
            }
            if self.is_at(directory, above)? {
                return Ok(true);
            }
            below = above;
        }
        if below == ".." {
            return Ok(false);
        }
        self.is_at(directory, ".")
    }

    /// Whether the directory is the one at a path. False if the system does not number its files.
    fn is_at(&self, directory: DirectoryId, path: &str) -> Result<bool, AllocError>
        ensures { (f : FileSystem) → IsHeld self.now.files f → is_direct f path.now ≡ true
            → stat_found f path.now ≡ Some Directory
            → IfOk result (λ yes. yes ≡ is_same_directory directory (number_found f path.now)) }
    {
        match self.rt.directory_id(path) {
            Ok(Some(found)) => Ok(directory.is_same(found)),
            Ok(None) => Ok(false),
            Err(error) if error.kind() == ErrorKind::OutOfMemory => Err(AllocError),
            Err(_) => Ok(false),
        }
    }

    /// Whether this is the metadata of a link that has to be followed.
    pub(super) fn is_followed(&self, found: &Metadata) -> bool
        ensures yes { result ≡ true
            → (self.now.links ≡ Followed) × IsSymlink (file_type found.now) }
        ensures no { result ≡ false → self.now.links ≡ Followed
            → IsSymlink (file_type found.now) → ⊥ }
    {
        self.links == Links::Followed && found.is_symlink()
    }

    /// The number of the directory that the link at a path points to; `None` if it does not point to a directory.
    fn target(&mut self, link: &str) -> Result<Option<DirectoryId>, AllocError>
        ensures files { self.new.files ≡ self.old.files }
        ensures links { self.new.links ≡ self.old.links }
        ensures strays { S.names self.new.strays ≡ S.names self.old.strays }
        ensures found { (f : FileSystem) → IsHeld self.old.files f → is_direct f link.now ≡ true
            → IfOk result (IsTarget (stat_found f link.now) (number_found f link.now)) }
        ensures reported { (f : FileSystem) → IsHeld self.old.files f → is_direct f link.now ≡ true
            → OnOk result (S.paths self.new.strays
            ≡ and_then (S.paths self.old.strays) (filter (is_target_lost f) (link.now ∷ []))) }
        ensures known { IfOk result (λ target. IsSome target
            → S.paths self.new.strays ≡ S.paths self.old.strays) }
        ensures received { OnOk result
            (ReceivesAtMost link.now (S.paths self.old.strays) (S.paths self.new.strays)) }
    {
        let answer = self.rt.directory_id(link);
        match settle(&mut self.strays, link, answer)? {
            Some(target) => Ok(target),
            None => Ok(None),
        }
    }
}
