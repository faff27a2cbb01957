//! A system in memory whose file system has symbolic links and names that are not UTF-8.
ghost use Rattle.std.specs.Prelude.{◌≡◌, ◌++◌, ◌∷◌, [], false, option_map, Some, IfErr, IfOk, OnOk};
ghost use Rattle.glob_tree.specs.Content.{same_key, is_dir_at, step, resolve};
ghost use Rattle.glob_tree.specs.Paths.{nul};
ghost use Rattle.glob_tree.specs.Private.Listing.{name_bytes};
ghost use Rattle.glob_replay_walks.specs.MemFiles.{key_of, key_at, value_at, content_of, name_in, names_at, strays_at, found_of, target_of, lstat_of, stat_of};
ghost use Rattle.glob_tree.specs.FileSystems.{IsLookupError, IsNumberAnswer, IsStatAnswer, no_number, stat_reports};
ghost use Rattle.glob_tree.specs.declared.kind.Kind.TheVariants.{Other};

use glob_tree::{Directory, DirectoryId, Kind, System, stays};
use std::alloc::{AllocError, Allocator, Global};
use std::collections::VecDeque;
use std::fs::Metadata;
use std::io::{self, ErrorKind, Read};

/// What a symbolic link points to.
#[derive(Clone, Copy, PartialEq, Eq)]
pub enum LinkTo {
    Nowhere,
    AFile,
    ADirectory,
}

/// Something at a key, the list of names that leads there from the root.
#[derive(Drop)]
pub struct Keyed<'a, T: Copy, A: Allocator = Global> {
    pub key: Vec<&'a str, A>,
    pub what: T,
}

impl<'a, T: Copy, A: Allocator> Keyed<'a, T, A> {
    fn is_at(&self, key: &[&str]) -> bool
        ensures { result ≡ same_key (key_of key.now) (key_at self.now) }
    {
        key == self.key.as_slice()
    }

    /// Its name, if it is in this directory.
    fn name_in(&self, directory: &[&str]) -> Option<&'a str>
        ensures { option_map (λ n. n.now) result ≡ name_in (key_of directory.now) (key_at self.now) }
    {
        let (name, parent) = self.key.as_slice().split_last()?;
        if directory == parent {
            return Some(*name);
        }
        None
    }
}

/// What is at a key.
fn value_at<T: Copy, A: Allocator>(list: &[Keyed<'_, T, A>], key: &[&str]) -> Option<T>
    ensures { result ≡ value_at (key_of key.now) list.now }
{
    let entry = list.iter().find(|entry| entry.is_at(key))?;
    Some(entry.what)
}

/// A system that holds a file system in memory: what is at each key (links are [`Kind::Other`]), what links point to,
/// and the names that are not UTF-8, with the keys of their directories. The root is the current directory.
///
/// A directory is read in pieces of at most `piece` bytes, or of one byte if `piece` is 0. Names that are not UTF-8
/// come first, then `.` and `..`. A directory that cannot be listed is opened, and fails when it is read.
#[derive(Drop)]
pub struct MemFiles<'a, A: Allocator = Global> {
    pub kinds: Vec<Keyed<'a, Kind, A>, A>,
    pub links: Vec<Keyed<'a, LinkTo, A>, A>,
    pub strays: Vec<Keyed<'a, &'a [u8], A>, A>,
    pub piece: usize,
    pub alloc: A,
}

impl<'a, A: Allocator + Copy> MemFiles<'a, A> {
    /// Whether a directory is at a key.
    fn is_dir(&self, key: &[&str]) -> bool
        ensures { result ≡ is_dir_at (content_of self.now.kinds.items) (key_of key.now) }
    {
        match value_at(self.kinds.as_slice(), key) {
            Some(kind) => kind.is_dir(),
            None => false,
        }
    }

    /// Where one piece of a path leads from a key.
    fn step<'p>(
        &self,
        at: Vec<&'p str, A>,
        piece: &'p str,
    ) -> Result<Option<Vec<&'p str, A>>, AllocError>
        ensures { IfOk result (λ to. option_map (λ k. key_of k.items) to
            ≡ step (content_of self.now.kinds.items) piece.now (key_of at.entry.items)) }
    {
        let mut at = at;
        if !self.is_dir(at.as_slice()) {
            return Ok(None);
        }
        if stays(piece) {
            return Ok(Some(at));
        }
        if piece == ".." {
            at.pop();
            return Ok(Some(at));
        }
        at.push(piece)?;
        match value_at(self.kinds.as_slice(), at.as_slice()) {
            Some(_) => Ok(Some(at)),
            None => Ok(None),
        }
    }

    /// The key to which a path leads.
    fn resolve<'p>(&self, path: &'p str) -> Result<Option<Vec<&'p str, A>>, AllocError>
        ensures { IfOk result (λ to. option_map (λ k. key_of k.items) to
            ≡ resolve (content_of self.now.kinds.items) path.now) }
    {
        if path.is_empty() {
            return Ok(None);
        }
        let mut at = Vec::new(self.alloc);
        for piece in path.split('/') {
            match self.step(at, piece)? {
                Some(next) => at = next,
                None => return Ok(None),
            }
        }
        Ok(Some(at))
    }

    /// What is where a path leads, and what the link there points to.
    fn found(&self, path: &str) -> Result<Option<(Kind, Option<LinkTo>)>, AllocError>
        ensures { IfOk result
            (λ found. found ≡ found_of self.now.kinds.items self.now.links.items path.now) }
    {
        let Some(key) = self.resolve(path)? else {
            return Ok(None);
        };
        let Some(kind) = value_at(self.kinds.as_slice(), key.as_slice()) else {
            return Ok(None);
        };
        Ok(Some((kind, value_at(self.links.as_slice(), key.as_slice()))))
    }

    /// The bytes of the directory at a key.
    fn names(&self, key: &[&str]) -> Result<Vec<u8, A>, AllocError>
        ensures { IfOk result (λ bytes. bytes.items
            ≡ name_bytes (strays_at (key_of key.now) self.now.strays.items)
            ++ (46 ∷ 0 ∷ 46 ∷ 46 ∷ 0 ∷ [])
            ++ name_bytes (names_at (key_of key.now) self.now.kinds.items)) }
    {
        let mut bytes = Vec::new(self.alloc);
        add_strays(&mut bytes, self.strays.as_slice(), key)?;
        bytes.extend_from_slice(b".\0..\0")?;
        add_names(&mut bytes, self.kinds.as_slice(), key)?;
        Ok(bytes)
    }
}

/// Adds the names of a directory that are not UTF-8.
fn add_strays<A: Allocator>(
    bytes: &mut Vec<u8, A>,
    strays: &[Keyed<'_, &[u8], A>],
    key: &[&str],
) -> Result<(), AllocError>
    ensures { OnOk result (bytes.new.items
        ≡ bytes.old.items ++ name_bytes (strays_at (key_of key.now) strays.now)) }
{
    for stray in strays {
        if stray.is_at(key) {
            add_name(bytes, stray.what)?;
        }
    }
    Ok(())
}

/// Adds the names of a directory.
fn add_names<A: Allocator>(
    bytes: &mut Vec<u8, A>,
    kinds: &[Keyed<'_, Kind, A>],
    key: &[&str],
) -> Result<(), AllocError>
    ensures { OnOk result (bytes.new.items
        ≡ bytes.old.items ++ name_bytes (names_at (key_of key.now) kinds.now)) }
{
    for entry in kinds {
        if let Some(name) = entry.name_in(key) {
            add_name(bytes, name.as_bytes())?;
        }
    }
    Ok(())
}

/// Adds a name, with a NUL after it.
fn add_name<A: Allocator>(bytes: &mut Vec<u8, A>, name: &[u8]) -> Result<(), AllocError>
    ensures { OnOk result (bytes.new.items ≡ bytes.old.items ++ (name.now ++ nul ∷ [])) }
{
    bytes.extend_from_slice(name)?;
    bytes.push(0)?;
    Ok(())
}

/// The answer of `lstat` for what was found.
fn lstat_answer(found: Option<(Kind, Option<LinkTo>)>) -> io::Result<Metadata>
    ensures found { IsStatAnswer (lstat_of found) result }
    ensures fails { IfErr result (IsLookupError false) }
{
    match found {
        Some((Kind::Other, None)) => Ok(Metadata::of_file(0)),
        Some((Kind::Other, Some(_))) => Ok(Metadata::of_symlink(0)),
        Some((Kind::Dir | Kind::Shut(_), _)) => Ok(Metadata::of_dir()),
        None => Err(ErrorKind::NotFound.into()),
    }
}

/// The answer of `stat`.
fn stat_answer(found: Option<(Kind, Option<LinkTo>)>) -> io::Result<Metadata>
    ensures found { IsStatAnswer (stat_of found) result }
    ensures fails { IfErr result (IsLookupError false) }
{
    match found {
        Some((Kind::Other, Some(to))) => target_answer(to),
        Some((Kind::Other, None)) => Ok(Metadata::of_file(0)),
        Some((Kind::Dir | Kind::Shut(_), _)) => Ok(Metadata::of_dir()),
        None => Err(ErrorKind::NotFound.into()),
    }
}

/// The answer of `stat` for a link.
fn target_answer(to: LinkTo) -> io::Result<Metadata>
    ensures found { IsStatAnswer (stat_reports Other (Some (target_of to))) result }
    ensures fails { IfErr result (IsLookupError false) }
{
    match to {
        LinkTo::Nowhere => Err(ErrorKind::NotFound.into()),
        LinkTo::AFile => Ok(Metadata::of_file(0)),
        LinkTo::ADirectory => Ok(Metadata::of_dir()),
    }
}

/// The answer of `directory_id`: no directory has a number.
fn number_answer(found: Option<(Kind, Option<LinkTo>)>) -> io::Result<Option<DirectoryId>>
    ensures found { IsNumberAnswer (stat_of found) no_number result }
    ensures fails { IfErr result (IsLookupError false) }
{
    match found {
        Some((Kind::Other, Some(LinkTo::Nowhere))) | None => Err(ErrorKind::NotFound.into()),
        Some((Kind::Other, Some(LinkTo::AFile) | None)) => Ok(None),
        Some((Kind::Other, Some(LinkTo::ADirectory))) | Some((Kind::Dir | Kind::Shut(_), _)) => {
            Ok(Some(DirectoryId { dev: 0, ino: 0 }))
        }
    }
}

impl<'a, A: Allocator + Copy> System for MemFiles<'a, A> {
    type Dir = MemNames<A>;

    ghost use Rattle.glob_replay_walks.specs.MemFiles.{files_of};

    ghost holds = { λ a. files_of a.kinds.items a.links.items a.strays.items };

    fn lstat(&self, path: &str) -> io::Result<Metadata> {
        lstat_answer(self.found(path)?)
    }

    fn stat(&self, path: &str) -> io::Result<Metadata> {
        stat_answer(self.found(path)?)
    }

    fn directory_id(&self, path: &str) -> io::Result<Option<DirectoryId>> {
        number_answer(self.found(path)?)
    }

    fn open(&self, path: &str) -> io::Result<MemNames<A>> {
        let (alloc, piece) = (self.alloc, self.piece);
        let key = match self.resolve(path)? {
            Some(key) => key,
            None => return Err(ErrorKind::NotFound.into()),
        };
        match value_at(self.kinds.as_slice(), key.as_slice()) {
            Some(Kind::Dir) => {
                let names = VecDeque::from(self.names(key.as_slice())?);
                Ok(MemNames {
                    names,
                    fault: None,
                    piece,
                })
            }
            Some(Kind::Shut(kind)) => {
                Ok(MemNames {
                    names: VecDeque::new(alloc),
                    fault: Some(kind),
                    piece,
                })
            }
            Some(Kind::Other) => Err(ErrorKind::NotADirectory.into()),
            None => Err(ErrorKind::NotFound.into()),
        }
    }
}

/// A directory that [`MemFiles`] has opened.
#[derive(Drop)]
pub struct MemNames<A: Allocator = Global> {
    names: VecDeque<u8, A>,
    fault: Option<ErrorKind>,
    piece: usize,
}

impl<A: Allocator> Directory for MemNames<A> {
    ghost use Rattle.std.specs.Prelude.{Some};

    ghost left = { λ a. Some a.names.items };

    ghost fault = { λ a. a.fault };

    fn read(&mut self, block: &mut [u8]) -> io::Result<usize> {
        match self.fault {
            Some(kind) if self.names.is_empty() => Err(kind.into()),
            _ => {
                let room = block.len().min(self.piece.max(1));
                self.names.read(&mut block[..room])
            }
        }
    }
}
