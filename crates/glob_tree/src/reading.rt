//! How every disk reads a directory, from its path to its entries.
ghost use Rattle.std.specs.Prelude.{◌≡◌, ◌++◌, ◌∷◌, [], ℕ, Bool, List, Option, true, false, None, map, string_bytes, All, IfOk, IfErr, IfSome, IsSome, OnOk};
ghost use Rattle.glob_tree.specs.Answers.{IsListAnswer, IsListError, AreListedNames, entries_of, names_of};
ghost use Rattle.glob_tree.specs.Content.{list_result, look_result};
ghost use Rattle.glob_tree.specs.Directories.{HasEnded, names_in as names_of_bytes};
ghost use Rattle.glob_tree.specs.FileSystems.{FileSystem, IsHeld, IsOpened, IsReceived, OpenMayFail, is_direct, strays_found};
ghost use Rattle.glob_tree.specs.Followed.{answer_followed};
ghost use Rattle.glob_tree.specs.Looks.{is_directory};
ghost use Rattle.glob_tree.specs.Paths.{is_proper as is_proper_text};
ghost use Rattle.glob_tree.specs.Private.Listing.{AreAnswered, AreSaid, IsEntriesError, IsNameError, IsSaid, IsStrayError, are_names_taken, failing, is_dir_in as is_in, said_entries};
ghost use Rattle.glob_tree.specs.Private.Looking.{AreDirect, IsSeen};
ghost use Rattle.glob_tree.specs.Strays.{and_then, texts_of, strays_of};
ghost use Rattle.glob_tree.specs.declared.physical.Links.{Links};
ghost use Rattle.glob_tree.specs.declared.reading.Kinds.TheVariants.{LookedUp, LeftOut};

use crate::directory::{names_in, read_directory};
use crate::name::{is_proper, name_from_proper};
use crate::path_text::join;
use crate::system::Directory;
use crate::tree::{Entry, ListError};
use std::alloc::{AllocError, Allocator};
use std::io::{self, ErrorKind};

/// Whether a listing looks up its entries to learn their kinds.
#[derive(Clone, Copy)]
pub(crate) enum Kinds {
    LookedUp,
    LeftOut,
}

/// A disk that reads directories: how it opens one, what it says about an entry, and what it does with a non-UTF-8
/// name.
pub(crate) trait Reader: Drop {
    /// An open directory.
    type Dir: Directory;

    /// The file system that it reads, if it is known.
    ghost files: { Self → Option FileSystem };

    ghost links: { Self → Links };

    /// The received names and paths, if they are known.
    ghost names: { Self → Option (List (List ℕ)) };

    ghost paths: { Self → Option (List (List ℕ)) };

    /// Whether it receives non-UTF-8 names; otherwise they fail the listing.
    ghost receives: { Self → Bool };

    fn open(&self, path: &str) -> io::Result<Self::Dir>
        ensures opened { (f : FileSystem) → IsHeld (files self.now) f → is_direct f path.now ≡ true
            → IfOk result (λ dir. IsOpened (list_result f.content path.now)
            (strays_found f path.now) (Self.Dir.left dir) (Self.Dir.fault dir)) }
        ensures fails { (f : FileSystem) → IsHeld (files self.now) f → is_direct f path.now ≡ true
            → IfErr result (λ e. OpenMayFail (list_result f.content path.now) e) };

    /// Whether the entry at this path is a directory.
    fn finds_dir(&mut self, path: &str) -> Result<bool, AllocError>
        ensures files { files self.new ≡ files self.old }
        ensures links { links self.new ≡ links self.old }
        ensures receives { receives self.new ≡ receives self.old }
        ensures names { names self.new ≡ names self.old }
        ensures directory { (f : FileSystem) → IsSeen (links self.old) (files self.old) f
            → is_direct f path.now ≡ true
            → IfOk result (λ yes. yes ≡ is_directory (look_result f.content path.now)) }
        ensures said { (f : FileSystem) → IsHeld (files self.old) f → is_direct f path.now ≡ true
            → IfOk result (λ yes. IsSaid (receives self.old) (links self.old) f path.now yes
            (paths self.old) (paths self.new)) };

    /// Receives a non-UTF-8 name, or fails because of it.
    fn receive(&mut self, directory: &str, name: &[u8]) -> Result<(), ListError>
        ensures files { files self.new ≡ files self.old }
        ensures links { links self.new ≡ links self.old }
        ensures receives { receives self.new ≡ receives self.old }
        ensures names { OnOk result (names self.new ≡ and_then (names self.old) (name.now ∷ [])) }
        ensures paths { paths self.new ≡ paths self.old }
        ensures fails { IfErr result (IsStrayError (receives self.old)) };
}

/// The entries of the directory at a path.
pub(crate) fn entries<R: Reader, A: Allocator + Copy>(
    reader: &mut R,
    alloc: A,
    path: &str,
    kinds: Kinds,
) -> Result<Vec<Entry<A>, A>, ListError>
    ensures files { R.files reader.new ≡ R.files reader.old }
    ensures links { R.links reader.new ≡ R.links reader.old }
    ensures entries { (f : FileSystem) → IsSeen (R.links reader.old) (R.files reader.old) f
        → kinds ≡ LookedUp → IfOk result
        (λ v. IsListAnswer (list_result f.content path.now) (entries_of v.items)) }
    ensures said { (f : FileSystem) → IsHeld (R.files reader.old) f → kinds ≡ LookedUp
        → IfOk result (λ v. AreAnswered (R.receives reader.old) (R.links reader.old) f path.now
        (list_result f.content path.now) (entries_of v.items)
        (R.paths reader.old) (R.paths reader.new)) }
    ensures unseen { kinds ≡ LeftOut → R.paths reader.new ≡ R.paths reader.old }
    ensures left_out { kinds ≡ LeftOut
        → IfOk result (λ v. All (λ e. e.1 ≡ false) (entries_of v.items)) }
    ensures named { (f : FileSystem) → IsHeld (R.files reader.old) f → IfOk result (λ v.
        AreListedNames (list_result f.content path.now) (names_of (entries_of v.items))) }
    ensures strays { (f : FileSystem) → IsHeld (R.files reader.old) f
        → OnOk result (IsReceived (list_result f.content path.now) (strays_found f path.now)
        (R.names reader.old) (R.names reader.new)) }
    ensures fails { (f : FileSystem) → IsHeld (R.files reader.old) f → IfErr result (λ e.
        IsListError (answer_followed f path.now (list_result f.content path.now)
        (failing (R.receives reader.old) (strays_found f path.now))) e) }
{
    // A separator at the end makes the system follow a link there.
    let mut path = join(alloc, path, "")?;
    let mut directory = reader.open(path.as_str())?;
    read_entries(reader, alloc, &mut path, kinds, &mut directory)
}

/// The entries of an open directory. `path` is its path, with a separator at the end.
fn read_entries<R: Reader, A: Allocator + Copy, D: Directory>(
    reader: &mut R,
    alloc: A,
    path: &mut String<A>,
    kinds: Kinds,
    directory: &mut D,
) -> Result<Vec<Entry<A>, A>, ListError>
    ensures names { IfOk result (λ v. IfSome (D.left directory.old)
        (λ bytes. names_of (entries_of v.items) ≡ texts_of (names_of_bytes bytes))) }
    ensures strays { OnOk result (IfSome (D.left directory.old)
        (λ bytes. R.names reader.new
        ≡ and_then (R.names reader.old) (strays_of (names_of_bytes bytes)))) }
    ensures files { R.files reader.new ≡ R.files reader.old }
    ensures links { R.links reader.new ≡ R.links reader.old }
    ensures kinds { (f : FileSystem) → IsSeen (R.links reader.old) (R.files reader.old) f
        → AreDirect f (string_bytes path.old) → kinds ≡ LookedUp
        → IfOk result (λ v. IfSome (D.left directory.old) (λ bytes. entries_of v.items
        ≡ said_entries (is_in f.content (string_bytes path.old))
        (texts_of (names_of_bytes bytes)))) }
    ensures said { (f : FileSystem) → IsHeld (R.files reader.old) f
        → AreDirect f (string_bytes path.old) → kinds ≡ LookedUp → IfOk result
        (λ v. AreSaid (R.receives reader.old) (R.links reader.old) f (string_bytes path.old)
        (entries_of v.items) (R.paths reader.old) (R.paths reader.new)) }
    ensures unseen { kinds ≡ LeftOut → R.paths reader.new ≡ R.paths reader.old }
    ensures left_out { kinds ≡ LeftOut
        → IfOk result (λ v. All (λ e. e.1 ≡ false) (entries_of v.items)) }
    ensures fails { IfErr result (λ e. IfSome (D.left directory.old) (λ bytes.
        IsEntriesError (are_names_taken (R.receives reader.old) (names_of_bytes bytes))
        (D.fault directory.old) e)) }
    ensures whole { IsSome (D.left directory.old)
        → OnOk result (D.fault directory.old ≡ None) }
    ensures end { OnOk result (HasEnded (D.left directory.new) (D.fault directory.new)) }
{
    let bytes = read_directory(alloc, directory)?;
    named_entries(reader, alloc, path, kinds, bytes.as_slice())
}

/// The entries of the names in a directory's bytes.
fn named_entries<R: Reader, A: Allocator + Copy>(
    reader: &mut R,
    alloc: A,
    path: &mut String<A>,
    kinds: Kinds,
    bytes: &[u8],
) -> Result<Vec<Entry<A>, A>, ListError>
    ensures names { IfOk result (λ v. names_of (entries_of v.items)
        ≡ texts_of (names_of_bytes bytes.now)) }
    ensures strays { OnOk result (R.names reader.new
        ≡ and_then (R.names reader.old) (strays_of (names_of_bytes bytes.now))) }
    ensures files { R.files reader.new ≡ R.files reader.old }
    ensures links { R.links reader.new ≡ R.links reader.old }
    ensures kinds { (f : FileSystem) → IsSeen (R.links reader.old) (R.files reader.old) f
        → AreDirect f (string_bytes path.old) → kinds ≡ LookedUp
        → IfOk result (λ v. entries_of v.items
        ≡ said_entries (is_in f.content (string_bytes path.old))
        (texts_of (names_of_bytes bytes.now))) }
    ensures said { (f : FileSystem) → IsHeld (R.files reader.old) f
        → AreDirect f (string_bytes path.old) → kinds ≡ LookedUp → IfOk result
        (λ v. AreSaid (R.receives reader.old) (R.links reader.old) f (string_bytes path.old)
        (entries_of v.items) (R.paths reader.old) (R.paths reader.new)) }
    ensures unseen { kinds ≡ LeftOut → R.paths reader.new ≡ R.paths reader.old }
    ensures left_out { kinds ≡ LeftOut
        → IfOk result (λ v. All (λ e. e.1 ≡ false) (entries_of v.items)) }
    ensures fails { IfErr result (IsNameError
        (are_names_taken (R.receives reader.old) (names_of_bytes bytes.now))) }
{
    let names = names_in(alloc, bytes)?;
    entries_named(reader, alloc, path, kinds, names.as_slice())
}

/// The entries of names in a directory, in order. A non-UTF-8 name has no entry.
fn entries_named<R: Reader, A: Allocator + Copy>(
    reader: &mut R,
    alloc: A,
    path: &mut String<A>,
    kinds: Kinds,
    names: &[&[u8]],
) -> Result<Vec<Entry<A>, A>, ListError>
    ensures names { IfOk result (λ v. names_of (entries_of v.items)
        ≡ texts_of (map (λ n. n.now) names.now)) }
    ensures strays { OnOk result (R.names reader.new
        ≡ and_then (R.names reader.old) (strays_of (map (λ n. n.now) names.now))) }
    ensures files { R.files reader.new ≡ R.files reader.old }
    ensures links { R.links reader.new ≡ R.links reader.old }
    ensures kinds { (f : FileSystem) → IsSeen (R.links reader.old) (R.files reader.old) f
        → AreDirect f (string_bytes path.old) → kinds ≡ LookedUp
        → IfOk result (λ v. entries_of v.items
        ≡ said_entries (is_in f.content (string_bytes path.old))
        (texts_of (map (λ n. n.now) names.now))) }
    ensures said { (f : FileSystem) → IsHeld (R.files reader.old) f
        → AreDirect f (string_bytes path.old) → kinds ≡ LookedUp → IfOk result
        (λ v. AreSaid (R.receives reader.old) (R.links reader.old) f (string_bytes path.old)
        (entries_of v.items) (R.paths reader.old) (R.paths reader.new)) }
    ensures unseen { kinds ≡ LeftOut → R.paths reader.new ≡ R.paths reader.old }
    ensures left_out { kinds ≡ LeftOut
        → IfOk result (λ v. All (λ e. e.1 ≡ false) (entries_of v.items)) }
    ensures fails { IfErr result (IsNameError
        (are_names_taken (R.receives reader.old) (map (λ n. n.now) names.now))) }
{
    let mut entries = Vec::new(alloc);
    for name in names {
        match std::str::from_utf8(name) {
            Ok(name) => entries.push(entry_named(reader, alloc, path, kinds, name)?)?,
            Err(_) => reader.receive(path.as_str(), name)?,
        }
    }
    Ok(entries)
}

/// The entry of a name in a directory.
fn entry_named<R: Reader, A: Allocator + Copy>(
    reader: &mut R,
    alloc: A,
    path: &mut String<A>,
    kinds: Kinds,
    name: &str,
) -> Result<Entry<A>, ListError>
    ensures name { IfOk result (λ entry. entry.name ≡ name.now) }
    ensures files { R.files reader.new ≡ R.files reader.old }
    ensures links { R.links reader.new ≡ R.links reader.old }
    ensures receives { R.receives reader.new ≡ R.receives reader.old }
    ensures strays { R.names reader.new ≡ R.names reader.old }
    ensures path { OnOk result (string_bytes path.new ≡ string_bytes path.old) }
    ensures kind { (f : FileSystem) → IsSeen (R.links reader.old) (R.files reader.old) f
        → AreDirect f (string_bytes path.old) → kinds ≡ LookedUp
        → IfOk result (λ entry. entry.is_dir
        ≡ is_directory (look_result f.content (string_bytes path.old ++ name.now))) }
    ensures said { (f : FileSystem) → IsHeld (R.files reader.old) f
        → AreDirect f (string_bytes path.old) → kinds ≡ LookedUp
        → IfOk result (λ entry. IsSaid (R.receives reader.old) (R.links reader.old) f
        (string_bytes path.old ++ name.now) entry.is_dir
        (R.paths reader.old) (R.paths reader.new)) }
    ensures unseen { kinds ≡ LeftOut → R.paths reader.new ≡ R.paths reader.old }
    ensures left_out { kinds ≡ LeftOut → IfOk result (λ entry. entry.is_dir ≡ false) }
    ensures fails { IfErr result (IsNameError (is_proper_text name.now)) }
{
    if !is_proper(name) {
        return Err(ListError::Read(io::Error::from(ErrorKind::InvalidFilename)));
    }
    let is_dir = is_said_dir(reader, path, kinds, name)?;
    let name = name_from_proper(alloc, name)?;
    Ok(Entry { name, is_dir })
}

/// Whether a name in a directory is reported as a directory: never if kinds are left out.
fn is_said_dir<R: Reader, A: Allocator + Copy>(
    reader: &mut R,
    path: &mut String<A>,
    kinds: Kinds,
    name: &str,
) -> Result<bool, AllocError>
    ensures files { R.files reader.new ≡ R.files reader.old }
    ensures links { R.links reader.new ≡ R.links reader.old }
    ensures receives { R.receives reader.new ≡ R.receives reader.old }
    ensures strays { R.names reader.new ≡ R.names reader.old }
    ensures path { OnOk result (string_bytes path.new ≡ string_bytes path.old) }
    ensures directory { (f : FileSystem) → IsSeen (R.links reader.old) (R.files reader.old) f
        → is_direct f (string_bytes path.old ++ name.now) ≡ true → kinds ≡ LookedUp
        → IfOk result (λ yes. yes
        ≡ is_directory (look_result f.content (string_bytes path.old ++ name.now))) }
    ensures said { (f : FileSystem) → IsHeld (R.files reader.old) f
        → is_direct f (string_bytes path.old ++ name.now) ≡ true → kinds ≡ LookedUp
        → IfOk result (λ yes. IsSaid (R.receives reader.old) (R.links reader.old) f
        (string_bytes path.old ++ name.now) yes (R.paths reader.old) (R.paths reader.new)) }
    ensures unseen { kinds ≡ LeftOut → R.paths reader.new ≡ R.paths reader.old }
    ensures left_out { kinds ≡ LeftOut → IfOk result (λ yes. yes ≡ false) }
{
    match kinds {
        Kinds::LookedUp => is_dir_in(reader, path, name),
        Kinds::LeftOut => Ok(false),
    }
}

/// Whether a name in a directory is itself a directory.
fn is_dir_in<R: Reader, A: Allocator + Copy>(
    reader: &mut R,
    path: &mut String<A>,
    name: &str,
) -> Result<bool, AllocError>
    ensures files { R.files reader.new ≡ R.files reader.old }
    ensures links { R.links reader.new ≡ R.links reader.old }
    ensures receives { R.receives reader.new ≡ R.receives reader.old }
    ensures strays { R.names reader.new ≡ R.names reader.old }
    ensures path { OnOk result (string_bytes path.new ≡ string_bytes path.old) }
    ensures directory { (f : FileSystem) → IsSeen (R.links reader.old) (R.files reader.old) f
        → is_direct f (string_bytes path.old ++ name.now) ≡ true → IfOk result (λ yes. yes
        ≡ is_directory (look_result f.content (string_bytes path.old ++ name.now))) }
    ensures said { (f : FileSystem) → IsHeld (R.files reader.old) f
        → is_direct f (string_bytes path.old ++ name.now) ≡ true
        → IfOk result (λ yes. IsSaid (R.receives reader.old) (R.links reader.old) f
        (string_bytes path.old ++ name.now) yes (R.paths reader.old) (R.paths reader.new)) }
{
    let length = path.len();
    path.push_str(name)?;
    let is_dir = reader.finds_dir(path.as_str());
    path.truncate(length);
    is_dir
}
