//! The entries of a directory, looked up or listed.
ghost use Rattle.std.specs.Prelude.{◌≡◌, ℕ, ◌+◌, ◌≤◌, ◌++◌, List, IfOk, IfErr, OnOk, IsTrue, IsPermutation, IsSome, if◌then◌else◌, true, false, is_some, map, option_map, string_bytes, vec_len};
ghost use Rattle.std.specs.Option.{ForSome};
ghost use Rattle.glob_tree.specs.Answers.{IsListError, IsTold, entries_of, entry_count, names_of};
ghost use Rattle.glob_tree.specs.Content.{Content, Key, children, is_content, is_dir_at, list_result, look_result};
ghost use Rattle.glob_search.specs.Aims.{path_of};
ghost use Rattle.glob_search.specs.Searching.{Aim, is_listed};
ghost use Rattle.glob_search.specs.States.{IsPaid, is_last};
ghost use Rattle.glob_search.specs.Private.Faults.{IsOfListing};
ghost use Rattle.glob_search.specs.Private.Listings.{AreFalling, AreLookedUp, IsListed, IsSourceAnswer, looked, names_down};
ghost use Rattle.glob_search.specs.Private.Nodes.{AreAlive, AreBeginnings};

use crate::beginnings::Beginnings;
use crate::fault::SearchFault;
use crate::frame::{Opening, Source};
use crate::meter::Meter;
use glob_tree::{Entry, ListError, Look, Name, Tree, child};
use std::alloc::Allocator;

/// Looks up a path, for one unit.
pub fn look_at<A: Allocator + Copy, T: Tree<Alloc = A>>(
    meter: &mut Meter,
    tree: &mut T,
    path: &str,
) -> Result<Look, SearchFault<A>>
    ensures limit { meter.new.limit ≡ meter.old.limit }
    ensures spent { meter.old.spent ≤ meter.new.spent }
    ensures charged { OnOk result (meter.old.spent + 1 ≤ meter.new.spent) }
    ensures asked { IsPaid result (T.asks tree.old) (T.asks tree.new)
        meter.old.spent meter.new.spent }
    ensures content { T.tells tree.new ≡ T.tells tree.old }
    ensures seen { (c : Content) → IsTold (T.tells tree.old) c
        → IfOk result (λ seen. seen ≡ look_result c path.now) }
    ensures last { IfErr result (λ fault. is_last fault ≡ true) }
{
    meter.charge(1)?;
    Ok(tree.look(path)?)
}

/// Looks up the literal names by which beginnings lead on: the entries that exist, in descending order.
pub fn look_up<A: Allocator + Copy, T: Tree<Alloc = A>>(
    alloc: A,
    meter: &mut Meter,
    tree: &mut T,
    beginnings: &Beginnings<A>,
    opening: &Opening<A>,
) -> Result<Vec<Entry<A>, A>, SearchFault<A>>
    ensures limit { meter.new.limit ≡ meter.old.limit }
    ensures spent { meter.old.spent ≤ meter.new.spent }
    ensures charged { IfOk result (λ entries.
        meter.old.spent + vec_len entries ≤ meter.new.spent) }
    ensures asked { IsPaid result (T.asks tree.old) (T.asks tree.new)
        meter.old.spent meter.new.spent }
    ensures content { T.tells tree.new ≡ T.tells tree.old }
    ensures entries { (c : Content) (a : Aim) (names : Key) → IsTold (T.tells tree.old) c
        → IsTrue (is_dir_at c (c.current ++ names)) → string_bytes opening.now.path ≡ path_of names
        → AreBeginnings a.options a.patterns beginnings.now
        → AreAlive beginnings.now names opening.now.alive.items → is_listed a names ≡ false
        → IfOk result (λ entries. AreLookedUp c a names (entries_of entries.items)) }
    ensures falls { IfOk result (λ entries. AreFalling entries.items) }
    ensures last { IfErr result (λ fault. is_last fault ≡ true) }
{
    let mut names = beginnings.literal_names(opening.alive.as_slice())?;
    let mut entries = Vec::new(alloc);
    while let Some(name) = names.pop() {
        if let Some(entry) = entry_at(alloc, meter, tree, opening.path.as_str(), name)? {
            entries.push(entry)?;
        }
    }
    Ok(entries)
}

/// Looks up a name in a directory: its entry, if it exists.
fn entry_at<A: Allocator + Copy, T: Tree<Alloc = A>>(
    alloc: A,
    meter: &mut Meter,
    tree: &mut T,
    directory: &str,
    name: &str,
) -> Result<Option<Entry<A>>, SearchFault<A>>
    ensures limit { meter.new.limit ≡ meter.old.limit }
    ensures spent { meter.old.spent ≤ meter.new.spent }
    ensures charged { IfOk result (λ entry.
        meter.old.spent + (if is_some entry then 1 else 0) ≤ meter.new.spent) }
    ensures asked { IsPaid result (T.asks tree.old) (T.asks tree.new)
        meter.old.spent meter.new.spent }
    ensures content { T.tells tree.new ≡ T.tells tree.old }
    ensures entry { (c : Content) (names : Key) → IsTold (T.tells tree.old) c
        → IsTrue (is_dir_at c (c.current ++ names)) → directory.now ≡ path_of names
        → IfOk result (λ entry.
        option_map (λ e. (e.name, e.is_dir)) entry ≡ looked c names name.now) }
    ensures named { IfOk result (λ entry. ForSome entry (λ e. e.name ≡ name.now)) }
    ensures last { IfErr result (λ fault. is_last fault ≡ true) }
{
    let Ok(name) = Name::new(String::from_str(alloc, name)?) else {
        return Ok(None);
    };
    let path = child(alloc, directory, name.as_str())?;
    match look_at(meter, tree, path.as_str())? {
        Look::Missing => Ok(None),
        Look::Dir => Ok(Some(Entry { name, is_dir: true })),
        Look::Other => Ok(Some(Entry {
            name,
            is_dir: false,
        })),
    }
}

/// Lists a directory: its entries, in descending order of names, each once.
pub fn list<A: Allocator + Copy, T: Tree<Alloc = A>>(
    meter: &mut Meter,
    tree: &mut T,
    opening: &Opening<A>,
    source: Source,
) -> Result<Vec<Entry<A>, A>, SearchFault<A>>
    ensures limit { meter.new.limit ≡ meter.old.limit }
    ensures spent { meter.old.spent ≤ meter.new.spent }
    ensures charged { IfOk result (λ entries.
        meter.old.spent + vec_len entries ≤ meter.new.spent) }
    ensures asked { IsPaid result (T.asks tree.old) (T.asks tree.new)
        meter.old.spent meter.new.spent }
    ensures content { T.tells tree.new ≡ T.tells tree.old }
    ensures entries { (c : Content) (names : Key) → IsTold (T.tells tree.old) c
        → IsTrue (is_dir_at c (c.current ++ names)) → string_bytes opening.now.path ≡ path_of names
        → IsListed c names source (string_bytes opening.now.path) result }
    ensures falls { IfOk result (λ entries. AreFalling entries.items) }
    ensures fails { IfErr result (IsOfListing meter.old.spent meter.new.spent) }
{
    meter.charge(1)?;
    let mut entries = match listed(tree, opening.path.as_str(), source) {
        Ok(entries) => entries,
        Err(ListError::Read(error)) => {
            return Err(SearchFault::Unread(opening.path.clone()?, error));
        }
        Err(ListError::Memory) => return Err(SearchFault::Memory),
    };
    meter.charge(entries.len())?;
    put_in_order(&mut entries);
    Ok(entries)
}

/// The listing of a directory: only names if the source is `Named`, and otherwise kinds as well.
fn listed<A: Allocator + Copy, T: Tree<Alloc = A>>(
    tree: &mut T,
    path: &str,
    source: Source,
) -> Result<Vec<Entry<A>, A>, ListError>
    ensures content { T.tells tree.new ≡ T.tells tree.old }
    ensures entries { (c : Content) → IsTold (T.tells tree.old) c
        → IfOk result (λ v. IsSourceAnswer source (list_result c path.now) (entries_of v.items)) }
    ensures fails { (c : Content) → IsTold (T.tells tree.old) c
        → IfErr result (λ e. IsListError (list_result c path.now) e) }
    ensures asks { T.asks tree.new ≡ T.asks tree.old + 1 + entry_count result }
{
    if source == Source::Named {
        tree.list_names(path)
    } else {
        tree.list(path)
    }
}

/// Sorts entries in descending order of names, and keeps each name once.
fn put_in_order<A: Allocator>(entries: &mut Vec<Entry<A>, A>)
    ensures few { vec_len entries.new ≤ vec_len entries.old }
    ensures order { (c : Content) (names : Key) → IsTrue (is_content c)
        → IsPermutation (names_of (children c (c.current ++ names)))
        (names_of (entries_of entries.old.items))
        → IsPermutation entries.old.items entries.new.items
        × (names_of (entries_of entries.new.items) ≡ names_down c names) }
    ensures falls { AreFalling entries.new.items }
{
    entries.sort_unstable_by(|a, b| b.name.as_str().cmp(a.name.as_str()));
    entries.dedup_by(|a, b| a.name.as_str() == b.name.as_str());
}
