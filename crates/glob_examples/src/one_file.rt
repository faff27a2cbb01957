//! A caller's own tree, whose content contracts know, and a walk over it that the proof computes.
ghost use Rattle.std.specs.Prelude.{◌≡◌, ◌≢◌, false, [], ◌∷◌, Some, IfOk, IfErr, codes, option_and_then};
ghost use Rattle.glob.specs.Answers.{entries_of};
ghost use Rattle.glob.specs.Content.{resolve, step};
ghost use Rattle.glob.specs.Walks.{Found, AreItems};
ghost use Rattle.glob.specs.Types.{End};
ghost use Rattle.glob.specs.Variants.PatternRefusal.{Memory};
ghost use Rattle.glob_examples.specs.OneFile.{key_seen, one_file};

use glob::{
    Asks, End, Entry, ListError, Look, MatchOptions, Name, PatternRefusal, Tree, Walk, walk_in,
};
use std::alloc::{AllocError, Global};
use std::io;

/// A root, which is the current directory, with one file. If the name is not proper, contracts know nothing about the
/// tree.
#[derive(Drop)]
pub struct OneFile<'a> {
    alloc: Global,
    /// The file's name.
    pub name: &'a str,
    asks: Asks,
}

impl<'a> OneFile<'a> {
    /// The tree with one file of this name.
    pub fn new(alloc: Global, name: &'a str) -> Self
        ensures { result.name.now ≡ name.now }
    {
        OneFile {
            alloc,
            name,
            asks: Asks::new(),
        }
    }
}

impl Tree for OneFile<'_> {
    type Alloc = Global;

    ghost tells = { λ tree. Some (one_file tree.name.now) };

    ghost asks = { λ tree. tree.asks };

    fn look(&mut self, path: &str) -> Result<Look, AllocError> {
        self.asks = self.asks.after(1);
        Ok(look_below(self.name, path))
    }

    fn list(&mut self, path: &str) -> Result<Vec<Entry>, ListError> {
        self.asks = self.asks.after(1);
        match look_below(self.name, path) {
            Look::Dir => {}
            Look::Other => return Err(ListError::Read(no_directory())),
            Look::Missing => return Err(ListError::Read(no_directory())),
        }
        let entries = entries(self.alloc, self.name)?;
        self.asks = self.asks.after(entries.len());
        Ok(entries)
    }
}

/// What is at a path, in the tree with a file of this name.
fn look_below(name: &str, path: &str) -> Look
    ensures { resolve (one_file name.now) path.now ≡ key_seen name.now result }
{
    if path.is_empty() {
        return Look::Missing;
    }
    let mut at = Look::Dir;
    for piece in path.split('/') {
        at = look_from(name, at, piece);
    }
    at
}

/// What is at a piece of a path that continues from `at`.
#[tactic(auto, using(crate::proofs::OneFile::file_step))]
fn look_from(name: &str, at: Look, piece: &str) -> Look
    ensures { key_seen name.now result
        ≡ option_and_then (step (one_file name.now) piece.now) (key_seen name.now at) }
{
    match at {
        Look::Dir => look_in_root(name, piece),
        Look::Other => Look::Missing,
        Look::Missing => Look::Missing,
    }
}

/// What is at a piece of a path that continues from the root.
#[tactic(auto, using(crate::proofs::OneFile::root_step))]
fn look_in_root(name: &str, piece: &str) -> Look
    ensures { key_seen name.now result ≡ step (one_file name.now) piece.now [] }
{
    if piece.is_empty() || piece == "." {
        Look::Dir
    } else if piece == ".." {
        Look::Dir
    } else if piece == name {
        Look::Other
    } else {
        Look::Missing
    }
}

/// The error of listing something that is not a directory.
fn no_directory() -> io::Error {
    io::Error::from(io::ErrorKind::NotADirectory)
}

/// The file, as the only entry of the root. Fails if the name is not proper, or if allocation fails.
fn entries(alloc: Global, name: &str) -> Result<Vec<Entry>, AllocError>
    ensures { IfOk result (λ v. entries_of v.items ≡ (name.now, false) ∷ []) }
{
    let name = Name::new(String::from_str(alloc, name)?).map_err(|_| AllocError)?;
    let mut entries = Vec::new(alloc);
    entries.push(Entry {
        name,
        is_dir: false,
    })?;
    Ok(entries)
}

/// The walk of `*.rs` over a tree with only the file `main.rs`, with a limit of 3 units. The limit is enough, and if no
/// allocation fails, the only item is `main.rs`.
pub fn walk_over_main(alloc: Global) -> Result<Walk<OneFile<'static>>, PatternRefusal>
    ensures within { IfOk result (λ walk. walk.end ≢ End.Limit) }
    ensures found { IfOk result (λ walk. walk.end ≡ End.Done
        → AreItems walk.items.items (Found (codes "main.rs") ∷ [])) }
    ensures spent { IfOk result (λ walk. walk.end ≡ End.Done → walk.spent ≡ 3) }
    ensures refused { IfErr result (λ refusal. refusal ≡ Memory) }
{
    let tree = OneFile::new(alloc, "main.rs");
    let walk = walk_in(alloc, tree, "*.rs", MatchOptions::new(), 3)?;
    Ok(walk)
}
