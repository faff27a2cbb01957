//! What a copy tool copies: the paths of a walk that an include pattern matches and no exclude pattern does.
ghost use Rattle.std.specs.Prelude.{◌≡◌, ◌↔◌, ◌⊎◌, [], ◌∷◌, ◌++◌, true, map, chars, string_bytes, IsTrue, Ok, IfOk, IfErr};
ghost use Rattle.std.specs.Path.{path_bytes, path_buf_bytes};
ghost use Rattle.std.specs.declared.path.buf.PathBuf.{PathBuf};
ghost use Rattle.glob.specs.Answers.{IsTold};
ghost use Rattle.glob.specs.Content.{Content};
ghost use Rattle.glob.specs.Goal.{is_plain};
ghost use Rattle.glob.specs.Lines.{AreKept};
ghost use Rattle.glob.specs.Matching.Texts.{Matches};
ghost use Rattle.glob_examples.specs.PathOptions.{path_options};
ghost use Rattle.glob.specs.Text.{Text};
ghost use Rattle.glob_set.specs.Sets.{RefusesTexts};
ghost use Rattle.glob_examples.specs.Copying.{AreToCopy, Copies, IsBelow};
ghost use Rattle.glob_examples.specs.Sources.{AreSources};
ghost use Rattle.glob_examples.specs.WalkFaults.{EndsAt, IsMet, IsWalkFault};

use crate::faults::{WalkFault, check_plain};
use glob::{GlobError, MatchOptions, Pattern, Tree, glob_in};
use glob_set::{PatternSet, SetRefusal};
use std::alloc::{AllocError, Allocator, Global};
use std::marker::Model;
use std::path::{Path, PathBuf};

/// Selects the paths that some include pattern matches and no exclude pattern does.
#[derive(Drop)]
pub struct CopyRules<A: Allocator = Global> {
    include: PatternSet<A>,
    exclude: PatternSet<A>,
}

// Clauses see both sets.
impl<A: Allocator> Model for CopyRules<A> {
    ghost Value = { Rattle.glob_examples.specs.Copying.CopyRules };

    ghost view = { λ rules. record { include = rules.include; exclude = rules.exclude } };
}

impl<A: Allocator + Copy> CopyRules<A> {
    /// Parses both lists. The error has the index and the fault of the first invalid pattern of a list, or reports a
    /// failed allocation.
    pub fn new(alloc: A, include: &[&str], exclude: &[&str]) -> Result<Self, SetRefusal>
        ensures include { IfOk result (λ rules. rules.include
            ≡ record { patterns = map (λ t. t.now) include.now; options = path_options }) }
        ensures exclude { IfOk result (λ rules. rules.exclude
            ≡ record { patterns = map (λ t. t.now) exclude.now; options = path_options }) }
        ensures refused { IfErr result (λ refusal.
            RefusesTexts (map (λ t. t.now) include.now) refusal
            ⊎ RefusesTexts (map (λ t. t.now) exclude.now) refusal) }
    {
        let include = PatternSet::from_texts(alloc, include, path_options())?;
        let exclude = PatternSet::from_texts(alloc, exclude, path_options())?;
        Ok(CopyRules { include, exclude })
    }

    /// Whether the path is copied. `*` matches within one name of it, and `**` any number of names. Fails only if
    /// allocation fails.
    ///
    /// With the lists `**/*.rs` and `**/tests/*`, `src/main.rs` is copied, and `src/tests/copy.rs` is not.
    pub fn copies(&self, path: Path<'_>) -> Result<bool, AllocError>
        ensures { IfOk result (λ yes. IsTrue yes ↔ Copies self.now (path_bytes path.entry)) }
    {
        if !self.include.is_match_path(path)? {
            return Ok(false);
        }
        Ok(!self.exclude.is_match_path(path)?)
    }
}

/// The paths that a plain pattern finds and the rules copy. If the walk does not finish, its first error is returned,
/// so over a tree with known content no path is missing. `limit` is in lookups, listings and entries.
///
/// All paths found are held in memory at once. Directories are paths too. With `src/**/*` and the lists `**/*.rs` and
/// `**/tests/*`, `src/main.rs` is copied.
pub fn paths_to_copy<T: Tree, A: Allocator + Copy>(
    alloc: T::Alloc,
    tree: T,
    pattern: &str,
    rules: &CopyRules<A>,
    limit: u64,
) -> Result<Vec<PathBuf<T::Alloc>, T::Alloc>, WalkFault<T::Alloc>>
    ensures files { (c : Content) → IsTold (T.tells tree) c → IfOk result (λ files.
        AreToCopy c pattern.now rules.now (map path_buf_bytes files.items)) }
    ensures plain { IfOk result (λ _. is_plain pattern.now ≡ true) }
    ensures fault { IfErr result (IsWalkFault pattern.now) }
    ensures met { (c : Content) → IsTold (T.tells tree) c
        → IfErr result (IsMet c pattern.now limit) }
{
    let paths = found_paths(alloc, tree, pattern, limit)?;
    Ok(copied(alloc, rules, paths)?)
}

/// All paths that a plain pattern finds, or the first error of the walk.
fn found_paths<T: Tree>(
    alloc: T::Alloc,
    tree: T,
    pattern: &str,
    limit: u64,
) -> Result<Vec<PathBuf<T::Alloc>, T::Alloc>, WalkFault<T::Alloc>>
    ensures files { (c : Content) → IsTold (T.tells tree) c
        → IfOk result (λ files. AreSources c pattern.now (map path_buf_bytes files.items)) }
    ensures plain { IfOk result (λ _. is_plain pattern.now ≡ true) }
    ensures fault { IfErr result (IsWalkFault pattern.now) }
    ensures met { (c : Content) → IsTold (T.tells tree) c
        → IfErr result (IsMet c pattern.now limit) }
{
    check_plain(alloc, pattern)?;
    let paths = glob_in(alloc, tree, pattern, MatchOptions::new(), limit)?;
    let mut files = Vec::new(alloc);
    for item in paths {
        push_found(&mut files, item)?;
    }
    Ok(files)
}

/// Adds an item of a walk if it is a path, and returns it if it is an error. Also fails if allocation fails.
fn push_found<A: Allocator>(
    files: &mut Vec<PathBuf<A>, A>,
    item: Result<PathBuf<A>, GlobError<A>>,
) -> Result<(), WalkFault<A>>
    ensures added { IfOk result (λ _. (path : PathBuf A) × (item ≡ Ok path)
        × (files.new.items ≡ files.old.items ++ path ∷ [])) }
    ensures fault { IfErr result (EndsAt item) }
{
    files.push(item?)?;
    Ok(())
}

/// The paths that the rules copy, in order. Fails only if allocation fails.
fn copied<A: Allocator + Copy, B: Allocator>(
    alloc: B,
    rules: &CopyRules<A>,
    paths: Vec<PathBuf<B>, B>,
) -> Result<Vec<PathBuf<B>, B>, AllocError>
    ensures { IfOk result (λ files.
        AreKept (Copies rules.now) (map path_buf_bytes paths.items) (map path_buf_bytes files.items)) }
{
    let mut files = Vec::new(alloc);
    for path in paths {
        if rules.copies(path.as_path())? {
            files.push(path)?;
        }
    }
    Ok(files)
}

/// The pattern for everything below a folder. Its name is taken literally: for `a[1]` the pattern is `a[[]1[]]/**/*`.
/// The empty name stands for `/`. Fails only if allocation fails.
pub fn pattern_below<A: Allocator>(alloc: A, folder: &str) -> Result<String<A>, AllocError>
    ensures { IfOk result (λ pattern. (text : Text)
        → Matches path_options (chars (string_bytes pattern)) text
        ↔ IsBelow (chars folder.now) text) }
{
    let mut pattern = Pattern::escape(alloc, folder)?;
    pattern.push_str("/**/*")?;
    Ok(pattern)
}

/// Case-sensitive, with the separator rule: `*` matches within one name of a path, and `**` any number of names.
const fn path_options() -> MatchOptions
    ensures { result ≡ path_options }
{
    MatchOptions {
        require_literal_separator: true,
        ..MatchOptions::new()
    }
}
