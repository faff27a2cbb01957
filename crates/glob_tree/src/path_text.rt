//! The texts of paths.
ghost use Rattle.std.specs.Prelude.{◌≡◌, ◌++◌, ◌∷◌, [], true, if◌then◌else◌, IfOk, MatchOption, string_bytes};
ghost use Rattle.std.specs.List.{list_all};
ghost use Rattle.std.specs.Path.{has_no_slash, with_separator};
ghost use Rattle.glob_text.specs.Characters.{dot, slash};
ghost use Rattle.glob_text.specs.Pieces.{begins_with, pieces};
ghost use Rattle.glob_tree.specs.Paths.{child as child_text, join as join_text, stays as stays_text, is_here as is_here_text};
ghost use Rattle.glob_tree.specs.Private.Looking.{IsOnWay};

use std::alloc::{AllocError, Allocator};

/// The path of a name in a directory: only the name if the directory is `.` (or `./`, `./.`), and otherwise the two
/// joined, such as `a/b` for `a` and `b`. The error is an allocation failure.
#[tactic(auto, unfolding(crate::specs::Paths::child))]
pub fn child<A: Allocator>(alloc: A, dir: &str, name: &str) -> Result<String<A>, AllocError>
    ensures { IfOk result (λ p. string_bytes p ≡ child_text dir.now name.now) }
{
    if is_here(dir) {
        String::from_str(alloc, name)
    } else {
        join(alloc, dir, name)
    }
}

/// The path, a separator unless the path is empty or ends in one, and the name: `a/b` for `a` and `b`, and for `a/` and
/// `b`. The error is an allocation failure.
#[tactic(auto, unfolding(crate::specs::Paths::join))]
pub fn join<A: Allocator>(alloc: A, dir: &str, name: &str) -> Result<String<A>, AllocError>
    ensures { IfOk result (λ p. string_bytes p ≡ join_text dir.now name.now) }
{
    let room = dir.len().saturating_add(1).saturating_add(name.len());
    let mut path = String::with_capacity(alloc, room)?;
    path.push_str(dir)?;
    if needs_separator(dir) {
        path.push('/')?;
    }
    path.push_str(name)?;
    Ok(path)
}

/// Whether a separator has to come between the path and a name.
fn needs_separator(dir: &str) -> bool
    ensures { with_separator dir.now ≡ (if result then dir.now ++ slash ∷ [] else dir.now) }
{
    !dir.is_empty() && !dir.ends_with('/')
}

/// Whether the path is `.`, or `.` and more pieces that stay there, such as `./.`.
fn is_here(path: &str) -> bool
    ensures { result ≡ is_here_text path.now }
{
    path.starts_with('.') && all_stay(path)
}

/// Whether each piece of the path is empty or `.`.
fn all_stay(path: &str) -> bool
    ensures { result ≡ list_all stays_text (pieces path.now) }
{
    path.split('/').all(stays)
}

/// The text before the last `/` of a path and the text after it; `None` if it has no `/`.
pub(crate) fn cut_last(path: &str) -> Option<(&str, &str)>
    ensures { MatchOption result (has_no_slash path.now ≡ true)
        (λ cut. (path.now ≡ cut.0.now ++ slash ∷ cut.1.now)
        × (has_no_slash cut.1.now ≡ true)) }
{
    match path.rsplit_once('/') {
        Some((above, name)) => Some((above, name)),
        None => None,
    }
}

/// Whether a piece of a path stays where it is: true for an empty piece and `.`, false for `a` and `..`.
pub fn stays(piece: &str) -> bool
    ensures { result ≡ stays_text piece.now }
{
    piece.is_empty() || piece == "."
}

/// Whether the name begins with a dot, as `.a` does.
pub fn begins_with_dot(name: &str) -> bool
    ensures { result ≡ begins_with dot name.now }
{
    name.starts_with('.')
}

/// Whether a directory is `way` or is above it. The empty path is above every path.
pub(crate) fn is_on_way(directory: &str, way: &str) -> bool
    ensures { IsOnWay directory.now way.now result }
{
    if directory.is_empty() {
        return true;
    }
    match way.strip_prefix(directory) {
        Some(rest) => rest.is_empty() || rest.starts_with('/'),
        None => false,
    }
}
