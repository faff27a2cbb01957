//! Paths that are `/` and proper names joined by `/`.
ghost use Rattle.std.specs.Prelude.{◌≡◌, ◌++◌, ◌∷◌, [], true, None, MatchOption};
ghost use Rattle.std.specs.List.{list_all};
ghost use Rattle.std.specs.Str.{is_utf8};
ghost use Rattle.glob_tree.specs.Paths.{is_proper as is_proper_text};
ghost use Rattle.glob_text.specs.Pieces.{pieces};
ghost use Rattle.glob_tree.specs.Memory.{key_of};
ghost use Rattle.glob_tree.specs.Private.Numbers.{directory_names};
ghost use Rattle.glob_tree.specs.Private.Places.{AreNames};

use crate::name::is_proper;

/// The path without its leading `/`, if the rest is proper names joined by `/`.
pub(crate) fn proper_names(path: &str) -> Option<&str>
    ensures { MatchOption result (key_of path.now ≡ None) (λ names. AreNames path.now names.now) }
{
    let names = path.strip_prefix('/')?;
    if !are_proper(names) {
        return None;
    }
    Some(names)
}

/// Whether each piece between separators is a proper name.
fn are_proper(names: &str) -> bool
    ensures { result ≡ list_all is_proper_text (pieces names.now) }
{
    // With a bare `is_proper`, a proof would look for it in a module that is private to its crate.
    names.split('/').all(|name| is_proper(name))
}

/// The text before the last `/`, if there is one, and the last name.
pub(crate) fn last_name(names: &str) -> (Option<&str>, &str)
    ensures names { pieces names.now ≡ directory_names result.0 ++ result.1.now ∷ [] }
    ensures utf8 { is_utf8 result.1.now ≡ true }
{
    match names.rsplit_once('/') {
        Some((directory, name)) => (Some(directory), name),
        None => (None, names),
    }
}
