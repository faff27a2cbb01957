//! Names of entries.
ghost use Rattle.std.specs.Prelude.{◌≡◌, true, is_ok, IfOk, IfErr, string_bytes};
ghost use Rattle.std.specs.List.{list_any};
ghost use Rattle.glob_tree.specs.Directories.{is_listed as names_entry_bytes};
ghost use Rattle.glob_tree.specs.Paths.{is_barred, is_proper as is_proper_text};

use std::alloc::{AllocError, Allocator, Global};
use std::marker::Model;

/// A proper name, as the entries of directories have: not empty, not `.` or `..`, and without `/` and NUL.
///
/// `a.rs` and `...` are names; `a/b` is not.
#[derive(Drop)]
#[derive_where(Debug)]
pub struct Name<A: Allocator = Global> {
    text: String<A>,
}

impl<A: Allocator> Model for Name<A> {
    ghost use Rattle.std.specs.Prelude.{List, ℕ, string_bytes, IsTrue};
    ghost use Rattle.glob_tree.specs.Paths.{is_proper};

    ghost Value = { List ℕ };

    ghost view = { λ a. string_bytes a.text };

    ghost invariant = { λ a. IsTrue (is_proper (string_bytes a.text)) };
}

impl<A: Allocator> Name<A> {
    /// Makes the name `text`, such as `a.rs`. It allocates nothing.
    ///
    /// The error is `text` itself, if it is not a proper name: `Name::new(text)` is `Err(text)` for `..` and for `a/b`.
    pub fn new(text: String<A>) -> Result<Self, String<A>>
        ensures proper { is_ok result ≡ is_proper_text (string_bytes text) }
        ensures name { IfOk result (λ name. name ≡ string_bytes text) }
        ensures back { IfErr result (λ back. back ≡ text) }
    {
        if is_proper(text.as_str()) {
            Ok(Name { text })
        } else {
            Err(text)
        }
    }

    /// The text of the name, such as `a.rs`.
    pub fn as_str(&self) -> &str
        ensures { result.now ≡ self.now }
    {
        self.text.as_str()
    }
}

/// A copy of the name: for `a.rs`, another `a.rs`. The error is an allocation failure.
pub fn copy_name<A: Allocator>(alloc: A, name: &Name<A>) -> Result<Name<A>, AllocError>
    ensures { IfOk result (λ copy. copy ≡ name.now) }
{
    let text = String::from_str(alloc, name.text.as_str())?;
    Ok(Name { text })
}

/// The name `text`, which must be proper, such as `a.rs`: [`Name::new`] of a copy of `text`, without the test. The
/// error is an allocation failure.
pub fn name_from_proper<A: Allocator>(alloc: A, text: &str) -> Result<Name<A>, AllocError>
    requires { is_proper_text text.now ≡ true }
    ensures { IfOk result (λ name. name ≡ text.now) }
{
    let text = String::from_str(alloc, text)?;
    Ok(Name { text })
}

/// Whether the text is a proper name: `a.rs` is, `..` is not.
pub fn is_proper(text: &str) -> bool
    ensures { result ≡ is_proper_text text.now }
{
    names_entry(text.as_bytes()) && !has_barred(text)
}

/// Whether the bytes can name an entry: they are not empty, `.` or `..`.
pub(crate) fn names_entry(bytes: &[u8]) -> bool
    ensures { result ≡ names_entry_bytes bytes.now }
{
    !bytes.is_empty() && bytes != b".".as_slice() && bytes != b"..".as_slice()
}

/// Whether some byte is `/` or NUL, which no name contains.
fn has_barred(text: &str) -> bool
    ensures { result ≡ list_any is_barred text.now }
{
    text.as_bytes()
        .iter()
        .any(|&byte| byte == b'/' || byte == 0)
}
