//! What is written for each record.
ghost use Rattle.std.specs.Prelude.{◌≡◌, ◌++◌, [], if◌then◌else◌, List, ℕ, Bool, IfOk};
ghost use Rattle.glob_lines.specs.Lines.{ended_record};

use crate::selection::Selection;
use std::alloc::{AllocError, Allocator};

/// Decides from a record's bytes whether anything is written for it, and what. The same bytes always give the same
/// result, although a rewrite may change, for example to keep what it has read.
///
/// `gives` says which records a rewrite selects, and what it writes for each. It may say so of several functions, or of
/// none, if what the rewrite reads is not known.
///
/// ```text
/// struct Dashed;
///
/// impl Rewrite for Dashed {
///     ghost gives = { λ r selects write.
///         (selects ≡ λ bytes. true) × (write ≡ λ bytes. codes "- " ++ bytes ++ 10 ∷ []) };
///
///     fn rewrite<A: Allocator>(
///         &mut self,
///         bytes: &[u8],
///         output: &mut Vec<u8, A>,
///     ) -> Result<bool, AllocError> {
///         output.extend_from_slice(b"- ")?;
///         output.extend_from_slice(bytes)?;
///         output.push(b'\n')?;
///         Ok(true)
///     }
/// }
/// ```
pub trait Rewrite {
    ghost gives: { Self → (selects : List ℕ → Bool) → (write : List ℕ → List ℕ) → Type 0 };

    /// Appends to `output` what is written for the record `bytes`, given without its end, and returns whether anything
    /// is written. The error is a failed allocation, after which `output` may hold any bytes.
    fn rewrite<A: Allocator>(
        &mut self,
        bytes: &[u8],
        output: &mut Vec<u8, A>,
    ) -> Result<bool, AllocError>
        ensures keeps { (selects : List ℕ → Bool) (write : List ℕ → List ℕ)
            → gives self.old selects write → gives self.new selects write }
        ensures answer { (selects : List ℕ → Bool) (write : List ℕ → List ℕ)
            → gives self.old selects write → IfOk result (λ yes. yes ≡ selects bytes.now) }
        ensures bytes { (selects : List ℕ → Bool) (write : List ℕ → List ℕ)
            → gives self.old selects write → IfOk result (λ yes. output.new.items
            ≡ output.old.items ++ (if yes then write bytes.now else [])) };
}

/// The selected records as they are, each with its end.
#[derive(Drop)]
pub struct Copied<'s, S> {
    pub selection: &'s S,
    pub end: u8,
}

impl<S: Selection> Rewrite for Copied<'_, S> {
    ghost gives = { λ c selects write.
        (selects ≡ S.selects c.selection.now) × (write ≡ ended_record c.end) };

    fn rewrite<A: Allocator>(
        &mut self,
        bytes: &[u8],
        output: &mut Vec<u8, A>,
    ) -> Result<bool, AllocError> {
        if !self.selection.selects(bytes)? {
            return Ok(false);
        }
        output.extend_from_slice(bytes)?;
        output.push(self.end)?;
        Ok(true)
    }
}
