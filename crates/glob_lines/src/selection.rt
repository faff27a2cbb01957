//! Which records are copied.
ghost use Rattle.std.specs.Prelude.{◌≡◌, List, ℕ, Bool, IfOk};

use std::alloc::AllocError;

/// Decides from a record's bytes whether it is copied. The same selection gives the same answer for the same bytes.
///
/// ```text
/// struct Commented;
///
/// impl Selection for Commented {
///     ghost selects = { λ s bytes. slice_index_or bytes 0 0 == 35 };
///
///     fn selects(&self, bytes: &[u8]) -> Result<bool, AllocError> {
///         Ok(bytes.first() == Some(&b'#'))
///     }
/// }
/// ```
pub trait Selection {
    ghost selects: { Self → List ℕ → Bool };

    /// Whether the record `bytes`, given without its end, is copied. The error is a failed allocation.
    fn selects(&self, bytes: &[u8]) -> Result<bool, AllocError>
        ensures { IfOk result (λ yes. yes ≡ selects self.now bytes.now) };
}
