//! What callers of a walk share: why not all of its paths were found, and the check that a pattern is plain.
ghost use Rattle.std.specs.Prelude.{◌≡◌, true, OnOk, IfErr};
ghost use Rattle.glob.specs.Goal.{is_plain};
ghost use Rattle.glob.specs.GlobErrors.{cause_of};
ghost use Rattle.glob_examples.specs.WalkFaults.{IsPatternFault, fault_by_cause, fault_of_refusal};

use glob::{GlobCause, GlobError, PatternError, PatternRefusal, is_plain};
use std::alloc::{AllocError, AllocFailed, Allocator};

/// Why not all paths of a walk were found.
#[derive(Drop)]
pub enum WalkFault<A: Allocator> {
    /// The pattern has this fault.
    Syntax(PatternError),
    /// The pattern is not plain, for example `src/./*.rs` or `.*`: a walk by it may find paths that the whole pattern
    /// does not match.
    NotPlain,
    /// The walk needs more units of work than the limit.
    Limit,
    /// Out of memory: an allocation failed.
    Memory,
    /// A directory could not be listed.
    Unread(GlobError<A>),
}

/// A refused pattern.
impl<A: Allocator> From<PatternRefusal> for WalkFault<A> {
    ghost from_gives = { λ refusal fault. fault ≡ fault_of_refusal refusal };

    fn from(refusal: PatternRefusal) -> WalkFault<A> {
        match refusal {
            PatternRefusal::Syntax(error) => WalkFault::Syntax(error),
            PatternRefusal::Memory => WalkFault::Memory,
        }
    }
}

/// An error of a walk, by its cause.
impl<A: Allocator> From<GlobError<A>> for WalkFault<A> {
    ghost from_gives = { λ error fault. fault ≡ fault_by_cause (cause_of error) error };

    fn from(error: GlobError<A>) -> WalkFault<A> {
        match error.cause() {
            GlobCause::Read => WalkFault::Unread(error),
            GlobCause::Memory => WalkFault::Memory,
            GlobCause::Limit => WalkFault::Limit,
        }
    }
}

/// A failed allocation.
impl<A: Allocator> From<AllocError> for WalkFault<A> {
    ghost use Rattle.glob_examples.specs.declared.faults.WalkFault.TheVariants.{Memory};

    ghost from_gives = { λ _ fault. fault ≡ Memory };

    fn from(_error: AllocError) -> WalkFault<A> {
        WalkFault::Memory
    }
}

/// A failed allocation.
impl<T: Drop, A: Allocator> From<AllocFailed<T>> for WalkFault<A> {
    ghost use Rattle.glob_examples.specs.declared.faults.WalkFault.TheVariants.{Memory};

    ghost from_gives = { λ _ fault. fault ≡ Memory };

    fn from(_error: AllocFailed<T>) -> WalkFault<A> {
        WalkFault::Memory
    }
}

/// Refuses a pattern that is not plain: a walk by it may find paths that the whole pattern does not match.
///
/// `src/**/*.rs` is accepted, `src/./*.rs` is refused with `NotPlain`, and `a**` with `Syntax`.
pub fn check_plain<A: Allocator + Copy>(alloc: A, pattern: &str) -> Result<(), WalkFault<A>>
    ensures plain { OnOk result (is_plain pattern.now ≡ true) }
    ensures fault { IfErr result (IsPatternFault pattern.now) }
{
    if is_plain(alloc, pattern)? {
        Ok(())
    } else {
        Err(WalkFault::NotPlain)
    }
}
