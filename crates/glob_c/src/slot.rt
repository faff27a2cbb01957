//! The pointer in a handle, and what it owns. The layout is that of `at` in `include/cadmiumdove.h`.
//!
//! Bodies with raw pointers have proofs by hand (`proofs/SlotBoxes.antt`, `proofs/SlotValues.antt`): whoever changes a
//! statement of such a body changes them, too.
ghost use Rattle.std.specs.Prelude.{◌≡◌, ℕ, List, IsSome};
ghost use Rattle.std.specs.declared.option.Option.{Option};
ghost use Rattle.std.specs.declared.option.Option.TheVariants.{None, Some};
ghost use Rattle.glob_c.specs.Sessions.{Sitting};
ghost use Rattle.glob_c.specs.Slots.{slot_owns};

use crate::loose::Loose;
use crate::session::Session;
use glob_pattern::Pattern;
use std::alloc::Global;
use std::marker::Model;
use std::ptr;

/// A pointer that owns a pattern or a walk, or points to nothing.
#[repr(C)]
pub struct Slot {
    at: *mut u8,
    pub ghost text: { Option (List ℕ) },
    pub ghost walk: { Option Sitting },
}

impl Model for Slot {
    ghost also_owns = { λ s. slot_owns s.at s.text s.walk };
}

/// A slot may go to another thread because patterns and walks may.
unsafe impl Send for Slot {}

impl Slot {
    /// An empty slot.
    pub(crate) fn empty() -> Slot
        ensures { (result.text ≡ None) × (result.walk ≡ None) }
    {
        Slot {
            at: ptr::null_mut(),
        }
    }

    /// A slot with the pattern of the box.
    pub(crate) fn of_pattern(pattern: Loose<Pattern<Global>, Global>) -> Slot
        ensures { (result.text ≡ Some pattern.value) × (result.walk ≡ None) }
    {
        let Loose { at, alloc: _ } = pattern;
        Slot { at: at as *mut u8 }
    }

    /// A slot with the walk of the box.
    pub(crate) fn of_walk(session: Loose<Session, Global>) -> Slot
        ensures { (result.text ≡ None) × (result.walk ≡ Some session.value) }
    {
        let Loose { at, alloc: _ } = session;
        Slot { at: at as *mut u8 }
    }

    /// The box of the slot's pattern.
    pub(crate) fn into_pattern(self, alloc: Global) -> Loose<Pattern<Global>, Global>
        requires { IsSome self.text }
        ensures { self.text ≡ Some result.value }
    {
        let Slot { at } = self;
        Loose {
            at: at as *mut Pattern<Global>,
            alloc,
        }
    }

    /// The box of the slot's walk.
    pub(crate) fn into_walk(self, alloc: Global) -> Loose<Session, Global>
        requires { IsSome self.walk }
        ensures { self.walk ≡ Some result.value }
    {
        let Slot { at } = self;
        Loose {
            at: at as *mut Session,
            alloc,
        }
    }

    /// Drops an empty slot, so that nothing leaks.
    pub(crate) fn close(self)
        requires { (self.text ≡ None) × (self.walk ≡ None) }
    {
        let Slot { at: _ } = self;
    }
}
