//! A C program's handle of a walk.
ghost use Rattle.std.specs.Prelude.{◌≡◌, MatchOption, is_some};
ghost use Rattle.std.specs.declared.option.Option.TheVariants.{None, Some};

use crate::loose::Loose;
use crate::session::Session;
use crate::slot::Slot;
use std::alloc::Global;
use std::mem;

/// A C program's handle of a walk, or an empty one.
#[repr(C)]
pub struct WalkHandle {
    pub(crate) slot: Slot,
    /// Whether the slot has a walk.
    full: bool,
    ghost tied: { full ≡ is_some slot.walk },
    ghost no_pattern: { slot.text ≡ None },
}

impl WalkHandle {
    /// Whether the handle has a walk.
    pub(crate) fn is_full(&self) -> bool
        ensures { result ≡ is_some self.now.slot.walk }
    {
        self.full
    }

    /// Puts a walk into an empty handle.
    pub(crate) fn fill(&mut self, walk: Box<Session, Global>)
        requires { self.old.slot.walk ≡ None }
        ensures { self.new.slot.walk ≡ Some walk.value }
    {
        let WalkHandle { slot, full: _ } = mem::replace(
            self,
            WalkHandle {
                slot: Slot::of_walk(Loose::of(walk)),
                full: true,
            },
        );
        slot.close();
    }

    /// Takes the walk out, if there is one.
    pub(crate) fn take(&mut self, alloc: Global) -> Option<Box<Session, Global>>
        ensures empty { self.new.slot.walk ≡ None }
        ensures value { MatchOption result (self.old.slot.walk ≡ None)
            (λ b. self.old.slot.walk ≡ Some b.value) }
    {
        let WalkHandle { slot, full } = mem::replace(
            self,
            WalkHandle {
                slot: Slot::empty(),
                full: false,
            },
        );
        if full {
            Some(slot.into_walk(alloc).into_box())
        } else {
            slot.close();
            None
        }
    }
}
