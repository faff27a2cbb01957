//! A C program's handle of a pattern.
ghost use Rattle.std.specs.Prelude.{◌≡◌, MatchOption, is_some};
ghost use Rattle.std.specs.declared.option.Option.TheVariants.{None, Some};

use crate::loose::Loose;
use crate::slot::Slot;
use glob_pattern::Pattern;
use std::alloc::Global;
use std::mem;

/// A C program's handle of a pattern, or an empty one.
#[repr(C)]
pub struct PatternHandle {
    pub(crate) slot: Slot,
    /// Whether the slot has a pattern.
    full: bool,
    ghost tied: { full ≡ is_some slot.text },
    ghost no_walk: { slot.walk ≡ None },
}

impl PatternHandle {
    /// Whether the handle has a pattern.
    pub(crate) fn is_full(&self) -> bool
        ensures { result ≡ is_some self.now.slot.text }
    {
        self.full
    }

    /// Puts a pattern into an empty handle.
    pub(crate) fn fill(&mut self, pattern: Box<Pattern<Global>, Global>)
        requires { self.old.slot.text ≡ None }
        ensures { self.new.slot.text ≡ Some pattern.value }
    {
        let PatternHandle { slot, full: _ } = mem::replace(
            self,
            PatternHandle {
                slot: Slot::of_pattern(Loose::of(pattern)),
                full: true,
            },
        );
        slot.close();
    }

    /// Takes the pattern out, if there is one.
    pub(crate) fn take(&mut self, alloc: Global) -> Option<Box<Pattern<Global>, Global>>
        ensures empty { self.new.slot.text ≡ None }
        ensures value { MatchOption result (self.old.slot.text ≡ None)
            (λ b. self.old.slot.text ≡ Some b.value) }
    {
        let PatternHandle { slot, full } = mem::replace(
            self,
            PatternHandle {
                slot: Slot::empty(),
                full: false,
            },
        );
        if full {
            Some(slot.into_pattern(alloc).into_box())
        } else {
            slot.close();
            None
        }
    }
}
