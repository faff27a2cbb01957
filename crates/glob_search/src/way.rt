//! The way down to where a search is, and what it does next.
ghost use Rattle.std.specs.Prelude.{◌≡◌, ◌+◌, ◌≤◌, None, MatchOption, OnOk, map, string_bytes, ⊤};

use crate::frame::{Frame, Opening};
use glob_tree::Entry;
use std::alloc::{AllocError, Allocator};

/// What a search does next.
#[derive(Drop)]
pub enum Work<A: Allocator> {
    /// It enters a directory.
    Enter(Opening<A>),
    /// It reads, in the last directory, the ignore file with the name at this index.
    Read(usize),
    /// It meets an entry of the last directory.
    Meet(Entry<A>),
    /// It has left a directory. This many of the lists in `ActiveRules::files` still apply.
    Leave(usize),
}

/// The directories on the way down, and the one that is entered next.
#[derive(Drop)]
pub struct Way<A: Allocator> {
    pub entering: Option<Opening<A>>,
    pub frames: Vec<Frame<A>, A>,
}

impl<A: Allocator> Way<A> {
    ghost use Rattle.glob_search.specs.Private.Ways.{IsDone};
    ghost use Rattle.glob_search.specs.Private.Steps.{MayEnter, NextWork};
    ghost use Rattle.glob_search.specs.Private.Weights.{way_weight, work_weight};

    /// What the search does next, given the names of ignore files. `None` if nothing is left.
    pub fn next(&mut self, names: &[String<A>]) -> Option<Work<A>>
        ensures weight { MatchOption result ⊤
            (λ work. way_weight self.new + work_weight work ≡ way_weight self.old) }
        ensures ends { MatchOption result (IsDone self.new) (λ _. ⊤) }
        ensures stays { IsDone self.old → (result ≡ None) × (self.new ≡ self.old) }
        ensures work { NextWork (map (λ name. string_bytes name) names.now)
            self.old result self.new }
    {
        if let Some(opening) = self.entering.take() {
            return Some(Work::Enter(opening));
        }
        let frame = self.frames.last_mut()?;
        if let Some(number) = frame.next_file(names) {
            return Some(Work::Read(number));
        }
        if let Some(entry) = frame.entries.pop() {
            return Some(Work::Meet(entry));
        }
        let frame = self.frames.pop()?;
        Some(Work::Leave(frame.active))
    }

    /// Enters a directory next, if `enters` says so.
    pub fn enter_if(
        &mut self,
        enters: bool,
        path: &String<A>,
        alive: Vec<usize, A>,
    ) -> Result<(), AllocError>
    where
        A: Copy,
        ensures weight { way_weight self.new ≤ way_weight self.old + 1 }
        ensures enters { OnOk result
            (MayEnter enters (string_bytes path.now) alive.items self.old self.new) }
    {
        if enters {
            let path = path.clone()?;
            self.entering = Some(Opening { path, alive });
        }
        Ok(())
    }
}
