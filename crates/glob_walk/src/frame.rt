//! A directory that a walk is going through.
//!
//! A frame is what `walkdir` would call an open directory: its path, its entries, and how far the walk has come in it.
//! It is read from the tree once, as a whole. Each step moves the cursor once, and makes at most one task, so a child's
//! path is built only if the child is met or entered.
//!
//! Under `**` each entry takes two steps. First the component after the `**` meets the entry, or, at the pattern's end,
//! the entry is given. Then, if it is a directory, the `**` enters it.
ghost use Rattle.std.specs.Prelude.{◌≡◌, ◌+◌, ◌<◌, ◌≤◌, ◌++◌, ℕ, false, IfOk, None, OnOk, vec_len};
ghost use Rattle.glob_tree.specs.Content.{Content};
ghost use Rattle.glob_walk.specs.Private.Tasks.{next_marks, next_ready, IsNextSound};
ghost use Rattle.glob_walk.specs.Private.Depths.{IsFrameDeep, IsNextDeep};
ghost use Rattle.glob_walk.specs.Private.Frames.{frame_marks, is_done as is_done_frame, steps_left, unmet, IsFrameSound};

mod tasks;

use crate::plan::Plan;
use crate::task::Task;
use glob_tree::Entry;
use std::alloc::{AllocError, Allocator};

/// The position of a walk in a directory.
#[derive(Clone, Copy)]
pub enum Cursor {
    /// Before `..`, which a component that begins with a dot may match.
    Parent,
    /// Before `.`, after `..`.
    Current,
    /// Before the entry of this number.
    At(usize),
    /// Inside the entry of this number: the component has met it, and `**` still has to enter it.
    Inside(usize),
}

/// A directory that was listed, and how far the walk has come in it.
#[derive(Drop)]
pub struct Frame<A: Allocator> {
    /// Its path.
    pub path: String<A>,
    /// The number of the component that it was listed for. A component with wildcards is matched against the entries;
    /// for `**`, the component after it is matched.
    pub component: usize,
    /// Whether that component is `**`.
    pub recursive: bool,
    /// Its entries, in ascending order of names.
    pub entries: Vec<Entry<A>, A>,
    /// How far the walk has come.
    pub cursor: Cursor,
}

impl<A: Allocator + Copy> Frame<A> {
    /// Whether nothing is left in it: the cursor is past the last entry.
    pub fn is_done(&self) -> bool
        ensures { result ≡ is_done_frame self.now }
    {
        match self.cursor {
            Cursor::Parent | Cursor::Current => false,
            Cursor::At(i) | Cursor::Inside(i) => self.entries.len() <= i,
        }
    }

    /// Moves the cursor one step, and returns the task that follows from where it was, if any. Each call leaves fewer
    /// steps: there are at most two for each entry, and one each for `..` and `.`.
    pub fn step(&mut self, plan: &Plan<A>) -> Result<Option<Task<A>>, AllocError>
        requires going { is_done_frame self.old ≡ false }
        requires within { self.old.component < vec_len plan.now.components }
        ensures marks { IfOk result
            (λ task. (c : Content)
            → frame_marks c plan.now self.old
            ≡ next_marks c plan.now task ++ frame_marks c plan.now self.new) }
        ensures same { self.new ≡ record self.old { cursor = self.new.cursor } }
        ensures falls { OnOk result (steps_left self.new < steps_left self.old) }
        ensures ready { IfOk result
            (λ task. next_ready plan.now task + unmet self.new ≤ unmet self.old) }
        ensures sound { IfOk result
            (λ task. (c : Content) → IsFrameSound c self.old → IsNextSound c task) }
        ensures deep { IfOk result
            (λ task. (c : Content) → (n : ℕ) → IsFrameDeep c plan.now n self.old
            → IsNextDeep c plan.now (n + 1) task × IsFrameDeep c plan.now n self.new) }
    {
        match self.cursor {
            Cursor::Parent => {
                self.cursor = Cursor::Current;
                self.special_task(plan, "..")
            }
            Cursor::Current => {
                self.cursor = Cursor::At(0);
                self.special_task(plan, ".")
            }
            Cursor::At(i) => {
                self.cursor = if self.recursive {
                    Cursor::Inside(i)
                } else {
                    Cursor::At(i + 1)
                };
                self.met_task(plan, &self.entries[i])
            }
            Cursor::Inside(i) => {
                self.cursor = Cursor::At(i + 1);
                self.entered_task(plan, &self.entries[i])
            }
        }
    }
}
