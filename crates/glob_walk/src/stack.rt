//! What a walk still has to do.
//!
//! Like the stack of `walkdir`, this one holds one directory for each level, with two differences. The next task is
//! kept apart, before the directories. And a directory with nothing left is not on the stack: its last step removes it,
//! with its names. In a directory listed for `**`, the last step enters the last entry. That comes after the entry was
//! met, so the directory stays on the stack while the components after `**` go on in the entry. So for a chain of
//! directories with one entry each, the stack holds at most one directory for each `**` and one more, not the whole
//! chain (no clause says this). With a plain pattern each directory is below the one before it, so over a content there
//! are at most as many as its longest key has names: the clause `few` of `WalkMachine::kept`.
ghost use Rattle.std.specs.Prelude.{◌≡◌, ◌+◌, ◌<◌, ◌≤◌, ◌++◌, true, false, [], None, Ok, IfOk, OnOk, vec_len};
ghost use Rattle.glob_tree.specs.Content.{Content};
ghost use Rattle.std.specs.List.{All};
ghost use Rattle.glob_walk.specs.Private.Frames.{frame_marks, is_done, unmet};

use crate::frame::Frame;
use crate::plan::Plan;
use crate::task::Task;
use std::alloc::{AllocError, Allocator};

/// What a walk looks for, and what it still has to do: a task, if there is one, and then what is left in the
/// directories on its stack, from the last to the first.
#[derive(Drop)]
pub struct Stack<A: Allocator> {
    /// What it looks for.
    pub plan: Plan<A>,
    /// What to do before the directories go on.
    pub next: Option<Task<A>>,
    /// The directories, each reached through the one before it. Each has something left.
    pub frames: Vec<Frame<A>, A>,
    ghost components: { All (λ f. f.component < vec_len plan.components) frames.items },
    ghost going: { All (λ f. is_done f ≡ false) frames.items },
}

impl<A: Allocator + Copy> Stack<A> {
    ghost use Rattle.glob_walk.specs.Private.Stacks.{left, weight, ready, IsFitting, IsSound};

    /// Takes one step in the last directory, which may make a task, and removes the directory if this was its last
    /// step. Returns `false` if there is no directory. Each step lowers the weight, so steps come to an end.
    pub fn step(&mut self) -> Result<bool, AllocError>
        requires none { self.old.next ≡ None }
        ensures plan { self.new.plan ≡ self.old.plan }
        ensures left { OnOk result ((c : Content) → left c self.old ≡ left c self.new) }
        ensures over { IfOk result
            (λ more. more ≡ false → (c : Content) → left c self.old ≡ []) }
        ensures idle { self.old.frames.items ≡ [] → result ≡ Ok false }
        ensures falls { IfOk result (λ more. more ≡ true → weight self.new < weight self.old) }
        ensures ready { OnOk result (ready self.new ≤ ready self.old) }
        ensures sound { OnOk result ((c : Content) → IsSound c self.old → IsSound c self.new) }
    {
        let Some(frame) = self.frames.last_mut() else {
            return Ok(false);
        };
        let Ok(task) = frame.step(&self.plan) else {
            // This may have been its last step.
            self.frames.pop();
            return Err(AllocError);
        };
        self.next = task;
        if frame.is_done() {
            self.frames.pop();
        }
        Ok(true)
    }

    /// Drops the task and all directories, with their memory: nothing is left.
    pub fn clear(&mut self)
        ensures plan { self.new.plan ≡ self.old.plan }
        ensures next { self.new.next ≡ None }
        ensures frames { self.new.frames.items ≡ [] }
    {
        self.next = None;
        self.frames = Vec::new(self.plan.alloc);
    }

    /// Puts a directory on top, unless it has nothing left.
    pub fn open(&mut self, frame: Frame<A>) -> Result<(), AllocError>
        requires none { self.old.next ≡ None }
        requires component { frame.component < vec_len self.old.plan.components }
        ensures plan { self.new.plan ≡ self.old.plan }
        ensures next { self.new.next ≡ None }
        ensures left { OnOk result ((c : Content)
            → left c self.new ≡ frame_marks c self.old.plan frame ++ left c self.old) }
        ensures ready { OnOk result (ready self.new ≤ ready self.old + unmet frame) }
        ensures sound { OnOk result ((c : Content) → IsFitting c self.old frame → IsSound c self.old
            → IsSound c self.new) }
    {
        if frame.is_done() {
            return Ok(());
        }
        self.frames.push(frame)?;
        Ok(())
    }
}
