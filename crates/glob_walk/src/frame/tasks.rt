//! The tasks that follow from a directory's entries, and from `.` and `..` in it.
//!
//! Each step makes at most one task, and builds a child's path only for its task.
ghost use Rattle.std.specs.Prelude.{◌≡◌, ◌+◌, ◌<◌, ℕ, None, IfOk, IfSome, string_bytes, if◌then◌else◌, vec_len};
ghost use Rattle.glob_tree.specs.Content.{Content};
ghost use Rattle.glob_walk.specs.Walks.{is_entered as is_entered_entry};
ghost use Rattle.glob_text.specs.Text.{Text};
ghost use Rattle.glob_tree.specs.Paths.{child as child_path};
ghost use Rattle.glob_walk.specs.Private.Depths.{IsDeepPath, IsNextDeep, IsPlainAt, IsPlainFrom};
ghost use Rattle.glob_walk.specs.Private.Forms.{takes_name};
ghost use Rattle.glob_walk.specs.Private.Tasks.{next_marks, next_ready, IsNextSound};
ghost use Rattle.glob_walk.specs.Private.Frames.{first_part, first_marks, second_marks, met_marks, special_marks, IsEntrySound};

use crate::component::Component;
use crate::frame::Frame;
use crate::plan::Plan;
use crate::task::{Accepted, Task, TaskState};
use glob_pattern::{MatchOptions, is_open};
use glob_tree::{Entry, child, join};
use std::alloc::{AllocError, Allocator};

impl<A: Allocator + Copy> Frame<A> {
    /// The look at `..` or `.` in the directory, if the component matches that name. The name is joined even to `.`:
    /// `./..`.
    pub(super) fn special_task(
        &self,
        plan: &Plan<A>,
        name: &str,
    ) -> Result<Option<Task<A>>, AllocError>
        ensures marks { IfOk result
            (λ task. (c : Content)
            → special_marks c plan.now self.now.component (string_bytes self.now.path) name.now
            ≡ next_marks c plan.now task) }
        ensures ready { IfOk result (λ task. next_ready plan.now task ≡ 0) }
        ensures sound { IfOk result (λ task. (c : Content) → IsNextSound c task) }
    {
        let Some(component) = plan.component(self.component) else {
            return Ok(None);
        };
        if !component.matches(name, plan.options)? {
            return Ok(None);
        }
        Ok(Some(Task {
            path: join(plan.alloc, self.path.as_str(), name)?,
            component: self.component + 1,
            state: TaskState::Unseen(Accepted::Any),
        }))
    }

    /// The task that goes on at an entry, if its name is met. The child's path is built only then.
    pub(super) fn met_task(
        &self,
        plan: &Plan<A>,
        entry: &Entry<A>,
    ) -> Result<Option<Task<A>>, AllocError>
        requires { self.now.component < vec_len plan.now.components }
        ensures marks { IfOk result
            (λ task. (c : Content)
            → first_marks c plan.now self.now (entry.now.name, entry.now.is_dir)
            ≡ next_marks c plan.now task) }
        ensures sound { IfOk result
            (λ task. (c : Content)
            → IsEntrySound c (string_bytes self.now.path) (entry.now.name, entry.now.is_dir)
            → IsNextSound c task) }
        ensures deep { IfOk result
            (λ task. (c : Content) → (n : ℕ)
            → IsPlainAt plan.now self.now.recursive self.now.component
            → IsDeepPath c n (child_path (string_bytes self.now.path) entry.now.name)
            → IsNextDeep c plan.now n task) }
    {
        let name = entry.name.as_str();
        let met = meet(plan, self.recursive, self.component, name, entry.is_dir)?;
        let Some(component) = met else {
            return Ok(None);
        };
        Ok(Some(Task {
            path: child(plan.alloc, self.path.as_str(), name)?,
            component,
            state: TaskState::Seen(entry.is_dir),
        }))
    }

    /// The task that goes on with the same `**` in an entry, if the `**` enters it.
    pub(super) fn entered_task(
        &self,
        plan: &Plan<A>,
        entry: &Entry<A>,
    ) -> Result<Option<Task<A>>, AllocError>
        requires { self.now.component < vec_len plan.now.components }
        ensures marks { IfOk result
            (λ task. (c : Content)
            → second_marks c plan.now self.now (entry.now.name, entry.now.is_dir)
            ≡ next_marks c plan.now task) }
        ensures ready { IfOk result (λ task. next_ready plan.now task ≡ 0) }
        ensures sound { IfOk result
            (λ task. (c : Content)
            → IsEntrySound c (string_bytes self.now.path) (entry.now.name, entry.now.is_dir)
            → IsNextSound c task) }
        ensures deep { IfOk result
            (λ task. (c : Content) → (n : ℕ)
            → IsPlainAt plan.now self.now.recursive self.now.component
            → IsDeepPath c n (child_path (string_bytes self.now.path) entry.now.name)
            → IsNextDeep c plan.now n task) }
    {
        let name = entry.name.as_str();
        if !self.recursive || !is_entered(plan.options, name, entry.is_dir) {
            return Ok(None);
        }
        Ok(Some(Task {
            path: child(plan.alloc, self.path.as_str(), name)?,
            component: self.component,
            state: TaskState::Seen(true),
        }))
    }
}

/// The number of the component with which the walk goes on at an entry, if the entry is met: by the component with this
/// number, or under `**` by the component after it. A `**` at the pattern's end meets each entry that it enters.
fn meet<A: Allocator + Copy>(
    plan: &Plan<A>,
    recursive: bool,
    number: usize,
    name: &str,
    is_dir: bool,
) -> Result<Option<usize>, AllocError>
    requires within { number < vec_len plan.now.components }
    ensures marks { IfOk result
        (λ at. (c : Content) → (path : Text)
        → first_part c plan.now recursive number path (name.now, is_dir)
        ≡ met_marks c plan.now path (name.now, is_dir) at) }
    ensures plain { IfOk result
        (λ at. IsPlainAt plan.now recursive number → IfSome at (IsPlainFrom plan.now)) }
{
    let next = if recursive { number + 1 } else { number };
    match plan.component(next) {
        Some(component) => match_at(plan, component, next + 1, name),
        None if is_entered(plan.options, name, is_dir) => Ok(Some(next)),
        None => Ok(None),
    }
}

/// `next`, if the component matches the name.
fn match_at<A: Allocator + Copy>(
    plan: &Plan<A>,
    component: &Component<A>,
    next: usize,
    name: &str,
) -> Result<Option<usize>, AllocError>
    ensures { IfOk result
        (λ at. at
        ≡ (if takes_name plan.now.options component.now name.now then Some next else None)) }
{
    if component.matches(name, plan.options)? {
        Ok(Some(next))
    } else {
        Ok(None)
    }
}

/// Whether `**` enters an entry: a directory whose name the dot rule lets it take.
fn is_entered(options: MatchOptions, name: &str, is_dir: bool) -> bool
    ensures { result ≡ is_entered_entry options name.now is_dir }
{
    is_dir && is_open(options, name)
}
