//! What a walk does next: a path, and the index of the component from which it goes on there.

ghost use Rattle.std.specs.Prelude.{◌≡◌, ◌≤◌, ◌∷◌, ℕ, None, string_bytes, if◌then◌else◌};
ghost use Rattle.glob_tree.specs.Content.{Content, look_result};
ghost use Rattle.glob_tree.specs.Looks.{is_there};
ghost use Rattle.glob_tree.specs.declared.tree.Look.{Look as LookOf};
ghost use Rattle.glob_walk.specs.Walks.{Work};
ghost use Rattle.glob_walk.specs.declared.plan.Plan.{Plan as PlanOf};
ghost use Rattle.glob_walk.specs.Private.Depths.{IsNextDeep, IsTaskDeep};
ghost use Rattle.glob_walk.specs.Private.Stacks.{next_weight};
ghost use Rattle.glob_walk.specs.Private.Tasks.{is_accepted as is_accepted_look, next_marks, next_ready, state_marks, IsNextSound};

use glob_tree::Look;
use std::alloc::Allocator;

/// Which answers to a look let the walk go on at the path.
#[derive(Clone, Copy)]
pub enum Accepted {
    /// All of them.
    Any,
    /// `Dir` and `Other`: something is there.
    Present,
    /// None of them. The path is still looked up, so that `.` and `..` cost the same in the written listing after a
    /// directory and after a file.
    Nothing,
}

/// What is known about a task's path. It decides what the task is: to ask for a look, or to go on at the path.
#[derive(Clone, Copy)]
pub enum TaskState {
    /// Nothing: look it up.
    Unseen(Accepted),
    /// It is there, and this is whether it is a directory: enter it, or give it.
    Seen(bool),
}

/// One thing to do: a path, and the number of the component with which the walk goes on there. After the last component
/// the path is given.
#[derive(Drop)]
pub struct Task<A: Allocator> {
    /// The path, as the walk gives it.
    pub path: String<A>,
    /// The index of the component.
    pub component: usize,
    /// What is known about the path.
    pub state: TaskState,
}

impl Accepted {
    /// Which looks are accepted for a literal component below a path: `.` and `..` are there exactly when the path is a
    /// directory, whatever the look returns.
    pub fn of_literal(is_current_or_parent: bool, is_dir: bool) -> Accepted
        ensures { (seen : LookOf) → is_accepted_look result seen
            ≡ (if is_current_or_parent then is_dir else is_there seen) }
    {
        if !is_current_or_parent {
            Accepted::Present
        } else if is_dir {
            Accepted::Any
        } else {
            Accepted::Nothing
        }
    }

    /// Whether the walk goes on after this look.
    pub fn accepts(self, seen: Look) -> bool
        ensures { result ≡ is_accepted_look self seen }
    {
        match self {
            Accepted::Any => true,
            Accepted::Present => match seen {
                Look::Missing => false,
                Look::Dir | Look::Other => true,
            },
            Accepted::Nothing => false,
        }
    }
}

/// The task after a look: to go on at the path with the same component, or none if the look is not accepted.
#[tactic(auto, using(crate::proofs::WalkLemmas::Naming::looked_marks))]
pub fn task_after_look<A: Allocator>(
    path: String<A>,
    component: usize,
    accepted: Accepted,
    seen: Look,
) -> Option<Task<A>>
    ensures marks { (c : Content) → (plan : PlanOf A) → seen ≡ look_result c (string_bytes path)
        → state_marks c plan component (string_bytes path) (TaskState.Unseen accepted)
        ≡ Work (string_bytes path) ∷ next_marks c plan result }
    ensures sound { (c : Content) → seen ≡ look_result c (string_bytes path)
        → IsNextSound c result }
    ensures deep { (c : Content) → (plan : PlanOf A) → (n : ℕ)
        → seen ≡ look_result c (string_bytes path)
        → IsTaskDeep c plan n component (string_bytes path) (TaskState.Unseen accepted)
        → IsNextDeep c plan n result }
    ensures weight { next_weight result ≤ 2 }
    ensures ready { (plan : PlanOf A) → next_ready plan result ≤ 1 }
{
    if !accepted.accepts(seen) {
        return None;
    }
    let state = TaskState::Seen(seen.is_dir());
    Some(Task {
        path,
        component,
        state,
    })
}
