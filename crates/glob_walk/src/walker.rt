//! The turns of a walk.
//!
//! A walk has a [`Stack`]: at most one [`Task`], and below it the directories that it is in, one [`Frame`] each. A turn
//! does the task: it asks for a look at one path or for the listing of one directory, or gives one path. Without a
//! task, a turn takes one step in the directory on top, which may make the next task. The [`Meter`] is charged before a
//! turn asks anything. A task that asks is replaced by a [`Query`], which is open until it is answered; turns are taken
//! only while none is open.
//!
//! Nothing here reads a file: the caller answers. And nothing is recursive: a walk is a loop of turns. It reaches a
//! question or an item, because a turn with neither lowers the weight of the stack.
//!
//! ```text
//! proceed               takes an answer, goes on to the next question or item, and clears a walk that is over
//!   take_turns
//!     take_answer       take_look: the task that follows
//!                       take_listing, enter_listed: a frame more
//!     turns             until there is a question or an item
//!       turn            a task: look, or enter, which may list or give a path
//!                       none: Stack::step, to the next task
//! ```
//!
//! The written listing says what a walk does, mark by mark. All methods of [`Walker`] have one contract, `TurnsTo`:
//! what was left of the listing before a turn begins with what the turn charged and gave, and continues with what is
//! left after it. After a turn without a [`Step`] the walk just goes on.
ghost use Rattle.std.specs.Prelude.{◌≡◌, ◌≢◌, ◌+◌, ◌<◌, ◌≤◌, ◌∷◌, ℕ, IsTrue, true, false, [], None, string_bytes, vec_len, drop, not, ◌||◌, IfOk, IfErr, IfSome, Some, if◌then◌else◌};
ghost use Rattle.glob_tree.specs.Content.{Content, is_content};
ghost use Rattle.glob_walk.specs.Machines.{Ends, Says, is_last, list_error_outcome, saying};
ghost use Rattle.glob_walk.specs.Walks.{NoMemory};
ghost use Rattle.glob_walk.specs.Components.{is_literal};
ghost use Rattle.glob_tree.specs.Answers.{entry_count};
ghost use Rattle.glob_walk.specs.Questions.{IsSomeContent, IsSeenIn, IsListedIn, ListAt, LookAt, question_path};
ghost use Rattle.glob_walk.specs.Private.Depths.{IsDeepPath, IsNextDeep, IsPlainFrom};
ghost use Rattle.glob_walk.specs.Private.Tasks.{task_marks, enter_from, IsListedFor, IsOpened, next_ready, IsNextSound};
ghost use Rattle.glob_walk.specs.Private.Queries.{question_of, IsQueryOpened};
ghost use Rattle.glob_walk.specs.Private.Stacks.{next_weight, weight};
ghost use Rattle.glob_walk.specs.Answers.{IfFailed, IsAnswer, IsAnswered, answer_count};
ghost use Rattle.glob_walk.specs.Private.Turns.{TurnsTo, asking, said, with_query, with_task, AreListedAt, IsIdle};

use crate::component::{Component, is_current_or_parent};
use crate::frame::{Cursor, Frame};
use crate::machine::{Answer, Step};
use crate::meter::{Meter, sort_entries};
use crate::plan::Plan;
use crate::query::{Query, QueryKind};
use crate::stack::Stack;
use crate::task::{Accepted, Task, TaskState, task_after_look};
use glob_tree::{Entry, ListError, Look, child};
use std::alloc::{AllocError, Allocator};

/// A limit, and what a walk still has to do.
#[derive(Drop)]
pub struct Walker<A: Allocator> {
    pub meter: Meter,
    /// The open question. The stack waits until it is answered.
    pub query: Option<Query<A>>,
    pub stack: Stack<A>,
}

impl<A: Allocator + Copy> Walker<A> {
    /// Asks for a look at a path, for one unit.
    fn look(&mut self, path: String<A>, component: usize, accepted: Accepted) -> Step<A>
        requires idle { IsIdle self.old }
        ensures { TurnsTo IsSomeContent 0
            (with_task path component (TaskState.Unseen accepted) self.old) (said (Some result)) self.new }
    {
        if !self.meter.charge() {
            return Step::limit(path);
        }
        self.ask(Query {
            path,
            component,
            kind: QueryKind::Look(accepted),
        })
    }

    /// Asks for the listing of a directory, for one unit. The component is `**` or has wildcards. If the kinds of the
    /// entries do not matter, only the names are asked for.
    fn list(&mut self, path: String<A>, component: usize, recursive: bool) -> Step<A>
        requires idle { IsIdle self.old }
        requires component { component < vec_len self.old.stack.plan.components }
        requires opens { IsOpened recursive (drop component self.old.stack.plan.components.items) }
        ensures { TurnsTo IsSomeContent 0
            (with_task path component (TaskState.Seen true) self.old) (said (Some result)) self.new }
    {
        if !self.meter.charge() {
            return Step::limit(path);
        }
        let kinds = self.stack.plan.needs_kinds(component, recursive);
        self.ask(Query {
            path,
            component,
            kind: QueryKind::List { recursive, kinds },
        })
    }

    /// Charges the entries of a listed directory, and puts it on the stack with its first cursor. If only the names
    /// were asked for, the kinds are not used.
    fn enter_listed(
        &mut self,
        path: String<A>,
        component: usize,
        recursive: bool,
        kinds: bool,
        mut entries: Vec<Entry<A>, A>,
    ) -> Option<Step<A>>
        requires idle { IsIdle self.old }
        requires listed { IsListedFor self.old.stack.plan component recursive kinds }
        ensures { TurnsTo (AreListedAt kinds (string_bytes path) entries.items) (vec_len entries)
            (with_query path component (QueryKind.List recursive kinds) self.old) (said result) self.new }
    {
        if !self.meter.charge_entries(entries.len()) {
            return Some(Step::limit(path));
        }
        sort_entries(&mut entries);
        // Start before `..` if the component begins with a dot; `**` never does.
        let cursor = if self.stack.plan.is_dotted(component) {
            Cursor::Parent
        } else {
            Cursor::At(0)
        };
        match self.stack.open(Frame {
            path,
            component,
            recursive,
            entries,
            cursor,
        }) {
            Ok(()) => None,
            Err(_) => Some(Step::memory(self.stack.plan.alloc)),
        }
    }

    /// Goes on at an existing path with the components from this number on. If none is left, the path is given: always
    /// for a directory, and for anything else unless the pattern ends in a separator. This takes no memory. A literal
    /// component is joined to the path, and the next task is to look up the result. For `**` and for a component with
    /// wildcards, a directory is listed; for anything else nothing follows.
    fn enter(&mut self, path: String<A>, number: usize, is_dir: bool) -> Option<Step<A>>
        requires idle { IsIdle self.old }
        ensures falls { result ≡ None → weight self.new.stack < weight self.old.stack + 2 }
        ensures past { vec_len self.old.stack.plan.components ≤ number
            → said result ≢ Some (Says NoMemory) }
        ensures turn { TurnsTo IsSomeContent 0
            (with_task path number (TaskState.Seen is_dir) self.old) (said result) self.new }
    {
        let plan = &self.stack.plan;
        let Some(component) = plan.component(number) else {
            if is_dir || !plan.directories {
                return Some(Step::found(path));
            }
            return None;
        };
        if component.is_literal() {
            let path = path.as_str();
            let Ok(task) = literal_task(plan, component, path, number, is_dir) else {
                return Some(Step::memory(self.stack.plan.alloc));
            };
            self.stack.next = Some(task);
            return None;
        }
        if !is_dir {
            return None;
        }
        let recursive = component.is_recursive();
        Some(self.list(path, number, recursive))
    }

    /// One turn: does the task, if there is one, and otherwise takes one step in the directory on top. If there is no
    /// directory either, the walk is done. There is no recursion.
    fn turn(&mut self) -> Option<Step<A>>
        requires free { self.old.query ≡ None }
        ensures falls { result ≡ None → weight self.new.stack < weight self.old.stack }
        ensures idle { self.old.stack.next ≡ None → self.old.stack.frames.items ≡ []
            → said result ≡ Some Ends }
        ensures turn { TurnsTo IsSomeContent 0
            self.old (said result) self.new }
    {
        let Some(task) = self.stack.next.take() else {
            return match self.stack.step() {
                Ok(true) => None,
                Ok(false) => Some(Step::Done),
                Err(_) => Some(Step::memory(self.stack.plan.alloc)),
            };
        };
        let Task {
            path,
            component,
            state,
        } = task;
        match state {
            TaskState::Unseen(accepted) => Some(self.look(path, component, accepted)),
            TaskState::Seen(is_dir) => self.enter(path, component, is_dir),
        }
    }

    /// Takes turns until there is a question or an item, or nothing is left.
    fn turns(&mut self) -> Step<A>
        requires free { self.old.query ≡ None }
        ensures { TurnsTo IsSomeContent 0 self.old (said (Some result)) self.new }
    {
        loop {
            if let Some(step) = self.turn() {
                return step;
            }
        }
    }

    /// Takes the answer to the open question, if there is one. An answer to another question leaves it open: it is
    /// asked again, for no further unit.
    fn take_answer(&mut self, answer: Answer<A>) -> Option<Step<A>>
        requires opened { IsQueryOpened self.old.stack self.old.query }
        ensures failed { IsAnswer (question_of self.old.query) answer
            → IfFailed answer (question_path (question_of self.old.query))
            (λ o. said result ≡ Some (Says o)) }
        ensures free { self.old.query ≡ None
            → TurnsTo IsSomeContent 0 self.old (said result) self.new }
        ensures waits { IfSome self.old.query (λ q. ¬ (IsAnswer (question_of (Some q)) answer)
            → (said result ≡ Some (asking q.kind)) × (self.new ≡ self.old)) }
        ensures turn { IsAnswer (question_of self.old.query) answer
            → TurnsTo (IsAnswered (question_of self.old.query) answer)
            (answer_count answer) self.old (said result) self.new }
    {
        let query = self.query.take()?;
        match (query.kind, answer) {
            (QueryKind::Look(accepted), Answer::Look(seen)) => {
                self.take_look(query.path, query.component, accepted, seen)
            }
            (QueryKind::List { recursive, kinds }, Answer::List(listed)) => {
                self.take_listing(query.path, query.component, recursive, kinds, listed)
            }
            _ => Some(self.ask(query)),
        }
    }

    /// Asks a question that was already charged.
    fn ask(&mut self, query: Query<A>) -> Step<A>
        ensures says { saying result ≡ asking query.kind }
        ensures asks { self.new ≡ record self.old { query = Some query } }
    {
        let step = Step::ask(query.kind);
        self.query = Some(query);
        step
    }

    /// Takes the answer to a look, and keeps the task that follows, if any.
    fn take_look(
        &mut self,
        path: String<A>,
        component: usize,
        accepted: Accepted,
        answer: Result<Look, AllocError>,
    ) -> Option<Step<A>>
        requires idle { IsIdle self.old }
        ensures failed { IfErr answer (λ _. said result ≡ Some (Says NoMemory)) }
        ensures seen { IfOk answer (λ _. result ≡ None) }
        ensures turn { TurnsTo (IsSeenIn (Some (LookAt (string_bytes path))) answer) 0
            (with_query path component (QueryKind.Look accepted) self.old) (said result) self.new }
    {
        let Ok(seen) = answer else {
            return Some(Step::memory(self.stack.plan.alloc));
        };
        self.stack.next = task_after_look(path, component, accepted, seen);
        None
    }

    /// Takes the answer to a listing.
    fn take_listing(
        &mut self,
        path: String<A>,
        component: usize,
        recursive: bool,
        kinds: bool,
        answer: Result<Vec<Entry<A>, A>, ListError>,
    ) -> Option<Step<A>>
        requires idle { IsIdle self.old }
        requires listed { IsListedFor self.old.stack.plan component recursive kinds }
        ensures failed { IfErr answer
            (λ e. said result ≡ Some (Says (list_error_outcome (string_bytes path) e))) }
        ensures turn { TurnsTo (IsListedIn (Some (ListAt kinds (string_bytes path))) answer)
            (entry_count answer)
            (with_query path component (QueryKind.List recursive kinds) self.old) (said result) self.new }
    {
        match answer {
            Ok(entries) => self.enter_listed(path, component, recursive, kinds, entries),
            Err(ListError::Read(e)) => Some(Step::unread(path, e)),
            Err(ListError::Memory) => Some(Step::memory(self.stack.plan.alloc)),
        }
    }

    /// Takes the answer to the open question, if there is one, and goes on to the next question or item.
    fn take_turns(&mut self, answer: Answer<A>) -> Step<A>
        requires opened { IsQueryOpened self.old.stack self.old.query }
        ensures failed { IsAnswer (question_of self.old.query) answer
            → IfFailed answer (question_path (question_of self.old.query))
            (λ o. saying result ≡ Says o) }
        ensures free { self.old.query ≡ None
            → TurnsTo IsSomeContent 0 self.old (said (Some result)) self.new }
        ensures waits { IfSome self.old.query (λ q. ¬ (IsAnswer (question_of (Some q)) answer)
            → (saying result ≡ asking q.kind) × (self.new ≡ self.old)) }
        ensures turn { IsAnswer (question_of self.old.query) answer
            → TurnsTo (IsAnswered (question_of self.old.query) answer)
            (answer_count answer) self.old (said (Some result)) self.new }
    {
        match self.take_answer(answer) {
            Some(step) => step,
            None => self.turns(),
        }
    }

    /// The step of [`take_turns`](Walker::take_turns). If no item can follow it, for example after a refusal, the stack
    /// is cleared, since callers may keep a finished walk for long.
    pub fn proceed(&mut self, answer: Answer<A>) -> Step<A>
        requires opened { IsQueryOpened self.old.stack self.old.query }
        ensures failed { IsAnswer (question_of self.old.query) answer
            → IfFailed answer (question_path (question_of self.old.query))
            (λ o. saying result ≡ Says o) }
        ensures free { self.old.query ≡ None
            → TurnsTo IsSomeContent 0 self.old (said (Some result)) self.new }
        ensures waits { IfSome self.old.query (λ q. ¬ (IsAnswer (question_of (Some q)) answer)
            → (saying result ≡ asking q.kind) × (self.new ≡ self.old)) }
        ensures turn { IsAnswer (question_of self.old.query) answer
            → TurnsTo (IsAnswered (question_of self.old.query) answer)
            (answer_count answer) self.old (said (Some result)) self.new }
        ensures cleared { is_last (saying result) ≡ true
            → (self.new.stack.next ≡ None) × (self.new.stack.frames.items ≡ []) }
    {
        let step = self.take_turns(answer);
        if step.is_last() {
            self.stack.clear();
        }
        step
    }
}

/// The task of a literal component at a path: to look up the path joined with the component. `.` and `..` exist only in
/// a directory; any other name exists if the look finds something.
#[tactic(auto, using(crate::proofs::WalkLemmas::Naming::literal_marks))]
fn literal_task<A: Allocator + Copy>(
    plan: &Plan<A>,
    component: &Component<A>,
    path: &str,
    number: usize,
    is_dir: bool,
) -> Result<Task<A>, AllocError>
    requires at { drop number plan.now.components.items
        ≡ component.now ∷ drop (number + 1) plan.now.components.items }
    requires within { number < vec_len plan.now.components }
    requires literal { is_literal component.now ≡ true }
    ensures marks { IfOk result
        (λ task. (c : Content)
        → enter_from c plan.now number path.now is_dir ≡ task_marks c plan.now task) }
    ensures weight { IfOk result (λ task. next_weight (Some task) ≡ 1) }
    ensures ready { IfOk result (λ task. next_ready plan.now (Some task) ≡ 0) }
    ensures sound { IfOk result (λ task. (c : Content) → IsNextSound c (Some task)) }
    ensures deep { IfOk result
        (λ task. (c : Content) → (n : ℕ) → IsTrue (is_content c) → IsPlainFrom plan.now number
        → IsDeepPath c n path.now → IsNextDeep c plan.now n (Some task)) }
{
    let name = component.as_str();
    let accepted = Accepted::of_literal(is_current_or_parent(name), is_dir);
    Ok(Task {
        path: child(plan.alloc, path, name)?,
        component: number + 1,
        state: TaskState::Unseen(accepted),
    })
}
