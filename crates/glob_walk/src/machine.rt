//! A walk that asks its caller, and reads nothing by itself.
ghost use Rattle.std.specs.Prelude.{◌≡◌, ◌<◌, ◌≤◌, ◌+◌, ℕ, List, None, false, IsTrue, IfOk, IfErr, IsSome, string_bytes, if◌then◌else◌};
ghost use Rattle.std.specs.Path.{root_dir, cur_dir};
ghost use Rattle.glob_tree.specs.Answers.{IsTold};
ghost use Rattle.glob_tree.specs.Content.{Content, is_content};
ghost use Rattle.glob_walk.specs.Goal.{are_plain, is_plain};
ghost use Rattle.glob_walk.specs.Walks.{levels, listing, RefusesWith};
ghost use Rattle.glob_walk.specs.Machines.{Agrees, IsAskedAfter, IsFresh, Says, StepGoes, saying, listing_of};
ghost use Rattle.glob_walk.specs.Components.{walk_fault};
ghost use Rattle.glob_walk.specs.Private.Stacks.{aim_of};
ghost use Rattle.glob_walk.specs.Answers.{IfFailed, IsAnswer, IsAnswered, answer_count};
ghost use Rattle.glob_walk.specs.Questions.{IsSomeContent, question_path, question_units};

use crate::error::GlobResult;
use crate::meter::Meter;
use crate::plan::Plan;
use crate::query::QueryKind;
use crate::stack::Stack;
use crate::task::{Accepted, Task, TaskState};
use crate::walker::Walker;
use glob_pattern::{MatchOptions, PatternRefusal};
use glob_tree::{Entry, ListError, Look, Tree};
use std::alloc::{AllocError, Allocator, Global};
use std::marker::Model;

/// What a walk does next.
#[derive(Drop)]
pub enum Step<A: Allocator = Global> {
    /// It asks what [`path`](WalkMachine::path) leads to. [`Answer::Look`] answers.
    Look,
    /// It asks for the entries of the directory at [`path`](WalkMachine::path). [`Answer::List`] answers.
    List,
    /// It asks for the same, but needs only the names: `is_dir` may be `false` for any entry. [`Answer::List`] answers.
    ListNames,
    /// It gives an item: a path, or an error. After an error with the cause `Limit` or `Memory`, only `Done` follows.
    Item(GlobResult<A>),
    /// Nothing is left: each further call returns it again.
    Done,
}

/// An answer to the open question. For a look at the directory `a` it is `Answer::Look(Ok(Look::Dir))`.
#[derive(Drop)]
pub enum Answer<A: Allocator = Global> {
    /// There is no answer, since no question is open.
    Nothing,
    /// What a look found. `Err` means that an allocation failed.
    Look(Result<Look, AllocError>),
    /// The entries of a directory, or only their names, in any order; or why it could not be listed.
    List(Result<Vec<Entry<A>, A>, ListError>),
}

/// A walk without a tree: it asks one question after another, and its caller answers them from a file system, an
/// archive or a network, at once or later, by [`resume`](WalkMachine::resume). If a [`Tree`](glob_tree::Tree) answers,
/// as in `Paths` of the crate `glob`, [`advance`](WalkMachine::advance) is the only call that is needed.
///
/// ```text
/// let mut machine = WalkMachine::new(alloc, "*", MatchOptions::new(), 100)?;
/// machine.resume(Answer::Nothing)               // Step::Look; machine.path() is "."
/// machine.resume(Answer::Look(Ok(Look::Dir)))   // Step::ListNames; machine.path() is "."
/// machine.resume(Answer::List(Ok(entries)))     // of files `y` and `x`: Step::Item(Ok("x"))
/// machine.resume(Answer::Nothing)               // Step::Item(Ok("y"))
/// machine.resume(Answer::Nothing)               // Step::Done; machine.spent() is 4
/// ```
///
/// As long as all answers come from one content, its questions and items are those of the written listing, in order:
/// the items so far are a prefix of the listing's, and at `Done` they are all of them. Whatever the answers are, it
/// charges one unit for each question, before it asks it, and one for each entry in an answer. It gives at most one
/// more item than it charged units. It never charges more than its limit, so it comes to an end.
#[derive(Drop)]
pub struct WalkMachine<A: Allocator = Global> {
    walker: Walker<A>,
    /// The number of items that were given: up to one more than the limit, so it can be 2^64.
    given: u128,
    over: bool,
}

impl<A: Allocator> Model for WalkMachine<A> {
    ghost use Rattle.std.specs.Prelude.{vec_len};
    ghost use Rattle.glob_walk.specs.Machines.{MachineState, listing_of};
    ghost use Rattle.glob_walk.specs.Private.Walkers.{IsGood, Walk};
    ghost use Rattle.glob_walk.specs.Private.Stacks.{aim_of};
    ghost use Rattle.glob_walk.specs.Private.Queries.{question_of};

    ghost Value = { MachineState (Walk A) };

    ghost view = { λ w. record {
      limit = w.walker.meter.limit;
      spent = w.walker.meter.spent;
      given = w.given;
      kept = vec_len w.walker.stack.frames;
      over = w.over;
      asked = question_of w.walker.query;
      aim = aim_of w.walker.stack.plan;
      state = w.walker;
    } };

    ghost invariant = { λ w. IsGood w.walker w.given w.over };
}

impl<A: Allocator + Copy> WalkMachine<A> {
    /// A walk of a pattern with at most `limit` units of work: one for each lookup, one for each listing, and one for
    /// each entry of a listing. It has asked nothing yet.
    ///
    /// A pattern with a fault is refused with `Syntax`: the fault of the whole text or, if that has none, of the first
    /// component that has one. Any pattern may be refused with `Memory`.
    pub fn new(
        alloc: A,
        pattern: &str,
        options: MatchOptions,
        limit: u64,
    ) -> Result<Self, PatternRefusal>
        ensures accepted { IfOk result (λ _. walk_fault pattern.now ≡ None) }
        ensures refused { IfErr result (RefusesWith (walk_fault pattern.now)) }
        ensures fresh { IfOk result (IsFresh limit) }
        ensures aim { IfOk result
            (λ walk. (c : Content) → listing_of c walk.aim ≡ listing c options pattern.now) }
        ensures plain { IfOk result
            (λ walk. are_plain false walk.aim.components ≡ is_plain pattern.now) }
    {
        let plan = Plan::read(alloc, pattern, options)?;
        let start = String::from_str(alloc, plan.start())?;
        Ok(WalkMachine::from_plan(plan, start, limit))
    }

    /// A walk of a plan. It first looks up the start.
    fn from_plan(plan: Plan<A>, start: String<A>, limit: u64) -> Self
        requires start { string_bytes start ≡ (if plan.rooted then root_dir else cur_dir) }
        ensures fresh { IsFresh limit result }
        ensures aim { result.aim ≡ aim_of plan }
    {
        let frames = Vec::new(plan.alloc);
        let next = Some(Task {
            path: start,
            component: 0,
            state: TaskState::Unseen(Accepted::Any),
        });
        let stack = Stack { plan, next, frames };
        let meter = Meter { limit, spent: 0 };
        WalkMachine {
            walker: Walker {
                meter,
                query: None,
                stack,
            },
            given: 0,
            over: false,
        }
    }

    /// The next step, with the open question, if there is one, answered by a tree. These calls are enough for a whole
    /// walk: for `*` over a file `x` they return `Look`, `ListNames`, the item `x`, and `Done`.
    ///
    /// The tree is asked at most one question. If its allocation fails, the step is an error with the cause `Memory`.
    pub fn advance<T: Tree<Alloc = A>>(&mut self, tree: &mut T) -> Step<A>
        ensures content { T.tells tree.new ≡ T.tells tree.old }
        ensures untouched { self.old.asked ≡ None → tree.new ≡ tree.old }
        ensures steps { (n : ℕ)
            × (T.asks tree.new ≡ T.asks tree.old + question_units self.old.asked + n)
            × StepGoes (IsTold (T.tells tree.old)) n self.old (saying result) self.new }
    {
        let answer = self.ask(tree);
        self.resume(answer)
    }

    /// A tree's answer to the open question; `Nothing` if none is open. [`resume`](WalkMachine::resume) takes the
    /// answer; [`advance`](WalkMachine::advance) does both.
    pub fn ask<T: Tree<Alloc = A>>(&self, tree: &mut T) -> Answer<A>
        ensures content { T.tells tree.new ≡ T.tells tree.old }
        ensures untouched { self.now.asked ≡ None → tree.new ≡ tree.old }
        ensures asks { T.asks tree.new
            ≡ T.asks tree.old + question_units self.now.asked + answer_count result }
        ensures answer { IsAnswer self.now.asked result }
        ensures answered { (c : Content) → IsTold (T.tells tree.old) c
            → IsAnswered self.now.asked result c }
    {
        let Some(query) = &self.walker.query else {
            return Answer::Nothing;
        };
        let path = query.path.as_str();
        match query.kind {
            QueryKind::Look(_) => Answer::Look(tree.look(path)),
            QueryKind::List { kinds: true, .. } => Answer::List(tree.list(path)),
            QueryKind::List { kinds: false, .. } => Answer::List(tree.list_names(path)),
        }
    }

    /// Takes the answer to the open question, and returns the next step. If no question is open, as at first and after
    /// an item, the answer does not matter: give `Answer::Nothing`. An answer to another question leaves the walk as it
    /// is: the question is asked again, at no cost.
    ///
    /// The first step of each walk is `Step::Look`, at the path `.` or `/`; at a limit of 0 it is an error with the
    /// cause `Limit`. If `*` has looked at `.`, `Answer::Look(Ok(Look::Dir))` leads to `Step::ListNames`, and
    /// `Answer::Look(Ok(Look::Missing))` to `Step::Done`. Each entry of a listing costs one unit of work. After
    /// `Err(ListError::Read(e))` the step is an error with the path, the kind of `e` and the cause `Read`, and the walk
    /// goes on. If memory ran out, it is an error with the cause `Memory`, and the walk is over.
    pub fn resume(&mut self, answer: Answer<A>) -> Step<A>
        ensures failed { IsAnswer self.old.asked answer
            → IfFailed answer (question_path self.old.asked) (λ o. saying result ≡ Says o) }
        ensures steps { IsAnswer self.old.asked answer
            → StepGoes (IsAnswered self.old.asked answer) (answer_count answer)
            self.old (saying result) self.new }
        ensures free { self.old.asked ≡ None
            → StepGoes IsSomeContent 0 self.old (saying result) self.new }
        ensures waits { IsSome self.old.asked → ¬ (IsAnswer self.old.asked answer)
            → IsAskedAfter (saying result) self.old.asked × (self.new ≡ self.old) }
    {
        if self.over {
            return Step::Done;
        }
        let step = self.walker.proceed(answer);
        self.given += step.item_count();
        self.over = step.is_last();
        step
    }
}

impl<A: Allocator> WalkMachine<A> {
    /// The path of the open question, such as `a` for the entries of the directory `a`; empty if no question is open.
    pub fn path(&self) -> &str
        ensures { result.now ≡ question_path self.now.asked }
    {
        match &self.walker.query {
            Some(query) => query.path.as_str(),
            None => "",
        }
    }

    /// How many units of work were charged, including the unit of an open question: never more than the limit. It is 1
    /// at the first question, and 4 after `*` has looked at a directory and listed it with two entries.
    pub fn spent(&self) -> u64
        ensures spent { result ≡ self.now.spent }
        ensures within { result ≤ self.now.limit }
    {
        self.walker.meter.spent
    }

    /// How many items were given, including a refusal: at most one more than `spent`. It is 2 after `*` has given two
    /// files, and 1 after a limit of 0 refused the first unit.
    pub fn given(&self) -> u128
        ensures given { result ≡ self.now.given }
        ensures few { result ≤ self.now.spent + 1 }
    {
        self.given
    }

    /// How many directories it keeps with their entries: directories that it listed and has not finished. The last step
    /// in a directory drops it. With a plain pattern each kept directory is below the one before it, so over a content
    /// there are at most as many as the longest key has names. It is 1 after `*` has given the first of two files, and
    /// 0 after the second.
    pub fn kept(&self) -> usize
        ensures kept { result ≡ self.now.kept }
        ensures few { (c : Content) → IsTrue (is_content c) → Agrees c self.now
            → IsTrue (are_plain false self.now.aim.components) → result < levels c }
    {
        self.walker.stack.frames.len()
    }
}
