//! A walk driven through C: its last step, and what the caller has answered since. Its numbers are also in
//! `include/cadmiumdove.h`: change both.
ghost use Rattle.std.specs.Prelude.{◌≡◌, ◌++◌, [], ◌∷◌, Bool, true, false, List, None, Some, IsSome, IsTrue, IsUtf8};
ghost use Rattle.std.specs.IoError.{os_error_kind};
ghost use Rattle.glob_tree.specs.Content.{Content, DirEntry};
ghost use Rattle.glob_tree.specs.Paths.{is_proper};
ghost use Rattle.glob_walk.specs.Machines.{AsksList, AsksLook, Ends, GivesNext, HasGiven, IsAskedAfter, Says, saying};
ghost use Rattle.glob_text.specs.Text.{Text};
ghost use Rattle.glob_walk.specs.Questions.{question_path};
ghost use Rattle.glob_walk.specs.Walks.{Gives, outcome, Found, Item, Mark};
ghost use Rattle.glob_c.specs.Answers.{done, is_entry_answer, no_name, not_asked, not_utf8, out_of_memory};
ghost use Rattle.glob_c.specs.Sessions.{AreListed, Counts, IsUnanswered, IsUnread, Replies, RepliesTo, SaysUnread};
ghost use Rattle.glob_c.specs.Sessions.{answer_of, entries_so_far, error_path, kind_of};

use crate::pattern::{DONE, NOT_UTF8, OUT_OF_MEMORY};
use glob_tree::{Entry, ListError, Look, Name};
use glob_walk::{Answer, GlobCause, GlobResult, Step, WalkMachine};
use std::alloc::Global;
use std::marker::Model;
use std::{io, mem};

const NOT_ASKED: u32 = 9;

const NO_NAME: u32 = 10;

/// What the caller has answered since the last step.
#[derive(Drop)]
pub enum Reply {
    /// Nothing.
    Nothing,
    /// What the path refers to.
    Look(Look),
    /// The entries so far.
    Entries(Vec<Entry<Global>, Global>),
    /// All entries, or why the directory could not be listed.
    Listed(Result<Vec<Entry<Global>, Global>, ListError>),
}

/// A walk, its last step, and the answer to it.
#[derive(Drop)]
pub struct Session {
    machine: WalkMachine<Global>,
    step: Step<Global>,
    reply: Reply,
}

impl Model for Session {
    ghost use Rattle.glob_walk.specs.Machines.{IsAskedAfter, saying};
    ghost use Rattle.glob_c.specs.Sessions.{Sitting};

    ghost Value = { Sitting };

    ghost view = { λ s. record {
      machine = s.machine;
      said = saying s.step;
      reply = s.reply;
    } };

    ghost invariant = { λ s. IsAskedAfter (saying s.step) s.machine.asked };
}

impl Session {
    /// A session of a walk that has not started.
    pub(crate) fn new(machine: WalkMachine<Global>) -> Session
        requires { machine.asked ≡ None }
        ensures machine { result.machine ≡ machine }
        ensures said { result.said ≡ Ends }
        ensures unanswered { IsUnanswered result.said result.reply }
    {
        Session {
            machine,
            step: Step::Done,
            reply: Reply::Nothing,
        }
    }

    /// Takes the next step with what was answered, and returns its number. A question without a complete answer is
    /// repeated.
    pub(crate) fn advance(&mut self, alloc: Global) -> u32
        ensures kind { result ≡ kind_of self.new.said }
        ensures unanswered { IsUnanswered self.new.said self.new.reply }
        ensures counts { Counts self.old.said self.old.reply self.old.machine
            self.new.said self.new.machine }
        ensures unread { SaysUnread self.old.said self.old.reply self.old.machine self.new.said }
        ensures driven { (c : Content) → (all : List Mark) → (given : List Item)
            → Replies self.old c → HasGiven all c given self.old.machine
            → GivesNext all c given self.new.said self.new.machine }
    {
        let reply = mem::replace(&mut self.reply, Reply::Nothing);
        self.step = self.machine.resume(answer_of(reply));
        self.reply = first_reply(alloc, &self.step);
        kind_of(&self.step)
    }

    /// Answers what the path refers to. Returns 0, or 9 if the walk did not ask that.
    pub(crate) fn looked(&mut self, seen: Look) -> u32
        ensures answered { result ≡ done
            → self.new ≡ record self.old { reply = Reply.Look seen } }
        ensures asked { self.old.said ≡ AsksLook → result ≡ done }
        ensures unasked { ¬ (self.old.said ≡ AsksLook) → result ≡ not_asked }
        ensures kept { ¬ (result ≡ done) → self.new ≡ self.old }
    {
        match self.step {
            Step::Look => {
                self.reply = Reply::Look(seen);
                DONE
            }
            Step::List | Step::ListNames | Step::Item(_) | Step::Done => NOT_ASKED,
        }
    }

    /// Answers one more entry. Returns 0; 2 if an allocation fails; 3 if the bytes are not UTF-8; 9 if no entries are
    /// asked for; or 10 if the bytes are not a name. Unless 0 is returned, the entries are unchanged.
    pub(crate) fn entry(&mut self, alloc: Global, name: &[u8], is_dir: bool) -> u32
        ensures machine { self.new.machine ≡ self.old.machine }
        ensures said { self.new.said ≡ self.old.said }
        ensures added { result ≡ done → (es : List DirEntry)
            → entries_so_far self.old.reply ≡ Some es
            → entries_so_far self.new.reply ≡ Some (es ++ (name.now, is_dir) ∷ []) }
        ensures refused { ¬ (result ≡ done)
            → entries_so_far self.new.reply ≡ entries_so_far self.old.reply }
        ensures range { IsTrue (is_entry_answer result) }
        ensures asked { result ≡ not_asked → entries_so_far self.old.reply ≡ None }
        ensures unasked { entries_so_far self.old.reply ≡ None → result ≡ not_asked }
        ensures utf8 { result ≡ done → IsUtf8 name.now }
        ensures not_utf8 { result ≡ not_utf8 → ¬ (IsUtf8 name.now) }
        ensures proper { result ≡ done → is_proper name.now ≡ true }
        ensures no_name { result ≡ no_name → is_proper name.now ≡ false }
        ensures kept { ¬ (result ≡ done) → ¬ (result ≡ out_of_memory)
            → self.new ≡ self.old }
    {
        let Reply::Entries(entries) = &mut self.reply else {
            return NOT_ASKED;
        };
        let Ok(text) = str::from_utf8(name) else {
            return NOT_UTF8;
        };
        let Ok(text) = String::from_str(alloc, text) else {
            return OUT_OF_MEMORY;
        };
        let Ok(name) = Name::new(text) else {
            return NO_NAME;
        };
        match entries.push(Entry { name, is_dir }) {
            Ok(()) => DONE,
            Err(_) => OUT_OF_MEMORY,
        }
    }

    /// Ends the entries of a directory. Returns 0, or 9 if none are asked for.
    pub(crate) fn listed(&mut self) -> u32
        ensures machine { self.new.machine ≡ self.old.machine }
        ensures said { self.new.said ≡ self.old.said }
        ensures listed { (es : List DirEntry) → entries_so_far self.old.reply ≡ Some es
            → AreListed es self.new.reply }
        ensures done { (es : List DirEntry) → entries_so_far self.old.reply ≡ Some es
            → result ≡ done }
        ensures unasked { entries_so_far self.old.reply ≡ None → result ≡ not_asked }
        ensures kept { ¬ (result ≡ done) → self.new ≡ self.old }
    {
        match mem::replace(&mut self.reply, Reply::Nothing) {
            Reply::Entries(entries) => {
                self.reply = Reply::Listed(Ok(entries));
                DONE
            }
            other => {
                self.reply = other;
                NOT_ASKED
            }
        }
    }

    /// Answers that the directory could not be listed, with the system's error number. Returns 0, or 9 if no listing is
    /// asked for.
    pub(crate) fn unread(&mut self, code: i32) -> u32
        ensures machine { self.new.machine ≡ self.old.machine }
        ensures said { self.new.said ≡ self.old.said }
        ensures failed { result ≡ done → IsUnread (os_error_kind code) self.new.reply }
        ensures asked { (kinds : Bool) → self.old.said ≡ AsksList kinds → result ≡ done }
        ensures unasked { ((kinds : Bool) → ¬ (self.old.said ≡ AsksList kinds))
            → result ≡ not_asked }
        ensures kept { ¬ (result ≡ done) → self.new ≡ self.old }
    {
        match self.step {
            Step::List | Step::ListNames => {
                let error = io::Error::from_raw_os_error(code);
                self.reply = Reply::Listed(Err(ListError::Read(error)));
                DONE
            }
            Step::Look | Step::Item(_) | Step::Done => NOT_ASKED,
        }
    }

    /// The path of the last step.
    pub(crate) fn path(&self) -> &str
        ensures asked { IsSome self.now.machine.asked
            → result.now ≡ question_path self.now.machine.asked }
        ensures found { (path : Text) → self.now.said ≡ Says (Gives (Found path))
            → result.now ≡ path }
        ensures error { (path : Text) → error_path self.now.said ≡ Some path
            → result.now ≡ path }
        ensures ended { self.now.said ≡ Ends → result.now ≡ [] }
    {
        match &self.step {
            Step::Look | Step::List | Step::ListNames | Step::Done => self.machine.path(),
            Step::Item(Ok(path)) => path.as_str(),
            Step::Item(Err(error)) => error.path().as_str(),
        }
    }
}

/// The reply before any answer: no entries yet if entries are asked for, otherwise nothing.
fn first_reply(alloc: Global, step: &Step<Global>) -> Reply
    ensures { IsUnanswered (saying step.now) result }
{
    match step {
        Step::List | Step::ListNames => Reply::Entries(Vec::new(alloc)),
        Step::Look | Step::Item(_) | Step::Done => Reply::Nothing,
    }
}

/// The answer that a reply gives to the machine: none yet while entries are being added.
fn answer_of(reply: Reply) -> Answer<Global>
    ensures { result ≡ answer_of reply }
{
    match reply {
        Reply::Look(seen) => Answer::Look(Ok(seen)),
        Reply::Listed(listed) => Answer::List(listed),
        Reply::Nothing | Reply::Entries(_) => Answer::Nothing,
    }
}

/// The number of a step.
fn kind_of(step: &Step<Global>) -> u32
    ensures { result ≡ kind_of (saying step.now) }
{
    match step {
        Step::Look => 0,
        Step::List => 1,
        Step::ListNames => 2,
        Step::Item(item) => kind_of_item(item),
        Step::Done => 8,
    }
}

/// The number of a step that is an item.
fn kind_of_item(item: &GlobResult<Global>) -> u32
    ensures { result ≡ kind_of (Says (outcome item.now)) }
{
    match item {
        Ok(_) => 3,
        Err(error) => match error.cause() {
            GlobCause::Read => 4,
            GlobCause::Limit => 5,
            GlobCause::Memory => 6,
        },
    }
}
