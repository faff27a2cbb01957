//! Walks for C: the caller answers the questions of a walk. The calls and their numbers are also in
//! `include/cadmiumdove.h`: change both.
ghost use Rattle.std.specs.Prelude.{◌≡◌, ◌≤◌, ◌<◌, ◌++◌, ◌∷◌, Bool, true, false, IsSome, IsTrue, IsUtf8, [], List, length, take, drop};
ghost use Rattle.std.specs.IoError.{os_error_kind};
ghost use Rattle.std.specs.declared.option.Option.TheVariants.{None, Some};
ghost use Rattle.glob_pattern.specs.Grammar.Faults.{Fault as TextFault, kind_of, number_of};
ghost use Rattle.glob_pattern.specs.Matching.Options.{options_of_bits};
ghost use Rattle.glob_tree.specs.Content.{Content, DirEntry};
ghost use Rattle.glob_tree.specs.Paths.{is_proper};
ghost use Rattle.glob_text.specs.Text.{Text};
ghost use Rattle.glob_walk.specs.Machines.{AsksList, AsksLook, Ends, HasGiven, Says};
ghost use Rattle.glob_walk.specs.Questions.{question_path};
ghost use Rattle.glob_walk.specs.Walks.{Gives, listing, Found, Item, Mark};
ghost use Rattle.glob_walk.specs.Components.{walk_fault};
ghost use Rattle.glob_c.specs.Answers.{done, empty, in_use, is_entry_answer, no_name, not_asked, not_utf8};
ghost use Rattle.glob_c.specs.Answers.{out_of_memory, syntax_fault, too_short, unknown_flag};
ghost use Rattle.glob_c.specs.Sessions.{Replies, Sitting, entries_so_far, error_path, look_of, looked_at};
ghost use Rattle.glob_c.specs.WalkSlots.{HasEntries, HasLimit, HasListed, HasNoAnswer, HasStep, HasUnread, IsAdvanced};
ghost use Rattle.glob_c.specs.WalkSlots.{IsBegun, IsCounted, IsToldUnread};

use crate::escape::TOO_SHORT;
use crate::fault::Fault;
use crate::pattern::{DONE, IN_USE, NOT_UTF8, OUT_OF_MEMORY, SYNTAX_FAULT, UNKNOWN_FLAG};
use crate::session::Session;
use crate::walk_handle::WalkHandle;
use glob_pattern::{MatchOptions, PatternRefusal};
use glob_tree::Look;
use glob_walk::WalkMachine;
use std::alloc::Global;

const EMPTY: u32 = 7;

/// Begins a walk for a pattern, with at most `limit` units of work, and puts it into the handle.
///
/// Returns 0; 1 if the pattern is not valid, with its first fault in `fault`; 2 if an allocation fails; 3 if the bytes
/// are not UTF-8; 5 for an unknown flag; or 6 if the handle already has a walk. Unless 0 is returned, the handle is
/// unchanged.
#[unsafe(no_mangle)]
pub extern "C" fn cadmiumdove_walk_new(
    alloc: Global,
    handle: &mut WalkHandle,
    pattern: &[u8],
    flags: u32,
    limit: u64,
    fault: &mut Fault,
) -> u32
    ensures range { result ≤ in_use }
    ensures not_short { ¬ (result ≡ too_short) }
    ensures was_empty { result ≡ done → handle.old.slot.walk ≡ None }
    ensures utf8 { result ≤ syntax_fault → IsUtf8 pattern.now }
    ensures known { result < too_short → flags ≤ 7 }
    ensures unknown { result ≡ unknown_flag → 7 < flags }
    ensures in_use { result ≡ in_use → IsSome handle.old.slot.walk }
    ensures full { IsSome handle.old.slot.walk → result ≡ in_use }
    ensures accepted { result ≡ done → walk_fault pattern.now ≡ None }
    ensures limit { result ≡ done → HasLimit limit handle.new.slot.walk }
    ensures begun { result ≡ done → (c : Content)
        → IsBegun (listing c (options_of_bits flags) pattern.now) c handle.new.slot.walk }
    ensures unanswered { result ≡ done → HasNoAnswer handle.new.slot.walk }
    ensures syntax { result ≡ syntax_fault → (f : TextFault) → walk_fault pattern.now ≡ Some f
        → (fault.new.place ≡ f.place) × (fault.new.message ≡ number_of (kind_of f.message)) }
    ensures faulty { result ≡ syntax_fault → IsSome (walk_fault pattern.now) }
    ensures not_utf8 { result ≡ not_utf8 → ¬ (IsUtf8 pattern.now) }
    ensures refused { ¬ (result ≡ done) → handle.new.slot.walk ≡ handle.old.slot.walk }
    ensures untold { ¬ (result ≡ syntax_fault) → fault.new ≡ fault.old }
{
    if handle.is_full() {
        return IN_USE;
    }
    if flags > 7 {
        return UNKNOWN_FLAG;
    }
    let Ok(text) = str::from_utf8(pattern) else {
        return NOT_UTF8;
    };
    match WalkMachine::new(alloc, text, MatchOptions::from_bits(flags), limit) {
        Ok(machine) => match Box::new(alloc, Session::new(machine)) {
            Ok(session) => {
                handle.fill(session);
                DONE
            }
            Err(_) => OUT_OF_MEMORY,
        },
        Err(PatternRefusal::Syntax(error)) => {
            *fault = Fault {
                place: error.pos,
                message: error.kind().number(),
            };
            SYNTAX_FAULT
        }
        Err(PatternRefusal::Memory) => OUT_OF_MEMORY,
    }
}

/// Takes the next step with what was answered since the last one, and returns its number: 0 asks what the path refers
/// to, 1 asks for a listing, and 2 for a listing of names only; 3 is a path, 4 a directory that could not be listed, 5
/// the limit, 6 a failed allocation, and 8 the end. It returns 7 if the handle is empty. A question without a complete
/// answer is repeated.
#[unsafe(no_mangle)]
pub extern "C" fn cadmiumdove_walk_next(alloc: Global, handle: &mut WalkHandle) -> u32
    ensures empty { handle.old.slot.walk ≡ None → result ≡ empty }
    ensures kept { handle.old.slot.walk ≡ None → handle.new.slot.walk ≡ None }
    ensures step { IsSome handle.old.slot.walk → HasStep result handle.new.slot.walk }
    ensures unanswered { IsSome handle.old.slot.walk → HasNoAnswer handle.new.slot.walk }
    ensures unread { (s : Sitting) → handle.old.slot.walk ≡ Some s
        → IsToldUnread s handle.new.slot.walk }
    ensures driven { (s : Sitting) → handle.old.slot.walk ≡ Some s
        → (c : Content) → (all : List Mark) → (given : List Item) → Replies s c
        → HasGiven all c given s.machine
        → IsAdvanced all c given result handle.new.slot.walk }
    ensures counts { (s : Sitting) → handle.old.slot.walk ≡ Some s
        → IsCounted s handle.new.slot.walk }
{
    let Some(mut session) = handle.take(alloc) else {
        return EMPTY;
    };
    let step = session.advance(alloc);
    handle.fill(session);
    step
}

/// Writes the path of the last step to the start of `out`, and its length in bytes to `needed`.
///
/// Returns 0; 4 if `out` is too short, and then `needed` is the length that it must have; or 7 if the handle is empty.
#[unsafe(no_mangle)]
pub extern "C" fn cadmiumdove_walk_path(
    alloc: Global,
    handle: &mut WalkHandle,
    out: &mut [u8],
    needed: &mut usize,
) -> u32
    ensures kept { handle.new.slot.walk ≡ handle.old.slot.walk }
    ensures empty { handle.old.slot.walk ≡ None → result ≡ empty }
    ensures range { IsSome handle.old.slot.walk → ¬ (result ≡ done) → result ≡ too_short }
    ensures short { result ≡ too_short → length out.old < needed.new }
    ensures fits { result ≡ done → needed.new ≤ length out.old }
    ensures rest { result ≡ done → drop needed.new out.new ≡ drop needed.new out.old }
    ensures unwritten { ¬ (result ≡ done) → out.new ≡ out.old }
    ensures asked { (s : Sitting) → handle.old.slot.walk ≡ Some s → result ≡ done
        → IsSome s.machine.asked → take needed.new out.new ≡ question_path s.machine.asked }
    ensures found { (s : Sitting) → handle.old.slot.walk ≡ Some s → result ≡ done
        → (path : Text) → s.said ≡ Says (Gives (Found path))
        → take needed.new out.new ≡ path }
    ensures error { (s : Sitting) → handle.old.slot.walk ≡ Some s → result ≡ done
        → (path : Text) → error_path s.said ≡ Some path → take needed.new out.new ≡ path }
    ensures needed { (s : Sitting) → handle.old.slot.walk ≡ Some s → IsSome s.machine.asked
        → needed.new ≡ length (question_path s.machine.asked) }
    ensures needed_found { (s : Sitting) → handle.old.slot.walk ≡ Some s
        → (path : Text) → s.said ≡ Says (Gives (Found path)) → needed.new ≡ length path }
    ensures needed_error { (s : Sitting) → handle.old.slot.walk ≡ Some s
        → (path : Text) → error_path s.said ≡ Some path → needed.new ≡ length path }
    ensures ended { (s : Sitting) → handle.old.slot.walk ≡ Some s → s.said ≡ Ends
        → needed.new ≡ 0 }
{
    let Some(session) = handle.take(alloc) else {
        return EMPTY;
    };
    let answer = write(session.path().as_bytes(), out, needed);
    handle.fill(session);
    answer
}

/// Writes the bytes to the start of `out`, and their number to `needed`.
fn write(bytes: &[u8], out: &mut [u8], needed: &mut usize) -> u32
    ensures range { ¬ (result ≡ done) → result ≡ too_short }
    ensures needed { needed.new ≡ length bytes.now }
    ensures short { result ≡ too_short → length out.old < needed.new }
    ensures fits { result ≡ done → needed.new ≤ length out.old }
    ensures written { result ≡ done → take needed.new out.new ≡ bytes.now }
    ensures rest { result ≡ done → drop needed.new out.new ≡ drop needed.new out.old }
    ensures unwritten { ¬ (result ≡ done) → out.new ≡ out.old }
{
    *needed = bytes.len();
    if out.len() < bytes.len() {
        return TOO_SHORT;
    }
    out[..bytes.len()].copy_from_slice(bytes);
    DONE
}

/// Answers what the path refers to: `kind` is 0 for a directory, 1 for something else, and any other number for
/// nothing.
///
/// Returns 0; 7 if the handle is empty; or 9 if the walk did not ask that.
#[unsafe(no_mangle)]
pub extern "C" fn cadmiumdove_walk_looked(alloc: Global, handle: &mut WalkHandle, kind: u32) -> u32
    ensures empty { handle.old.slot.walk ≡ None → result ≡ empty }
    ensures looked { (s : Sitting) → handle.old.slot.walk ≡ Some s → s.said ≡ AsksLook
        → handle.new.slot.walk ≡ Some (looked_at kind s) }
    ensures asked { (s : Sitting) → handle.old.slot.walk ≡ Some s → s.said ≡ AsksLook
        → result ≡ done }
    ensures unasked { (s : Sitting) → handle.old.slot.walk ≡ Some s → ¬ (s.said ≡ AsksLook)
        → result ≡ not_asked }
    ensures kept { ¬ (result ≡ done) → handle.new.slot.walk ≡ handle.old.slot.walk }
{
    let Some(mut session) = handle.take(alloc) else {
        return EMPTY;
    };
    let answer = session.looked(look_of(kind));
    handle.fill(session);
    answer
}

/// The look with this number.
fn look_of(kind: u32) -> Look
    ensures { result ≡ look_of kind }
{
    if kind == 0 {
        Look::Dir
    } else if kind == 1 {
        Look::Other
    } else {
        Look::Missing
    }
}

/// Answers one entry of the directory.
///
/// Returns 0; 2 if an allocation fails; 3 if the bytes are not UTF-8; 7 if the handle is empty; 9 if no entries are
/// asked for; or 10 if the bytes are not a name. Unless 0 is returned, the entries are unchanged.
#[unsafe(no_mangle)]
pub extern "C" fn cadmiumdove_walk_entry(
    alloc: Global,
    handle: &mut WalkHandle,
    name: &[u8],
    is_dir: bool,
) -> u32
    ensures empty { handle.old.slot.walk ≡ None → result ≡ empty }
    ensures added { (s : Sitting) → handle.old.slot.walk ≡ Some s → result ≡ done
        → (es : List DirEntry) → entries_so_far s.reply ≡ Some es
        → HasEntries s (es ++ (name.now, is_dir) ∷ []) handle.new.slot.walk }
    ensures refused { (s : Sitting) → handle.old.slot.walk ≡ Some s → ¬ (result ≡ done)
        → (es : List DirEntry) → entries_so_far s.reply ≡ Some es
        → HasEntries s es handle.new.slot.walk }
    ensures range { IsSome handle.old.slot.walk → IsTrue (is_entry_answer result) }
    ensures asked { (s : Sitting) → handle.old.slot.walk ≡ Some s → result ≡ not_asked
        → entries_so_far s.reply ≡ None }
    ensures unasked { (s : Sitting) → handle.old.slot.walk ≡ Some s
        → entries_so_far s.reply ≡ None → result ≡ not_asked }
    ensures utf8 { result ≡ done → IsUtf8 name.now }
    ensures not_utf8 { result ≡ not_utf8 → ¬ (IsUtf8 name.now) }
    ensures proper { result ≡ done → is_proper name.now ≡ true }
    ensures no_name { result ≡ no_name → is_proper name.now ≡ false }
    ensures kept { ¬ (result ≡ done) → ¬ (result ≡ out_of_memory)
        → handle.new.slot.walk ≡ handle.old.slot.walk }
{
    let Some(mut session) = handle.take(alloc) else {
        return EMPTY;
    };
    let answer = session.entry(alloc, name, is_dir);
    handle.fill(session);
    answer
}

/// Ends the entries of the directory: all were answered.
///
/// Returns 0; 7 if the handle is empty; or 9 if no entries are asked for.
#[unsafe(no_mangle)]
pub extern "C" fn cadmiumdove_walk_listed(alloc: Global, handle: &mut WalkHandle) -> u32
    ensures empty { handle.old.slot.walk ≡ None → result ≡ empty }
    ensures listed { (s : Sitting) → handle.old.slot.walk ≡ Some s
        → (es : List DirEntry) → entries_so_far s.reply ≡ Some es
        → HasListed s es handle.new.slot.walk }
    ensures asked { (s : Sitting) → handle.old.slot.walk ≡ Some s
        → (es : List DirEntry) → entries_so_far s.reply ≡ Some es → result ≡ done }
    ensures unasked { (s : Sitting) → handle.old.slot.walk ≡ Some s
        → entries_so_far s.reply ≡ None → result ≡ not_asked }
    ensures kept { ¬ (result ≡ done) → handle.new.slot.walk ≡ handle.old.slot.walk }
{
    let Some(mut session) = handle.take(alloc) else {
        return EMPTY;
    };
    let answer = session.listed();
    handle.fill(session);
    answer
}

/// Answers that the directory could not be listed. `code` is the system's error number, as in `errno`.
///
/// Returns 0; 7 if the handle is empty; or 9 if no listing is asked for.
#[unsafe(no_mangle)]
pub extern "C" fn cadmiumdove_walk_unread(alloc: Global, handle: &mut WalkHandle, code: i32) -> u32
    ensures empty { handle.old.slot.walk ≡ None → result ≡ empty }
    ensures failed { (s : Sitting) → handle.old.slot.walk ≡ Some s → result ≡ done
        → HasUnread s (os_error_kind code) handle.new.slot.walk }
    ensures asked { (s : Sitting) → handle.old.slot.walk ≡ Some s
        → (kinds : Bool) → s.said ≡ AsksList kinds → result ≡ done }
    ensures unasked { (s : Sitting) → handle.old.slot.walk ≡ Some s
        → ((kinds : Bool) → ¬ (s.said ≡ AsksList kinds)) → result ≡ not_asked }
    ensures kept { ¬ (result ≡ done) → handle.new.slot.walk ≡ handle.old.slot.walk }
{
    let Some(mut session) = handle.take(alloc) else {
        return EMPTY;
    };
    let answer = session.unread(code);
    handle.fill(session);
    answer
}

/// Frees the handle's walk, if there is one, and leaves the handle empty.
#[unsafe(no_mangle)]
pub extern "C" fn cadmiumdove_walk_free(alloc: Global, handle: &mut WalkHandle)
    ensures empty { handle.new.slot.walk ≡ None }
{
    drop(handle.take(alloc));
}
