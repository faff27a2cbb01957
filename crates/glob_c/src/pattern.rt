//! Patterns for C. The calls and numbers are those of `include/cadmiumdove.h`: change both.
ghost use Rattle.std.specs.Prelude.{◌≡◌, ◌≤◌, ℕ, List, IsUtf8, IsSome, chars};
ghost use Rattle.std.specs.declared.option.Option.TheVariants.{None, Some};
ghost use Rattle.glob_pattern.specs.Grammar.Units.{IsAccepted};
ghost use Rattle.glob_pattern.specs.Grammar.Faults.{IsFault};
ghost use Rattle.glob_c.specs.Answers.{done, syntax_fault, not_utf8, too_short, unknown_flag, in_use, fault_of};
ghost use Rattle.glob_c.specs.Matches.{Answers, IsPromised};
ghost use Rattle.glob_c.specs.Slots.{PatternRow};
ghost use base.Fml.{Lft, Share, fsep, flft};
ghost use types.Logic.{sem};
ghost use denote.Struct.Lending.{lent_at};

use crate::fault::{self, Fault, Refusal};
use crate::handle::PatternHandle;
use glob_pattern::{MatchOptions, Pattern};
use std::alloc::Global;

pub(crate) const DONE: u32 = 0;

pub(crate) const SYNTAX_FAULT: u32 = 1;

pub(crate) const OUT_OF_MEMORY: u32 = 2;

pub(crate) const NOT_UTF8: u32 = 3;

pub(crate) const IN_USE: u32 = 6;

pub(crate) const UNKNOWN_FLAG: u32 = 5;

const NO: u32 = 0;

const YES: u32 = 1;

/// Parses the bytes as a pattern and puts it into the handle.
///
/// Returns 0; 1 if the pattern is not valid, with its first fault in `fault`; 2 if an allocation fails; 3 if the bytes
/// are not UTF-8; or 6 if the handle already has a pattern. Unless 0 is returned, the handle is unchanged.
#[unsafe(no_mangle)]
pub extern "C" fn cadmiumdove_pattern_new(
    alloc: Global,
    handle: &mut PatternHandle,
    pattern: &[u8],
    fault: &mut Fault,
) -> u32
    ensures range { result ≤ in_use }
    ensures not_short { ¬ (result ≡ too_short) }
    ensures no_flag { ¬ (result ≡ unknown_flag) }
    ensures was_empty { result ≡ done → handle.old.slot.text ≡ None }
    ensures accepted { result ≡ done → IsAccepted (chars pattern.now) }
    ensures utf8 { result ≤ syntax_fault → IsUtf8 pattern.now }
    ensures text { result ≡ done → handle.new.slot.text ≡ Some pattern.now }
    ensures syntax { result ≡ syntax_fault →
        IsFault (chars pattern.now) (fault_of fault.new.place fault.new.message) }
    ensures message { result ≡ syntax_fault → fault.new.message ≤ 2 }
    ensures not_utf8 { result ≡ not_utf8 → ¬ (IsUtf8 pattern.now) }
    ensures in_use { result ≡ in_use → IsSome handle.old.slot.text }
    ensures full { IsSome handle.old.slot.text → result ≡ in_use }
    ensures refused { ¬ (result ≡ done) → handle.new.slot.text ≡ handle.old.slot.text }
    ensures untold { ¬ (result ≡ syntax_fault) → fault.new ≡ fault.old }
{
    if handle.is_full() {
        return IN_USE;
    }
    match fault::parse(alloc, pattern) {
        Ok(pattern) => {
            handle.fill(pattern);
            DONE
        }
        Err(Refusal::Syntax(first)) => {
            *fault = first;
            SYNTAX_FAULT
        }
        Err(Refusal::Memory) => OUT_OF_MEMORY,
        Err(Refusal::NotUtf8) => NOT_UTF8,
    }
}

/// Whether a pattern matches the text, under the options of the flags. `at` is the field `at` of a handle that has a
/// pattern. With the flag 8 the caller promises that the text is UTF-8, and the call does not check it.
///
/// Returns 0 for no, 1 for yes, 2 if an allocation fails, 3 if the bytes are not UTF-8, and 5 for an unknown flag.
#[unsafe(no_mangle)]
pub extern "C" fn cadmiumdove_pattern_matches_at(at: *const u8, text: &[u8], flags: u32) -> u32
    ghost lent: { List ℕ × Lft × Share }
    requires* shared { sem 𝓛 (fsep (lent_at PatternRow at lent.0 lent.1) (flft lent.1 lent.2)) }
    requires utf8 { IsPromised flags text.now }
    ensures* back { sem 𝓛 (flft lent.1 lent.2) }
    ensures answers { Answers lent.0 text.now flags result }
{
    let pattern = unsafe { &*(at as *const Pattern<Global>) };
    answer_of(pattern, text, flags)
}

/// Whether the pattern matches the text.
fn answer_of(pattern: &Pattern<Global>, text: &[u8], flags: u32) -> u32
    requires { IsPromised flags text.now }
    ensures { Answers pattern.now text.now flags result }
{
    if flags > 15 {
        return UNKNOWN_FLAG;
    }
    let text = if flags & 8 == 0 {
        match str::from_utf8(text) {
            Ok(text) => text,
            Err(_) => return NOT_UTF8,
        }
    } else {
        unsafe { str::from_utf8_unchecked(text) }
    };
    match pattern.matches_with(text, MatchOptions::from_bits(flags)) {
        Ok(true) => YES,
        Ok(false) => NO,
        Err(_) => OUT_OF_MEMORY,
    }
}

/// Frees the handle's pattern, if there is one, and leaves the handle empty.
#[unsafe(no_mangle)]
pub extern "C" fn cadmiumdove_pattern_free(alloc: Global, handle: &mut PatternHandle)
    ensures empty { handle.new.slot.text ≡ None }
{
    drop(handle.take(alloc));
}
