//! `globs match`: copies the records of the input that some pattern matches or, with `-v`, that no pattern matches.
ghost use Rattle.std.specs.Prelude.{◌≡◌, ◌≤◌, ◌↔◌, false, map, IfOk, IsTrue};
ghost use Rattle.std.specs.Str.{chars};
ghost use Rattle.globs.specs.Copying.{input_of};
ghost use Rattle.globs.specs.Matching.{CopiesChosen, CopiesMatches, is_chosen, is_record_match};

use crate::braces::{Reported, expand_words};
use crate::copying::copy;
use crate::input::{FirstRecord, is_help, note_file};
use crate::name::Name;
use crate::options::Settings;
use crate::patterns::{FaultLines, is_any_match, read_set};
use crate::usage::HelpWord;
use crate::whole::{note_invalid, note_unmatched, note_words};
use glob_console::{ErrorLines, FAULT, UNFOUND, as_strs};
use glob_lines::{Selection, Watch};
use glob_set::PatternSet;
use std::alloc::{AllocError, Allocator};
use std::io::{Read, Write};
use std::str;

/// Expands the braces of the words, `*.{c,h}` to `*.c` and `*.h`, and then does what [`run_match`] does. A refused word
/// is a fault, before anything is read or written. Lines say what was probably meant: `-0`, a file to read, or, if a
/// single pattern matches nothing, another tool's syntax.
#[tactic(auto, unfolding(crate::specs::Matching::CopiesMatches))]
pub fn match_words<A: Allocator + Copy, R: Read, W: Write, E: Write>(
    alloc: A,
    settings: Settings,
    words: &[&str],
    input: &mut Watch<R>,
    output: &mut W,
    errors: &mut ErrorLines<'_, A, E>,
) -> u8
    requires { input.old.failed ≡ false }
    ensures most { result ≤ 2 }
    ensures copied { CopiesMatches W.contents settings (map (λ w. w.now) words.now)
        (input_of R.remaining input.old input.new) output.old output.new result }
{
    let texts = match expand_words(alloc, Name::Match, words, errors) {
        Ok(texts) => texts,
        Err(Reported) => {
            note_invalid(alloc, settings.options, words, errors);
            return FAULT;
        }
    };
    let Ok(patterns) = as_strs(alloc, texts.as_slice()) else {
        return errors.memory_fault();
    };
    let first = FirstRecord::new();
    let status = run_match(
        alloc,
        settings,
        patterns.as_slice(),
        &first,
        input,
        output,
        errors,
    );
    first.report(errors);
    let has_slip = note_words(words, status == UNFOUND, errors);
    if status == UNFOUND && is_help(words) {
        errors.write(&HelpWord { name: Name::Match });
    } else if status == UNFOUND && first.is_missing() {
        note_file(words, errors);
    } else if status == UNFOUND && !settings.inverts && !first.has_nul() && !has_slip {
        let is_cased = settings.options.case_sensitive;
        note_unmatched(alloc, is_cased, &first, patterns.as_slice(), errors);
    }
    status
}

/// Copies the records of the input that some pattern matches or, if the settings invert this, that no pattern matches.
/// Returns the status. A refused pattern is a fault, before anything is read or written.
///
/// With the input `"a.rs\nb.c\n"`, the pattern `*.rs` writes `"a.rs\n"`, and `"b.c\n"` if inverted.
#[tactic(auto, unfolding(crate::specs::Matching::CopiesChosen))]
fn run_match<A: Allocator + Copy, R: Read, W: Write, E: Write>(
    alloc: A,
    settings: Settings,
    patterns: &[&str],
    first: &FirstRecord,
    input: &mut Watch<R>,
    output: &mut W,
    errors: &mut ErrorLines<'_, A, E>,
) -> u8
    requires { input.old.failed ≡ false }
    ensures most { result ≤ 2 }
    ensures copied { CopiesChosen W.contents settings (map (λ p. p.now) patterns.now)
        (input_of R.remaining input.old input.new) output.old output.new result }
{
    match read_set(alloc, patterns, settings.options) {
        Ok(set) => {
            let chosen = Chosen {
                patterns: set,
                inverts: settings.inverts,
                first,
            };
            copy(alloc, &chosen, settings.end, input, output, errors)
        }
        Err(fault) => errors.fault(FaultLines {
            name: Name::Match,
            fault,
        }),
    }
}

/// Selects the records that some pattern matches or, if it `inverts`, that no pattern matches.
#[derive(Drop)]
struct Chosen<'f, A: Allocator> {
    patterns: PatternSet<A>,
    inverts: bool,
    first: &'f FirstRecord,
}

impl<A: Allocator + Copy> Selection for Chosen<'_, A> {
    ghost selects = { λ c bytes. is_chosen c.patterns c.inverts bytes };

    fn selects(&self, bytes: &[u8]) -> Result<bool, AllocError> {
        self.first.note(bytes);
        let matches = is_record_match(&self.patterns, bytes)?;
        Ok(matches != self.inverts)
    }
}

/// Whether a record is UTF-8 and some pattern matches it.
fn is_record_match<A: Allocator + Copy>(
    patterns: &PatternSet<A>,
    bytes: &[u8],
) -> Result<bool, AllocError>
    ensures { IfOk result (λ yes. yes ≡ is_record_match patterns.now bytes.now) }
{
    match str::from_utf8(bytes) {
        Ok(text) => is_any_match(patterns, text),
        Err(_) => Ok(false),
    }
}
