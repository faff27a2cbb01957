ghost use Rattle.std.specs.Prelude.{◌≡◌, ◌<◌, ◌≤◌, IsUtf8, None, Some, length, take};
ghost use Rattle.glob_walk.specs.Components.{walk_fault};
ghost use Rattle.glob_page.specs.Answers.{fault, no, no_path, not_utf8, too_large, yes};

use crate::buffer::{FAULT, NO_PATH, NOT_UTF8, OUT_OF_MEMORY, TOO_LARGE, YES, write};
use crate::story::Story;
use glob_pattern::{MatchOptions, PatternError, PatternRefusal};
use glob_tree::{Entry, Look, MemTree, TreeRefusal};
use glob_walk::{Answer, Step, WalkMachine};
use std::alloc::{AllocError, Global};

/// Walks over a tree for a pattern, with at most `limit` units. `paths` has the tree's paths, one a line: the path of a
/// directory ends in `/` and comes before the paths in it. `out` then begins with what the walk did, as lines, and
/// `count` is their length in bytes.
///
/// Returns 1; 2 if the pattern is not valid for a walk, with the message in `out` and the fault's place, in characters,
/// in `place`; 3 if an allocation fails; 4 if some bytes are not UTF-8; 5 if `out` is too short; or 6 if a path cannot
/// be added, with its number, from 0, in `place`.
#[unsafe(no_mangle)]
pub extern "C" fn page_walk(
    alloc: Global,
    pattern: &[u8],
    flags: u32,
    limit: u64,
    paths: &[u8],
    out: &mut [u8],
    count: &mut usize,
    place: &mut usize,
) -> u32
    ensures range { result ≤ no_path }
    ensures some { ¬ (result ≡ no) }
    ensures utf8 { ¬ (result ≡ not_utf8) → IsUtf8 pattern.now × IsUtf8 paths.now }
    ensures accepted { result ≡ yes → walk_fault pattern.now ≡ None }
    ensures refused { result ≡ fault → walk_fault pattern.now
        ≡ Some (record { place = place.new; message = take count.new out.new }) }
    ensures fits { result ≤ fault → count.new ≤ length out.old }
    ensures not_utf8 { result ≡ not_utf8 → ¬ (IsUtf8 pattern.now × IsUtf8 paths.now) }
    ensures short { result ≡ too_large → length out.old < count.new }
{
    let (Ok(pattern), Ok(paths)) = (str::from_utf8(pattern), str::from_utf8(paths)) else {
        return NOT_UTF8;
    };
    let mut tree = match tree_of(alloc, paths) {
        Ok(tree) => tree,
        Err(Refusal::Memory) => return OUT_OF_MEMORY,
        Err(Refusal::Path(number)) => {
            *place = number;
            return NO_PATH;
        }
    };
    let mut machine = match WalkMachine::new(
        alloc,
        pattern,
        MatchOptions::from_bits(flags),
        limit,
    ) {
        Ok(machine) => machine,
        Err(PatternRefusal::Syntax(error)) => {
            let PatternError { pos, msg } = error;
            *place = pos;
            return if write(msg.as_bytes(), out, count) {
                FAULT
            } else {
                TOO_LARGE
            };
        }
        Err(PatternRefusal::Memory) => return OUT_OF_MEMORY,
    };
    let mut story = Story::new(alloc);
    if write_walk(&mut machine, &mut tree, &mut story).is_err() {
        return OUT_OF_MEMORY;
    }
    if write(story.as_bytes(), out, count) {
        YES
    } else {
        TOO_LARGE
    }
}

/// Why there is no tree to walk.
#[derive(Drop)]
enum Refusal {
    Memory,
    Path(usize),
}

/// A failed allocation.
impl From<AllocError> for Refusal {
    fn from(_error: AllocError) -> Refusal {
        Refusal::Memory
    }
}

/// Builds the tree of the paths.
fn tree_of(alloc: Global, paths: &str) -> Result<MemTree<Global>, Refusal> {
    let mut tree = MemTree::new(alloc)?;
    for (number, path) in paths.split('\n').enumerate() {
        let added = match path.strip_suffix("/") {
            Some(directory) => tree.add_dir(directory),
            None if path.is_empty() => Ok(()),
            None => tree.add_other(path),
        };
        added.map_err(|refusal| match refusal {
            TreeRefusal::Memory => Refusal::Memory,
            _ => Refusal::Path(number),
        })?;
    }
    Ok(tree)
}

/// Drives a walk from its start with the tree's answers, and writes each answer and each step.
fn write_walk(
    machine: &mut WalkMachine<Global>,
    tree: &mut MemTree<Global>,
    story: &mut Story,
) -> Result<(), AllocError> {
    for _ in 0..u64::MAX {
        let answer = machine.ask(tree);
        write_answer(&answer, machine.spent(), story)?;
        let step = machine.resume(answer);
        write_step(&step, machine, story)?;
        if let Step::Done = step {
            break;
        }
    }
    Ok(())
}

/// Writes what a path refers to, or the entries of a directory.
fn write_answer(answer: &Answer<Global>, spent: u64, story: &mut Story) -> Result<(), AllocError> {
    match answer {
        Answer::Nothing => Ok(()),
        Answer::Look(Ok(Look::Dir)) => story.line("dir", spent, ""),
        Answer::Look(Ok(Look::Other)) => story.line("other", spent, ""),
        Answer::Look(Ok(Look::Missing) | Err(_)) => story.line("missing", spent, ""),
        Answer::List(Ok(entries)) => write_entries(entries.as_slice(), spent, story),
        Answer::List(Err(_)) => story.line("unread", spent, ""),
    }
}

/// Writes the entries of a directory.
fn write_entries(
    entries: &[Entry<Global>],
    spent: u64,
    story: &mut Story,
) -> Result<(), AllocError> {
    for entry in entries {
        let word = if entry.is_dir { "in-dir" } else { "in-other" };
        story.line(word, spent, entry.name.as_str())?;
    }
    Ok(())
}

/// Writes a question with its path, an item, or the end.
fn write_step(
    step: &Step<Global>,
    machine: &WalkMachine<Global>,
    story: &mut Story,
) -> Result<(), AllocError> {
    let (word, text) = match step {
        Step::Look => ("look", machine.path()),
        Step::List => ("list", machine.path()),
        Step::ListNames => ("names", machine.path()),
        Step::Item(Ok(path)) => ("item", path.as_str()),
        Step::Item(Err(error)) => ("error", error.path().as_str()),
        Step::Done => ("done", ""),
    };
    story.line(word, machine.spent(), text)
}
