//! Writes a record for each path that a walk finds and a choice wants.
ghost use Rattle.std.specs.Prelude.{◌≡◌, ◌≢◌, ◌++◌, [], List, IfOk, IfErr, IsErrAnd, OnErr, OnOk};
ghost use Rattle.glob_tree.specs.Answers.{IsTold};
ghost use Rattle.glob_tree.specs.Content.{Content};
ghost use Rattle.glob_lines.specs.Lines.{AppendsFront};
ghost use Rattle.glob_walk.specs.Components.{walk_fault};
ghost use Rattle.glob_walk.specs.Walks.{listing, Mark};
ghost use Rattle.glob_walk.specs.Machines.{HasGiven};
ghost use Rattle.glob_console.specs.FoundPaths.{FindsPaths, FindsSomeBytes, IsFindFault, IsRefusal, IsWriting};
ghost use Rattle.glob_console.specs.Private.Writing.{Queues, StepWrites, is_item_wanted, step_record};

pub mod fault;
pub mod findings;
mod lines;

use crate::choice::Choice;
use crate::error_lines::ErrorLines;
use fault::FindFault;
use findings::Findings;
use glob_pattern::MatchOptions;
use glob_tree::Tree;
use glob_walk::{Step, WalkMachine};
use lines::Lines;
use std::alloc::Allocator;
use std::io::Write;

/// What to walk for, how far, and what ends each record.
#[derive(Clone, Copy)]
pub struct WalkSettings<'a> {
    /// The pattern, as a text.
    pub pattern: &'a str,
    /// How it is matched.
    pub options: MatchOptions,
    /// How many units the walk may spend.
    pub limit: u64,
    /// The byte that ends each record.
    pub end: u8,
}

/// Walks the tree. Each path that the choice wants becomes a record of `output`, and the choice reports each error to
/// `errors`, after the paths before it. The first path is written immediately. Later paths wait until there are 8 KiB
/// of them, an error comes, the walk ends, or it asks a question after a hundred more units.
///
/// With files `x` and `y`, `*` writes the lines `x` and `y` if every path is wanted. With the limit 3 it writes none,
/// and the walk ends with `Limit`. If the pattern is refused, `output` is unchanged. If a line cannot be written,
/// `output` has only the first bytes of all these lines.
pub fn find_in<T: Tree, C: Choice, W: Write, E: Write>(
    alloc: T::Alloc,
    tree: T,
    walk: WalkSettings<'_>,
    choice: &C,
    output: &mut W,
    errors: &mut ErrorLines<'_, T::Alloc, E>,
) -> Result<Findings, FindFault>
    ensures refused { walk_fault walk.entry.pattern.now ≢ None → IsErrAnd result IsRefusal }
    ensures fault { IfErr result (IsFindFault walk.entry.pattern.now) }
    ensures kept { IsErrAnd result IsRefusal → output.new ≡ output.old }
    ensures paths { (c : Content) → IsTold (T.tells tree) c → IfOk result (FindsPaths
        walk.entry.end (C.wanted choice.now c)
        (listing c walk.entry.options walk.entry.pattern.now) walk.entry.limit
        (W.contents output.old) (W.contents output.new)) }
    ensures some { (c : Content) → IsTold (T.tells tree) c → OnErr result (FindsSomeBytes
        walk.entry.end (C.wanted choice.now c)
        (listing c walk.entry.options walk.entry.pattern.now)
        (W.contents output.old) (W.contents output.new)) }
{
    let mut tree = tree;
    let mut machine = WalkMachine::new(alloc, walk.pattern, walk.options, walk.limit)?;
    let records = Records {
        choice,
        end: walk.end,
    };
    write_items(alloc, &mut tree, &mut machine, &records, output, errors)
}

/// Which paths become records, and the byte that ends each.
#[derive(Drop)]
struct Records<'a, C: Choice> {
    choice: &'a C,
    end: u8,
}

/// What a walk has found so far, and which lines are waiting.
#[derive(Drop)]
struct Progress<A: Allocator> {
    findings: Findings,
    lines: Lines<A>,
}

/// Runs a walk to its end with the tree's answers, and writes its wanted items.
fn write_items<T: Tree, C: Choice, W: Write, E: Write>(
    alloc: T::Alloc,
    tree: &mut T,
    walk: &mut WalkMachine<T::Alloc>,
    records: &Records<'_, C>,
    output: &mut W,
    errors: &mut ErrorLines<'_, T::Alloc, E>,
) -> Result<Findings, FindFault>
    ensures fault { IfErr result IsWriting }
    ensures paths { (c : Content) → IsTold (T.tells tree.old) c → (ms : List Mark)
        → HasGiven ms c [] walk.old → IfOk result (FindsPaths
        records.now.end (C.wanted records.now.choice.now c) ms walk.old.limit
        (W.contents output.old) (W.contents output.new)) }
    ensures some { (c : Content) → IsTold (T.tells tree.old) c → (ms : List Mark)
        → HasGiven ms c [] walk.old → OnErr result (FindsSomeBytes
        records.now.end (C.wanted records.now.choice.now c) ms
        (W.contents output.old) (W.contents output.new)) }
{
    let mut progress = Progress {
        findings: Findings::new(),
        lines: Lines::new(alloc)?,
    };
    loop {
        let step = walk.advance(tree);
        write_step(
            &step,
            walk.spent(),
            records,
            tree,
            &mut progress,
            output,
            errors,
        )?;
        if let Step::Done = step {
            return Ok(progress.findings);
        }
    }
}

/// Writes and notes the item of a step, a path or an error, if it is wanted. It writes all waiting lines after the last
/// step, and long-waiting lines before a question.
fn write_step<T: Tree, C: Choice, W: Write, E: Write>(
    step: &Step<T::Alloc>,
    spent: u64,
    records: &Records<'_, C>,
    tree: &mut T,
    progress: &mut Progress<T::Alloc>,
    output: &mut W,
    errors: &mut ErrorLines<'_, T::Alloc, E>,
) -> Result<(), FindFault>
    ensures fault { IfErr result IsWriting }
    ensures content { T.tells tree.new ≡ T.tells tree.old }
    ensures written { OnOk result (StepWrites
        records.now.end (λ yes item. (c : Content) → IsTold (T.tells tree.old) c
        → yes ≡ is_item_wanted (C.wanted records.now.choice.now c) item) step.now
        progress.old.findings progress.new.findings
        (Queues (W.contents output.old) progress.old.lines.waiting.items
        (W.contents output.new) progress.new.lines.waiting.items)
        progress.new.lines.waiting.items) }
    ensures some { (c : Content) → IsTold (T.tells tree.old) c → OnErr result
        (AppendsFront (W.contents output.old) (W.contents output.new)
        (progress.old.lines.waiting.items
        ++ step_record records.now.end (C.wanted records.now.choice.now c) step.now)) }
{
    match step {
        Step::Item(item) => match item {
            Ok(path) => {
                if !records.choice.wants(tree, path.as_str())? {
                    return Ok(());
                }
                progress.findings.note(item);
                progress.lines.add(path.as_str(), records.end, output)
            }
            Err(error) => {
                progress.findings.note(item);
                progress.lines.flush(output)?;
                records.choice.report(error, errors);
                Ok(())
            }
        },
        Step::Done => Ok(progress.lines.flush(output)?),
        Step::Look | Step::List | Step::ListNames => Ok(progress.lines.before_ask(spent, output)?),
    }
}
