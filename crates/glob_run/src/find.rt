//! The command `find`: writes a line for each path that a walk finds.
ghost use Rattle.std.specs.Prelude.{◌≡◌, ◌≢◌, ◌≤◌, None};
ghost use Rattle.glob.specs.Answers.{IsTold};
ghost use Rattle.glob.specs.Components.{walk_fault};
ghost use Rattle.glob.specs.Content.{Content};
ghost use Rattle.glob.specs.Lines.{line_feed};
ghost use Rattle.glob.specs.Walks.{listing};
ghost use Rattle.glob_console.specs.FoundPaths.{IsFindStatus, WritesFound, every};
ghost use Rattle.glob_console.specs.Outcomes.{IsRefused};

use glob::{MatchOptions, Tree};
use glob_console::{ErrorLines, Every, WalkSettings, find_in};
use std::io::Write;

/// Walks the tree, writes each path as a line to `output` and each error as a line to `errors`, and returns the exit
/// status. `limit` is in units of the walk.
#[tactic(auto, unfolding(glob_console::specs::FoundPaths::IsFindStatus, glob_console::specs::FoundPaths::WritesFound))]
pub fn run_find<T: Tree, W: Write, E: Write>(
    alloc: T::Alloc,
    tree: T,
    pattern: &str,
    options: MatchOptions,
    limit: u64,
    output: &mut W,
    errors: &mut ErrorLines<'_, T::Alloc, E>,
) -> u8
    ensures most { result ≤ 2 }
    ensures refused { walk_fault pattern.now ≢ None → IsRefused output.old output.new result }
    ensures status { (c : Content) → IsTold (T.tells tree) c
        → IsFindStatus every (listing c options pattern.now) limit result }
    ensures written { (c : Content) → IsTold (T.tells tree) c
        → WritesFound line_feed every (listing c options pattern.now) limit
        (W.contents output.old) (W.contents output.new) result }
{
    let walk = WalkSettings {
        pattern,
        options,
        limit,
        end: b'\n',
    };
    match find_in(alloc, tree, walk, &Every, output, errors) {
        Ok(findings) => findings.status(),
        Err(find_fault) => find_fault.report(errors),
    }
}
