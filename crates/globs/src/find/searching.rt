//! Runs a search, and writes a record for each path that it finds.
ghost use Rattle.std.specs.Prelude.{◌≡◌, ◌≤◌, ◌++◌, ◌==◌, ◌||◌, Bool, false, true, [], List, Option, Some, IfOk, OnErr, OnOk};
ghost use Rattle.glob_console.specs.Private.Writing.{Queues};
ghost use Rattle.glob_lines.specs.Lines.{AppendsFront, with_ends};
ghost use Rattle.glob_search.specs.Aims.{AreTextsOf};
ghost use Rattle.glob_search.specs.Searching.{Aim};
ghost use Rattle.glob_search.specs.States.{HasGiven};
ghost use Rattle.glob_search.specs.Visiting.{Gift};
ghost use Rattle.glob_text.specs.Text.{Text};
ghost use Rattle.glob_tree.specs.Answers.{IsTold};
ghost use Rattle.glob_tree.specs.Content.{Content};
ghost use Rattle.globs.specs.Find.Kinds.{kept, sieved};
ghost use Rattle.globs.specs.Find.Writing.{WritesGifts, found_paths, is_last, item_record, noting, status_of};

use crate::find::fault::{FindFault, report_search};
use crate::find::kinds::{PathKinds, Sieve};
use crate::find::lines::Lines;
use glob_console::{ErrorLines, FAULT, FOUND, UNFOUND};
use glob_search::{Found, RuleTexts, Search, SearchFault};
use glob_tree::Tree;
use std::alloc::Allocator;
use std::io::Write;

/// What a search has given: whether there were paths, and whether there was something that it could not do.
#[derive(Clone, Copy)]
pub struct Findings {
    pub has_path: bool,
    pub has_fault: bool,
}

impl Findings {
    /// Nothing yet.
    pub fn new() -> Self
        ensures path { result.has_path ≡ false }
        ensures fault { result.has_fault ≡ false }
    {
        Findings {
            has_path: false,
            has_fault: false,
        }
    }

    /// Notes the status of a search.
    pub fn note(&mut self, status: u8)
        ensures fault { self.new.has_fault ≡ (self.old.has_fault || status == 2) }
        ensures path { self.new.has_path ≡ (self.old.has_path || status == 0) }
    {
        self.has_fault = self.has_fault || status == FAULT;
        self.has_path = self.has_path || status == FOUND;
    }

    /// The exit status: 2 if there was something that it could not do, else 0 if it found a path, else 1.
    pub fn status(self) -> u8
        ensures most { result ≤ 2 }
        ensures status { result ≡ status_of self }
    {
        if self.has_fault {
            FAULT
        } else if self.has_path {
            FOUND
        } else {
            UNFOUND
        }
    }
}

/// Searches to the end. Each path that is found and that the sieve keeps becomes a record of `output`, after the lead
/// of the patterns. What the search could not do becomes a line of `errors`, after the paths before it. Returns the
/// exit status. After an error the first bytes of the records may have been written.
pub fn run_search<A, T, X, F, W, E>(
    alloc: A,
    search: Search<A>,
    tree: &mut T,
    texts: &mut X,
    sieve: &Sieve<'_, '_, '_, '_, '_, F>,
    lead: &str,
    end: u8,
    output: &mut W,
    errors: &mut ErrorLines<'_, A, E>,
) -> Result<u8, FindFault>
where
    A: Allocator + Copy,
    T: Tree<Alloc = A>,
    X: RuleTexts<Alloc = A>,
    F: PathKinds,
    W: Write,
    E: Write,
    ensures most { IfOk result (λ status. status ≤ 2) }
    ensures written { (keeps : Text → Bool) → sieved F.kinds sieve.now ≡ Some keeps
        → (c : Content) (a : Aim) (known : Text → Option Text)
        → IsTold (T.tells tree.old) c → X.texts texts.old ≡ Some known
        → AreTextsOf c a search.files known → (all : List Gift) → HasGiven all c a known [] search
        → IfOk result (WritesGifts lead.now end (kept keeps all)
        (W.contents output.old) (W.contents output.new)) }
    ensures some { (keeps : Text → Bool) → sieved F.kinds sieve.now ≡ Some keeps
        → (c : Content) (a : Aim) (known : Text → Option Text)
        → IsTold (T.tells tree.old) c → X.texts texts.old ≡ Some known
        → AreTextsOf c a search.files known → (all : List Gift) → HasGiven all c a known [] search
        → OnErr result (AppendsFront (W.contents output.old) (W.contents output.new)
        (with_ends end (found_paths lead.now (kept keeps all)))) }
{
    let mut search = search;
    let findings = write_found(
        alloc,
        &mut search,
        tree,
        texts,
        sieve,
        lead,
        end,
        output,
        errors,
    )?;
    Ok(findings.status())
}

/// Writes what is found and kept, and the lines about what could not be done.
fn write_found<A, T, X, F, W, E>(
    alloc: A,
    search: &mut Search<A>,
    tree: &mut T,
    texts: &mut X,
    sieve: &Sieve<'_, '_, '_, '_, '_, F>,
    lead: &str,
    end: u8,
    output: &mut W,
    errors: &mut ErrorLines<'_, A, E>,
) -> Result<Findings, FindFault>
where
    A: Allocator + Copy,
    T: Tree<Alloc = A>,
    X: RuleTexts<Alloc = A>,
    F: PathKinds,
    W: Write,
    E: Write,
    ensures written { (keeps : Text → Bool) → sieved F.kinds sieve.now ≡ Some keeps
        → (c : Content) (a : Aim) (known : Text → Option Text)
        → IsTold (T.tells tree.old) c → X.texts texts.old ≡ Some known
        → AreTextsOf c a search.old.files known → (all : List Gift) → HasGiven all c a known [] search.old
        → IfOk result (λ findings. WritesGifts lead.now end (kept keeps all)
        (W.contents output.old) (W.contents output.new) (status_of findings)) }
    ensures some { (keeps : Text → Bool) → sieved F.kinds sieve.now ≡ Some keeps
        → (c : Content) (a : Aim) (known : Text → Option Text)
        → IsTold (T.tells tree.old) c → X.texts texts.old ≡ Some known
        → AreTextsOf c a search.old.files known → (all : List Gift) → HasGiven all c a known [] search.old
        → OnErr result (AppendsFront (W.contents output.old) (W.contents output.new)
        (with_ends end (found_paths lead.now (kept keeps all)))) }
{
    let mut lines = Lines::new(alloc, lead, end)?;
    let mut findings = Findings::new();
    // The bound is never reached, but the loop needs one.
    for _ in 0..u64::MAX {
        match search.next(tree, texts) {
            None => {
                lines.flush(output)?;
                return Ok(findings);
            }
            Some(item) => {
                let spent = search.spent();
                if write_item(
                    alloc,
                    sieve,
                    item,
                    spent,
                    &mut lines,
                    &mut findings,
                    output,
                    errors,
                )? {
                    return Ok(findings);
                }
            }
        }
    }
    Err(FindFault::Memory)
}

/// Writes and notes what a search has given after spending this many units, unless it is a path that the sieve does not
/// keep. Returns whether this ends the search; then no line is waiting.
fn write_item<A, F, W, E>(
    alloc: A,
    sieve: &Sieve<'_, '_, '_, '_, '_, F>,
    item: Result<Found<A>, SearchFault<A>>,
    spent: u64,
    lines: &mut Lines<'_, A>,
    findings: &mut Findings,
    output: &mut W,
    errors: &mut ErrorLines<'_, A, E>,
) -> Result<bool, FindFault>
where
    A: Allocator + Copy,
    F: PathKinds,
    W: Write,
    E: Write,
    ensures lead { lines.new.lead.now ≡ lines.old.lead.now }
    ensures end { lines.new.end ≡ lines.old.end }
    ensures last { IfOk result (λ ends. ends ≡ is_last item) }
    ensures noted { (keeps : Text → Bool) → sieved F.kinds sieve.now ≡ Some keeps
        → OnOk result (findings.new ≡ noting keeps findings.old item) }
    ensures none { IfOk result (λ ends. ends ≡ true → lines.new.waiting.items ≡ []) }
    ensures written { (keeps : Text → Bool) → sieved F.kinds sieve.now ≡ Some keeps
        → OnOk result (Queues (W.contents output.old) lines.old.waiting.items
        (W.contents output.new) lines.new.waiting.items
        (item_record keeps lines.old.lead.now lines.old.end item)) }
    ensures some { (keeps : Text → Bool) → sieved F.kinds sieve.now ≡ Some keeps
        → OnErr result (AppendsFront (W.contents output.old) (W.contents output.new)
        (lines.old.waiting.items
        ++ item_record keeps lines.old.lead.now lines.old.end item)) }
{
    match item {
        Ok(found) => {
            if !sieve.keeps(alloc, found.path.as_str())? {
                return Ok(false);
            }
            findings.has_path = true;
            lines.add(found.path.as_str(), spent, output)?;
            Ok(false)
        }
        Err(fault) => {
            findings.has_fault = true;
            lines.flush(output)?;
            Ok(report_search(alloc, lines.lead, fault, errors))
        }
    }
}
