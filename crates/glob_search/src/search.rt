//! A search, as its callers see it.
ghost use Rattle.std.specs.Prelude.{◌≡◌, ◌+◌, ◌<◌, ◌≤◌, List, [], map, Option, None, Some, MatchOption, IfErr, IfOk, IfSome, IsSome, IsTrue};
ghost use Rattle.glob_text.specs.Text.{Text};
ghost use Rattle.glob_tree.specs.Answers.{IsTold};
ghost use Rattle.glob_tree.specs.Content.{Content, Key, is_content};
ghost use Rattle.glob_search.specs.Aims.{AreTextsOf, aim_of};
ghost use Rattle.glob_search.specs.Kept.{AreOfFiles, IsKept};
ghost use Rattle.glob_search.specs.Refusals.{AreSearchable, RefusesPatterns};
ghost use Rattle.glob_search.specs.Searching.{Aim};
ghost use Rattle.glob_search.specs.States.{Ends, IsBegun, IsEnded, IsPaid, IsPast, FitsFiles, HasGiven, HasPatterns, GivesNext, GoesAfter};
ghost use Rattle.glob_search.specs.Visiting.{Gift, gifts};

use crate::fault::SearchFault;
use crate::found::Found;
use crate::rule_texts::RuleTexts;
use crate::searcher::Searcher;
use crate::settings::Settings;
use glob_set::SetRefusal;
use glob_tree::Tree;
use std::alloc::{Allocator, Global};
use std::marker::Model;

/// A search for the paths below the current directory of a tree that at least one of many patterns matches, each once
/// and in ascending order of names.
///
/// ```text
/// let mut search = Search::new(alloc, &["src/*.rs", "docs/**"], Settings::new(alloc))?;
/// search.next(&mut tree, &mut NoRuleTexts)    // Some(Ok(found)), and found.path is "docs/index.md"
/// search.next(&mut tree, &mut NoRuleTexts)    // Some(Ok(found)), and found.path is "src/main.rs"
/// search.next(&mut tree, &mut NoRuleTexts)    // None
/// ```
#[derive(Drop)]
pub struct Search<A: Allocator = Global> {
    searcher: Searcher<A>,
}

impl<A: Allocator> Model for Search<A> {
    ghost use Rattle.glob_search.specs.States.{SearchState};
    ghost use Rattle.glob_search.specs.Private.Finding.{Find, state_of};

    ghost Value = { SearchState (Find A) };

    ghost view = { λ search. state_of search.searcher };
}

impl<A: Allocator + Copy> Search<A> {
    /// A search that has not begun: it has asked nothing and given nothing.
    ///
    /// A pattern is read as a whole, and then each of its components, so that `a/[/]` is refused for its `[`. The error
    /// is the number of the first pattern with a fault, counted from 0, and its first fault, or a failed allocation.
    pub fn new(alloc: A, patterns: &[&str], settings: Settings<A>) -> Result<Self, SetRefusal>
        ensures begun { IfOk result (IsBegun settings) }
        ensures fresh { IfOk result (λ search. (c : Content) (known : Text → Option Text)
            → IsTrue (is_content c)
            → let a = aim_of (map (λ p. p.now) patterns.now) settings known in
            HasGiven (gifts c a) c a known [] search) }
        ensures past { IfOk result (λ search. IsPast [] search) }
        ensures patterns { IfOk result (λ search. (known : Text → Option Text)
            → HasPatterns (aim_of (map (λ p. p.now) patterns.now) settings known) search) }
        ensures few { IfOk result (λ search. search.remaining ≤ settings.limit + 1) }
        ensures accepted { IfOk result (λ _. AreSearchable (map (λ p. p.now) patterns.now)) }
        ensures refused { IfErr result (RefusesPatterns (map (λ p. p.now) patterns.now)) }
    {
        let searcher = Searcher::new(alloc, patterns, settings)?;
        Ok(Search { searcher })
    }

    /// The next path that is found, or what could not be done; `None` once nothing is left.
    ///
    /// If the content of the tree and the texts of ignore files are known, the paths, and the directories that cannot
    /// be listed, are exactly those that the search has to give, one after another, and then comes `None`. If an ignore
    /// file has refused lines, the search goes on with its other lines; if a file cannot be read, with the other files.
    /// Both happen only if ignore files were asked for.
    ///
    /// Each path and each fault leaves less to come, so a loop of calls up to `None` ends.
    pub fn next<T: Tree<Alloc = A>, R: RuleTexts<Alloc = A>>(
        &mut self,
        tree: &mut T,
        texts: &mut R,
    ) -> Option<Result<Found<A>, SearchFault<A>>>
        ensures limit { self.new.limit ≡ self.old.limit }
        ensures depth { self.new.depth ≡ self.old.depth }
        ensures files { self.new.files ≡ self.old.files }
        ensures patterns { (a : Aim) → HasPatterns a self.old → HasPatterns a self.new }
        ensures first_rules { self.new.rules.first ≡ self.old.rules.first }
        ensures last_rules { self.new.rules.last ≡ self.old.rules.last }
        ensures kinds { self.new.kinds ≡ self.old.kinds }
        ensures known { IsTrue self.old.kinds
            → IfSome result (λ item. IfOk item (λ found. IsSome found.is_dir)) }
        ensures asked { MatchOption result
            (T.asks tree.new + self.old.spent ≤ T.asks tree.old + self.new.spent)
            (λ item. IsPaid item (T.asks tree.old) (T.asks tree.new)
            self.old.spent self.new.spent) }
        ensures spent { self.old.spent ≤ self.new.spent }
        ensures content { T.tells tree.new ≡ T.tells tree.old }
        ensures texts { R.texts texts.new ≡ R.texts texts.old }
        ensures ends { Ends result (IsEnded self.new) }
        ensures stays { IsEnded self.old → (result ≡ None) × IsEnded self.new }
        ensures gives { (c : Content) (a : Aim) (known : Text → Option Text)
            → IsTold (T.tells tree.old) c → R.texts texts.old ≡ Some known
            → AreTextsOf c a self.old.files known
            → (all given : List Gift) → HasGiven all c a known given self.old
            → GivesNext all c a known given result self.new }
        ensures ascends { (past : Key) → IsPast past self.old → GoesAfter past result self.new }
        ensures read { (known : Text → Option Text) → R.texts texts.old ≡ Some known
            → AreOfFiles known self.old.files self.old.rules.files
            → AreOfFiles known self.old.files self.new.rules.files }
        ensures kept { IfSome result (λ item. IfOk item (IsKept self.new.rules)) }
        ensures falls { MatchOption result (self.new.remaining ≤ self.old.remaining)
            (λ _. self.new.remaining < self.old.remaining) }
        ensures faults { IfSome result (λ item. IfErr item (FitsFiles self.old.files)) }
    {
        self.searcher.next(tree, texts)
    }

    /// How many units of work were charged: never more than the limit.
    pub fn spent(&self) -> u64
        ensures spent { result ≡ self.now.spent }
        ensures within { result ≤ self.now.limit }
    {
        self.searcher.spent()
    }
}
