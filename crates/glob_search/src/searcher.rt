//! The turns of a search.
//!
//! A search has a frame for each directory on the way down to where it is. A turn enters a directory, reads one of its
//! ignore files, meets one of its entries, or leaves it.
ghost use Rattle.std.specs.Prelude.{◌≡◌, ℕ, suc, ◌+◌, ◌≤◌, ◌<◌, ◌&&◌, ◌++◌, ◌∷◌, [], List, Option, None, Some, Bool, true, false, IsTrue, IsSome, OnOk, IfOk, IfErr, IfSome, MatchOption, map, unwrap_or, string_bytes, length, ⊤};
ghost use Rattle.std.specs.Option.{ForSome};
ghost use Rattle.std.specs.List.{list_all};
ghost use Rattle.glob_text.specs.Text.{Text};
ghost use Rattle.glob_tree.specs.Answers.{IsTold};
ghost use Rattle.glob_tree.specs.Content.{Content, Key, is_content, is_dir, kind_found};
ghost use Rattle.glob_tree.specs.Paths.{is_proper};
ghost use Rattle.glob_tree.specs.declared.kind.Kind.{Kind};
ghost use Rattle.glob_search.specs.Aims.{AreTextsOf, aim_of, path_of, wants};
ghost use Rattle.glob_search.specs.Refusals.{AreSearchable, RefusesPatterns};
ghost use Rattle.glob_search.specs.Searching.{Aim, is_ignored};
ghost use Rattle.glob_search.specs.Visiting.{Gift, gifts};
ghost use Rattle.glob_search.specs.Private.Engine.{AreAnswers, GoesOn, HasWork, IsKindless, IsReading, Turns, file_names, found_if, work_left};
ghost use Rattle.glob_search.specs.States.{is_last};
ghost use Rattle.glob_search.specs.Private.Faults.{IsOfRules};
ghost use Rattle.glob_search.specs.Kept.{AreOfFiles, IsKept, is_ignored_by};
ghost use Rattle.glob_search.specs.Private.Active.{AreActive, AreSameLists, active_lists, rules_here};
ghost use Rattle.glob_search.specs.Private.Nodes.{AreBeginnings};
ghost use Rattle.glob_search.specs.Private.Order.{IsPastSearch, IsPastWork, TurnsLater};
ghost use Rattle.glob_search.specs.Private.Steps.{MayEnter};
ghost use Rattle.glob_search.specs.Private.Ways.{search_left};
ghost use Rattle.glob_search.specs.Private.Weights.{Takes, items_left, stock, way_weight, weight, work_stock, work_weight};

mod entering;

use crate::active::{ActiveRules, FileRules};
use crate::beginnings::Beginnings;
use crate::entries::look_at;
use crate::fault::SearchFault;
use crate::found::Found;
use crate::frame::Opening;
use crate::meter::Meter;
use crate::rule_texts::{RuleTexts, read_list};
use crate::settings::{Settings, Wanted};
use crate::way::{Way, Work};
use glob_set::SetRefusal;
use glob_tree::{Entry, Tree, child};
use std::alloc::{AllocError, Allocator};

/// What a search keeps between its turns.
#[derive(Drop)]
pub struct Searcher<A: Allocator> {
    beginnings: Beginnings<A>,
    depth: usize,
    wanted: Wanted,
    kinds: bool,
    rule_files: Vec<String<A>, A>,
    active: ActiveRules<A>,
    meter: Meter,
    way: Way<A>,
    alloc: A,
}

impl<A: Allocator + Copy> Searcher<A> {
    ghost use Rattle.glob_search.specs.Private.Finding.{state_of};
    ghost use Rattle.glob_search.specs.Private.Ways.{IsDone};
    ghost use Rattle.glob_search.specs.States.{Ends, FitsFiles, GivesNext, GoesAfter, HasGiven, IsBegun, IsPaid};

    /// A search that has asked nothing.
    pub fn new(alloc: A, patterns: &[&str], settings: Settings<A>) -> Result<Self, SetRefusal>
        ensures begun { IfOk result (λ s. IsBegun settings (state_of s)) }
        ensures fresh { IfOk result (λ s. (c : Content) (known : Text → Option Text)
            → IsTrue (is_content c)
            → let a = aim_of (map (λ p. p.now) patterns.now) settings known in
            HasGiven (gifts c a) c a known [] (state_of s)) }
        ensures past { IfOk result (λ s. IsPastSearch [] s) }
        ensures patterns { IfOk result (λ s. AreBeginnings settings.options
            (map (λ p. p.now) patterns.now) s.beginnings) }
        ensures few { IfOk result (λ s. items_left s.meter s.way ≤ settings.limit + 1) }
        ensures accepted { IfOk result (λ _. AreSearchable (map (λ p. p.now) patterns.now)) }
        ensures refused { IfErr result (RefusesPatterns (map (λ p. p.now) patterns.now)) }
    {
        let Settings {
            options,
            depth,
            wanted,
            kinds,
            limit,
            first,
            last,
            rule_files,
        } = settings;
        let beginnings = Beginnings::of(alloc, patterns, options)?;
        let path = String::from_str(alloc, ".")?;
        let alive = beginnings.at_start()?;
        let entering = if depth > 0 {
            Some(Opening { path, alive })
        } else {
            None
        };
        let active = ActiveRules::of_lists(alloc, first, last)?;
        Ok(Searcher {
            beginnings,
            depth,
            wanted,
            kinds,
            rule_files,
            active,
            meter: Meter { limit, spent: 0 },
            way: Way {
                entering,
                frames: Vec::new(alloc),
            },
            alloc,
        })
    }

    /// The next path that is found, or what could not be done.
    pub fn next<T: Tree<Alloc = A>, R: RuleTexts<Alloc = A>>(
        &mut self,
        tree: &mut T,
        texts: &mut R,
    ) -> Option<Result<Found<A>, SearchFault<A>>>
        ensures limit { self.new.meter.limit ≡ self.old.meter.limit }
        ensures depth { self.new.depth ≡ self.old.depth }
        ensures spent { self.old.meter.spent ≤ self.new.meter.spent }
        ensures ends { Ends result (IsDone self.new.way) }
        ensures stays { IsDone self.old.way → (result ≡ None) × IsDone self.new.way }
        ensures files { self.new.rule_files ≡ self.old.rule_files }
        ensures beginnings { self.new.beginnings ≡ self.old.beginnings }
        ensures lists { AreSameLists self.old.active self.new.active }
        ensures read { (known : Text → Option Text) → R.texts texts.old ≡ Some known
            → AreOfFiles known (file_names self.old) (active_lists self.old.active.files.items)
            → AreOfFiles known (file_names self.old) (active_lists self.new.active.files.items) }
        ensures kinds { self.new.kinds ≡ self.old.kinds }
        ensures content { T.tells tree.new ≡ T.tells tree.old }
        ensures texts { R.texts texts.new ≡ R.texts texts.old }
        ensures gives { (c : Content) (a : Aim) (known : Text → Option Text)
            → AreAnswers (T.tells tree.old) (R.texts texts.old) (file_names self.old) c a known
            → (all given : List Gift) → HasGiven all c a known given (state_of self.old)
            → GivesNext all c a known given result (state_of self.new) }
        ensures ascends { (past : Key) → IsPastSearch past self.old
            → GoesAfter past result (state_of self.new) }
        ensures kept { IfSome result
            (λ item. IfOk item (IsKept (rules_here self.new.active))) }
        ensures known { self.old.kinds ≡ true
            → IfSome result (λ item. IfOk item (λ found. IsSome found.is_dir)) }
        ensures asked { MatchOption result
            (T.asks tree.new + self.old.meter.spent ≤ T.asks tree.old + self.new.meter.spent)
            (λ item. IsPaid item (T.asks tree.old) (T.asks tree.new)
            self.old.meter.spent self.new.meter.spent) }
        ensures falls { MatchOption result
            (items_left self.new.meter self.new.way ≤ items_left self.old.meter self.old.way)
            (λ _. items_left self.new.meter self.new.way
            < items_left self.old.meter self.old.way) }
        ensures faults { IfSome result (λ item. IfErr item (FitsFiles (file_names self.old))) }
    {
        while let Some(work) = self.way.next(self.rule_files.as_slice()) {
            match self.turn(work, tree, texts) {
                Ok(None) => {}
                Ok(Some(found)) => return Some(Ok(found)),
                Err(fault) => {
                    if fault.is_last() {
                        self.end();
                    }
                    return Some(Err(fault));
                }
            }
        }
        None
    }

    /// How many units of work were charged.
    pub fn spent(&self) -> u64
        ensures spent { result ≡ self.now.meter.spent }
        ensures within { result ≤ self.now.meter.limit }
    {
        self.meter.spent
    }

    /// Drops what is left, after the last fault.
    fn end(&mut self)
        ensures meter { self.new.meter ≡ self.old.meter }
        ensures depth { self.new.depth ≡ self.old.depth }
        ensures done { IsDone self.new.way }
        ensures files { self.new.rule_files ≡ self.old.rule_files }
        ensures beginnings { self.new.beginnings ≡ self.old.beginnings }
        ensures active { self.new.active ≡ self.old.active }
        ensures kinds { self.new.kinds ≡ self.old.kinds }
    {
        self.way = Way {
            entering: None,
            frames: Vec::new(self.alloc),
        };
    }

    /// One turn, which may find a path.
    fn turn<T: Tree<Alloc = A>, R: RuleTexts<Alloc = A>>(
        &mut self,
        work: Work<A>,
        tree: &mut T,
        texts: &mut R,
    ) -> Result<Option<Found<A>>, SearchFault<A>>
        ensures limit { self.new.meter.limit ≡ self.old.meter.limit }
        ensures depth { self.new.depth ≡ self.old.depth }
        ensures spent { self.old.meter.spent ≤ self.new.meter.spent }
        ensures falls { OnOk result (weight self.new.meter self.new.way
            < weight self.old.meter self.old.way + work_weight work) }
        ensures files { self.new.rule_files ≡ self.old.rule_files }
        ensures beginnings { self.new.beginnings ≡ self.old.beginnings }
        ensures lists { AreSameLists self.old.active self.new.active }
        ensures read { (known : Text → Option Text) → R.texts texts.old ≡ Some known
            → AreOfFiles known (file_names self.old) (active_lists self.old.active.files.items)
            → AreOfFiles known (file_names self.old) (active_lists self.new.active.files.items) }
        ensures kinds { self.new.kinds ≡ self.old.kinds }
        ensures content { T.tells tree.new ≡ T.tells tree.old }
        ensures texts { R.texts texts.new ≡ R.texts texts.old }
        ensures turns { (c : Content) (a : Aim) (known : Text → Option Text)
            → AreAnswers (T.tells tree.old) (R.texts texts.old) (file_names self.old) c a known
            → HasWork c a known self.old work
            → Turns c a known (work_left c a self.old work ++ search_left c a self.old)
            result self.new }
        ensures later { (past : Key) → IsPastWork self.old.beginnings past work self.old.way
            → TurnsLater self.old.beginnings past result self.new.way }
        ensures kept { IfOk result (λ o. ForSome o (IsKept (rules_here self.new.active))) }
        ensures known { self.old.kinds ≡ true
            → IfOk result (λ o. ForSome o (λ found. IsSome found.is_dir)) }
        ensures asked { IsPaid result (T.asks tree.old) (T.asks tree.new)
            self.old.meter.spent self.new.meter.spent }
        ensures takes { Takes (stock self.old.meter self.old.way + work_stock work)
            (stock self.new.meter self.new.way) result }
        ensures faults { IfErr result (FitsFiles (file_names self.old)) }
    {
        match work {
            Work::Enter(opening) => self.enter(tree, opening)?,
            Work::Read(number) => self.read_rules(texts, number)?,
            Work::Meet(entry) => return self.meet(tree, texts, entry),
            Work::Leave(active) => self.active.files.truncate(active),
        }
        Ok(None)
    }

    /// Meets an entry of the last directory. It may be found, and it may be entered next.
    fn meet<T: Tree<Alloc = A>, R: RuleTexts<Alloc = A>>(
        &mut self,
        tree: &mut T,
        texts: &mut R,
        entry: Entry<A>,
    ) -> Result<Option<Found<A>>, SearchFault<A>>
        ensures limit { self.new.meter.limit ≡ self.old.meter.limit }
        ensures depth { self.new.depth ≡ self.old.depth }
        ensures spent { self.old.meter.spent ≤ self.new.meter.spent }
        ensures falls { OnOk result (weight self.new.meter self.new.way
            ≤ weight self.old.meter self.old.way + 1) }
        ensures files { self.new.rule_files ≡ self.old.rule_files }
        ensures beginnings { self.new.beginnings ≡ self.old.beginnings }
        ensures active { self.new.active ≡ self.old.active }
        ensures kinds { self.new.kinds ≡ self.old.kinds }
        ensures content { T.tells tree.new ≡ T.tells tree.old }
        ensures texts { R.texts texts.new ≡ R.texts texts.old }
        ensures turns { (c : Content) (a : Aim) (known : Text → Option Text)
            → AreAnswers (T.tells tree.old) (R.texts texts.old) (file_names self.old) c a known
            → HasWork c a known self.old (Work.Meet entry)
            → Turns c a known (work_left c a self.old (Work.Meet entry) ++ search_left c a self.old)
            result self.new }
        ensures later { (past : Key)
            → IsPastWork self.old.beginnings past (Work.Meet entry) self.old.way
            → TurnsLater self.old.beginnings past result self.new.way }
        ensures kept { IfOk result (λ o. ForSome o (IsKept (rules_here self.new.active))) }
        ensures known { self.old.kinds ≡ true
            → IfOk result (λ o. ForSome o (λ found. IsSome found.is_dir)) }
        ensures asked { IsPaid result (T.asks tree.old) (T.asks tree.new)
            self.old.meter.spent self.new.meter.spent }
        ensures frames { OnOk result (self.new.way.frames ≡ self.old.way.frames) }
        ensures last { IfErr result (λ fault. is_last fault ≡ true) }
    {
        let Some(frame) = self.way.frames.last() else {
            return Ok(None);
        };
        let alive = self
            .beginnings
            .after(frame.alive.as_slice(), entry.name.as_str())?;
        let is_found = self.beginnings.is_found(alive.as_slice());
        let goes_on = self.way.frames.len() < self.depth
            && self.beginnings.goes_on(alive.as_slice());
        if !is_found && !goes_on {
            return Ok(None);
        }
        let known = frame.kind_of(&entry);
        let may_enter = known.unwrap_or(true);
        if !is_found && !may_enter {
            return Ok(None);
        }
        let path = child(self.alloc, frame.path.as_str(), entry.name.as_str())?;
        let is_dir = self.kind_at(tree, path.as_str(), known, goes_on)?;
        if self.is_left_out(texts, path.as_str(), is_dir.unwrap_or(false))? {
            return Ok(None);
        }
        self.take(path, alive, is_dir, is_found, goes_on)
    }

    /// Whether the entry at a path is a directory; `None` if that is unknown and does not matter.
    fn kind_at<T: Tree<Alloc = A>>(
        &mut self,
        tree: &mut T,
        path: &str,
        known: Option<bool>,
        goes_on: bool,
    ) -> Result<Option<bool>, SearchFault<A>>
        ensures limit { self.new.meter.limit ≡ self.old.meter.limit }
        ensures spent { self.old.meter.spent ≤ self.new.meter.spent }
        ensures same { self.new ≡ record self.old { meter = self.new.meter } }
        ensures content { T.tells tree.new ≡ T.tells tree.old }
        ensures kind { (c : Content) (kind : Kind) → IsTold (T.tells tree.old) c
            → kind_found c path.now ≡ Some kind → ForSome known (λ d. d ≡ is_dir kind)
            → IfOk result (λ learned. ForSome learned (λ d. d ≡ is_dir kind)) }
        ensures known { self.old.kinds ≡ true → IfOk result (λ learned. IsSome learned) }
        ensures asked { IsPaid result (T.asks tree.old) (T.asks tree.new)
            self.old.meter.spent self.new.meter.spent }
        ensures matters { IfOk result
            (λ learned. learned ≡ None → (goes_on ≡ false) × IsKindless self.old path.now) }
        ensures last { IfErr result (λ fault. is_last fault ≡ true) }
    {
        if known.is_some() || !(goes_on || self.needs_kind(path)?) {
            return Ok(known);
        }
        let seen = look_at(&mut self.meter, tree, path)?;
        Ok(Some(seen.is_dir()))
    }

    /// Whether the rules ignore a path, or the caller leaves it out.
    fn is_left_out<R: RuleTexts<Alloc = A>>(
        &self,
        texts: &mut R,
        path: &str,
        is_dir: bool,
    ) -> Result<bool, AllocError>
        ensures texts { R.texts texts.new ≡ R.texts texts.old }
        ensures out { (a : Aim) (known : Text → Option Text) (directory : Key) (n : Text)
            → R.texts texts.old ≡ Some known → AreActive a directory self.now.active
            → IsTrue (list_all is_proper (directory ++ n ∷ []))
            → path.now ≡ path_of (directory ++ n ∷ [])
            → IfOk result (λ out. out ≡ is_ignored a (directory ++ n ∷ []) is_dir) }
        ensures read { IfOk result (λ out. out ≡ false
            → is_ignored_by (rules_here self.now.active) path.now is_dir ≡ false) }
    {
        if self.active.ignores(self.alloc, path, is_dir)? {
            return Ok(true);
        }
        texts.leaves_out(path, is_dir)
    }

    /// Finds an entry, if it is wanted, and enters it next, if it is a directory and patterns go on.
    fn take(
        &mut self,
        path: String<A>,
        alive: Vec<usize, A>,
        is_dir: Option<bool>,
        is_found: bool,
        goes_on: bool,
    ) -> Result<Option<Found<A>>, SearchFault<A>>
        ensures same { self.new ≡ record self.old { way = self.new.way } }
        ensures weight { way_weight self.new.way ≤ way_weight self.old.way + 1 }
        ensures enters { OnOk result (MayEnter (goes_on && unwrap_or is_dir false)
            (string_bytes path) alive.items self.old.way self.new.way) }
        ensures finds { IfOk result (λ found. found ≡ found_if
            (is_found && wants self.old.wanted (unwrap_or is_dir false)) path is_dir) }
        ensures last { IfErr result (λ fault. is_last fault ≡ true) }
    {
        let enters = is_dir.unwrap_or(false);
        self.way.enter_if(goes_on && enters, &path, alive)?;
        if is_found && self.wanted.takes(enters) {
            return Ok(Some(Found { path, is_dir }));
        }
        Ok(None)
    }

    /// Whether the kind of what is found at a path matters: to the caller, or to the rules.
    fn needs_kind(&self, path: &str) -> Result<bool, AllocError>
        ensures kindless { IfOk result (λ needed. needed ≡ false → IsKindless self.now path.now) }
        ensures kinds { self.now.kinds ≡ true → IfOk result (λ needed. needed ≡ true) }
    {
        if self.kinds || self.wanted != Wanted::All {
            return Ok(true);
        }
        let ignores_directory = self.active.ignores(self.alloc, path, true)?;
        let ignores_file = self.active.ignores(self.alloc, path, false)?;
        Ok(ignores_directory != ignores_file)
    }

    /// Reads, in the last directory, the ignore file with the name at index `number`.
    fn read_rules<R: RuleTexts<Alloc = A>>(
        &mut self,
        texts: &mut R,
        number: usize,
    ) -> Result<(), SearchFault<A>>
        ensures way { self.new.way ≡ self.old.way }
        ensures limit { self.new.meter.limit ≡ self.old.meter.limit }
        ensures depth { self.new.depth ≡ self.old.depth }
        ensures spent { self.old.meter.spent ≤ self.new.meter.spent }
        ensures charged { OnOk result (self.old.meter.spent < self.new.meter.spent) }
        ensures files { self.new.rule_files ≡ self.old.rule_files }
        ensures beginnings { self.new.beginnings ≡ self.old.beginnings }
        ensures lists { AreSameLists self.old.active self.new.active }
        ensures read { (known : Text → Option Text) → R.texts texts.old ≡ Some known
            → AreOfFiles known (file_names self.old) (active_lists self.old.active.files.items)
            → AreOfFiles known (file_names self.old) (active_lists self.new.active.files.items) }
        ensures kinds { self.new.kinds ≡ self.old.kinds }
        ensures texts { R.texts texts.new ≡ R.texts texts.old }
        ensures reads { (c : Content) (a : Aim) (known : Text → Option Text)
            → IsTrue (is_content c) → R.texts texts.old ≡ Some known
            → AreTextsOf c a (file_names self.old) known
            → HasWork c a known self.old (Work.Read number)
            → GoesOn c a known (search_left c a self.old) result self.new }
        ensures paid { IfErr result (λ fault. is_last fault ≡ false
            → self.old.meter.spent < self.new.meter.spent) }
        ensures fails { IfErr result (IsOfRules (file_names self.old)) }
    {
        self.meter.charge(1)?;
        let Some(frame) = self.way.frames.last() else {
            return Ok(());
        };
        let Some(name) = self.rule_files.get(number) else {
            return Ok(());
        };
        let path = child(self.alloc, frame.path.as_str(), name.as_str())?;
        let above = path.len().saturating_sub(name.len());
        let Some((list, refusals)) = read_list(self.alloc, texts, path.as_str())? else {
            return Ok(());
        };
        self.active.files.push(FileRules { above, list })?;
        if refusals.is_empty() {
            return Ok(());
        }
        Err(SearchFault::RefusedRules(path, refusals))
    }
}
