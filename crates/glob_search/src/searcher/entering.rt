//! How a directory is entered.
ghost use Rattle.std.specs.Prelude.{◌≡◌, ◌+◌, ◌*◌, ◌≤◌, ◌<◌, ◌++◌, Option, Some, Bool, true, IsTrue, OnOk, IfOk, IfErr, false, string_bytes, vec_len};
ghost use Rattle.glob_text.specs.Text.{Text};
ghost use Rattle.glob_tree.specs.Answers.{IsTold};
ghost use Rattle.glob_tree.specs.Content.{Content, Key, is_dir_at};
ghost use Rattle.glob_search.specs.Aims.{path_of};
ghost use Rattle.glob_search.specs.Searching.{Aim};
ghost use Rattle.glob_search.specs.Private.Engine.{EntriesGive, FitsSource, GoesOn, HasWork, StepsInto};
ghost use Rattle.glob_search.specs.States.{IsPaid, is_last};
ghost use Rattle.glob_search.specs.Private.Faults.{IsOfListing};
ghost use Rattle.glob_search.specs.Private.Listings.{AreFalling};
ghost use Rattle.glob_search.specs.Private.Nodes.{AreAlive, AreBeginnings};
ghost use Rattle.glob_search.specs.Private.Order.{IsPastWork, StaysPast};
ghost use Rattle.glob_search.specs.Private.Ways.{opening_left, search_left};
ghost use Rattle.glob_search.specs.Private.Weights.{stock, unmet, way_weight, weight};
ghost use Rattle.glob_search.specs.declared.way.Work.TheVariants.{Enter};

use crate::entries::{list, look_up};
use crate::fault::SearchFault;
use crate::frame::{Frame, Opening, Source};
use crate::searcher::Searcher;
use glob_tree::{Entry, Tree};
use std::alloc::Allocator;

impl<A: Allocator + Copy> Searcher<A> {
    /// Enters a directory: learns its entries, and makes it the last one.
    pub(super) fn enter<T: Tree<Alloc = A>>(
        &mut self,
        tree: &mut T,
        opening: Opening<A>,
    ) -> Result<(), SearchFault<A>>
        ensures limit { self.new.meter.limit ≡ self.old.meter.limit }
        ensures depth { self.new.depth ≡ self.old.depth }
        ensures spent { self.old.meter.spent ≤ self.new.meter.spent }
        ensures falls { OnOk result (weight self.new.meter self.new.way
            ≤ weight self.old.meter self.old.way) }
        ensures files { self.new.rule_files ≡ self.old.rule_files }
        ensures beginnings { self.new.beginnings ≡ self.old.beginnings }
        ensures active { self.new.active ≡ self.old.active }
        ensures kinds { self.new.kinds ≡ self.old.kinds }
        ensures asked { IsPaid result (T.asks tree.old) (T.asks tree.new)
            self.old.meter.spent self.new.meter.spent }
        ensures content { T.tells tree.new ≡ T.tells tree.old }
        ensures enters { (c : Content) (a : Aim) (known : Text → Option Text)
            → IsTold (T.tells tree.old) c → HasWork c a known self.old (Enter opening)
            → GoesOn c a known (opening_left c a (Some opening) ++ search_left c a self.old)
            result self.new }
        ensures stock { OnOk result (stock self.new.meter self.new.way
            ≤ stock self.old.meter self.old.way) }
        ensures stays { IfErr result (λ fault. is_last fault ≡ false
            → self.new.way ≡ self.old.way) }
        ensures fails { IfErr result (IsOfListing self.old.meter.spent self.new.meter.spent) }
        ensures later { (past : Key)
            → IsPastWork self.old.beginnings past (Enter opening) self.old.way
            → StaysPast self.old.beginnings past result self.new.way }
    {
        let source = self.source_of(&opening);
        let entries = self.entries(tree, &opening, source)?;
        self.step_into(opening, source, entries)
    }

    /// Makes a directory the last one, unless it has no entries.
    fn step_into(
        &mut self,
        opening: Opening<A>,
        source: Source,
        entries: Vec<Entry<A>, A>,
    ) -> Result<(), SearchFault<A>>
        ensures same { self.new ≡ record self.old { way = self.new.way } }
        ensures none { vec_len entries ≡ 0 → self.new.way ≡ self.old.way }
        ensures weight { way_weight self.new.way
            ≤ way_weight self.old.way + (2 * vec_len entries + 1) }
        ensures unmet { unmet self.new.way ≤ unmet self.old.way + vec_len entries }
        ensures some { OnOk result (0 < vec_len entries
            → StepsInto opening source entries self.old self.new) }
        ensures last { IfErr result (λ fault. is_last fault ≡ true) }
    {
        if entries.is_empty() {
            return Ok(());
        }
        let active = self.active.files.len();
        let Opening { path, alive } = opening;
        self.way.frames.push(Frame {
            path,
            alive,
            source,
            entries,
            files: 0,
            active,
        })?;
        Ok(())
    }

    /// How to learn the entries of a directory. If only literals lead on, their names are looked up. Otherwise the
    /// directory is listed, with kinds only if the caller wants them or entries that wildcards take may be entered.
    fn source_of(&self, opening: &Opening<A>) -> Source
        ensures { (a : Aim) (names : Key) → AreBeginnings a.options a.patterns self.now.beginnings
            → AreAlive self.now.beginnings names opening.now.alive.items
            → FitsSource a names result }
    {
        let alive = opening.alive.as_slice();
        if self.beginnings.is_literal(alive) {
            return Source::LookedUp;
        }
        let enters = self.way.frames.len() + 1 < self.depth && self.beginnings.enters_many(alive);
        if enters || self.kinds {
            Source::Listed
        } else {
            Source::Named
        }
    }

    /// The entries of a directory, in descending order of names.
    fn entries<T: Tree<Alloc = A>>(
        &mut self,
        tree: &mut T,
        opening: &Opening<A>,
        source: Source,
    ) -> Result<Vec<Entry<A>, A>, SearchFault<A>>
        ensures same { self.new ≡ record self.old { meter = self.new.meter } }
        ensures limit { self.new.meter.limit ≡ self.old.meter.limit }
        ensures spent { self.old.meter.spent ≤ self.new.meter.spent }
        ensures charged { IfOk result (λ entries.
            self.old.meter.spent + vec_len entries ≤ self.new.meter.spent) }
        ensures asked { IsPaid result (T.asks tree.old) (T.asks tree.new)
            self.old.meter.spent self.new.meter.spent }
        ensures content { T.tells tree.new ≡ T.tells tree.old }
        ensures entries { (c : Content) (a : Aim) (names : Key) → IsTold (T.tells tree.old) c
            → IsTrue (is_dir_at c (c.current ++ names))
            → string_bytes opening.now.path ≡ path_of names
            → AreBeginnings a.options a.patterns self.old.beginnings
            → AreAlive self.old.beginnings names opening.now.alive.items → FitsSource a names source
            → EntriesGive c a names source (string_bytes opening.now.path) result }
        ensures falls { IfOk result (λ entries. AreFalling entries.items) }
        ensures fails { IfErr result (IsOfListing self.old.meter.spent self.new.meter.spent) }
    {
        match source {
            Source::LookedUp => {
                look_up(self.alloc, &mut self.meter, tree, &self.beginnings, opening)
            }
            Source::Listed | Source::Named => list(&mut self.meter, tree, opening, source),
        }
    }
}
