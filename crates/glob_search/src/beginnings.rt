//! The beginnings of patterns, as a tree: what a search still has to match below a directory.
//!
//! A beginning is the first components of some patterns. It is a node of the tree, and leads to beginnings with one
//! more component. In a directory, a beginning is alive if it takes the names of the directory's path: in `src` these
//! are `src` and `src/**`, in `src/a` only `src/**`. Nothing else of the patterns matters there.
ghost use Rattle.std.specs.Prelude.{◌≡◌, ◌<◌, vec_len, IfErr, IfOk, false, not, map, [], ◌∷◌, ◌++◌};
ghost use Rattle.std.specs.Cmp.Lexicographic.{slice_cmp};
ghost use Rattle.std.specs.List.{All, AllPairs, list_any};
ghost use Rattle.std.specs.Ordering.{nat_cmp};
ghost use Rattle.std.specs.declared.cmp.Ordering.TheVariants.{Less};
ghost use Rattle.glob_set.specs.Sets.{refusal_of};
ghost use Rattle.glob_search.specs.Private.NodeNumbers.{IsWithin};
ghost use Rattle.glob_search.specs.Refusals.{AreSearchable, RefusesPatterns};

mod growing;
mod node;

use glob_pattern::{MatchOptions, Pattern, PatternRefusal};
use glob_set::{PatternSet, SetRefusal};
use glob_tree::begins_with_dot;
use node::{Component, Node};
use std::alloc::{AllocError, Allocator};

/// The beginnings of some patterns, and how names are matched. The first is the empty one, the root of the tree.
#[derive(Drop)]
pub struct Beginnings<A: Allocator> {
    nodes: Vec<Node<A>, A>,
    options: MatchOptions,
    alloc: A,
    ghost some: { 0 < vec_len nodes },
    ghost within: { All (IsWithin (vec_len nodes)) nodes.items },
}

impl<A: Allocator + Copy> Beginnings<A> {
    ghost use Rattle.glob_tree.specs.Content.{Key};
    ghost use Rattle.std.specs.Prelude.{ℕ, List, option_and_then, option_copied, slice_get};
    ghost use Rattle.std.specs.List.{list_all};
    ghost use Rattle.std.specs.Prelude.{flat_map, Some};
    ghost use Rattle.glob_text.specs.Text.{Text};
    ghost use Rattle.glob_pattern.specs.Matching.Components.{is_open};
    ghost use Rattle.glob_search.specs.Private.Nodes.{Adds, AreAlive, AreAscending, AreBeginnings, AreNames, Enlivens, IsTree, is_looked_up, node_goes_on, node_says, LiteralStep, literal_texts, Stays, Steps, StepsFrom, WildStep};
    ghost use Rattle.glob_search.specs.Searching.{Aim, alive as alive_in, goes_on as goes_on_in, is_listed, is_taken};

    /// The beginnings of some patterns. The error is the fault of the first faulty pattern: the fault of its whole text
    /// or, if that has none, of its first faulty component.
    pub fn of(alloc: A, patterns: &[&str], options: MatchOptions) -> Result<Self, SetRefusal>
        ensures beginnings { IfOk result (AreBeginnings options (map (λ p. p.now) patterns.now)) }
        ensures accepted { IfOk result (λ _. AreSearchable (map (λ p. p.now) patterns.now)) }
        ensures refused { IfErr result (RefusesPatterns (map (λ p. p.now) patterns.now)) }
    {
        let mut nodes = Vec::new(alloc);
        nodes.push(Node::new(alloc, false))?;
        let mut beginnings = Beginnings {
            nodes,
            options,
            alloc,
        };
        for (number, pattern) in patterns.iter().enumerate() {
            if let Err(refusal) = beginnings.add(pattern) {
                return Err(refusal_of(number, refusal));
            }
        }
        beginnings.gather()?;
        Ok(beginnings)
    }

    /// The beginnings that are alive in the start directory.
    pub fn at_start(&self) -> Result<Vec<usize, A>, AllocError>
        ensures alive { IfOk result (λ alive. AreAlive self.now [] alive.items) }
    {
        let mut alive = Vec::new(self.alloc);
        self.enliven(0, &mut alive)?;
        Ok(alive)
    }

    /// The beginnings that are alive after one more name.
    pub fn after(&self, alive: &[usize], name: &str) -> Result<Vec<usize, A>, AllocError>
        ensures alive { (names : Key) → AreAlive self.now names alive.now
            → IfOk result (λ next. AreAlive self.now (names ++ name.now ∷ []) next.items) }
    {
        if self.options.case_sensitive {
            return self.after_key(alive, name, name);
        }
        let key = name.to_ascii_lowercase(self.alloc)?;
        self.after_key(alive, name, key.as_str())
    }

    /// The same, also given the text by which the name is compared with literals.
    fn after_key(&self, alive: &[usize], name: &str, key: &str) -> Result<Vec<usize, A>, AllocError>
        ensures { (front : ℕ → List Text) → IsTree self.now.options self.now.nodes.items front
            → IfOk result (λ next. Adds (StepsFrom self.now.nodes.items self.now.options
            name.now key.now alive.now) [] next.items) }
    {
        let mut next = Vec::new(self.alloc);
        for number in alive {
            self.step(*number, name, key, &mut next)?;
        }
        next.sort_unstable();
        next.dedup();
        Ok(next)
    }

    /// Adds the beginnings that a name leads to from one beginning.
    fn step(
        &self,
        number: usize,
        name: &str,
        key: &str,
        next: &mut Vec<usize, A>,
    ) -> Result<(), AllocError>
        ensures { (front : ℕ → List Text) → IsTree self.now.options self.now.nodes.items front
            → IfOk result (λ _. Adds (Steps self.now.nodes.items self.now.options
            name.now key.now number) next.old.items next.new.items) }
    {
        let Some(node) = self.node(number) else {
            return Ok(());
        };
        self.stay(number, node, name, next)?;
        self.step_literal(node, key, next)?;
        self.step_wild(node, name, next)
    }

    /// Adds the beginning itself, if it ends in a `**` that may take the name.
    fn stay(
        &self,
        number: usize,
        node: &Node<A>,
        name: &str,
        next: &mut Vec<usize, A>,
    ) -> Result<(), AllocError>
        ensures { IfOk result
            (λ _. Adds (Stays self.now.options name.now node.now number) next.old.items
            next.new.items) }
    {
        if node.is_deep && self.is_open(name) {
            next.push(number)?;
        }
        Ok(())
    }

    /// Adds what the literal with this key leads to, if there is one.
    fn step_literal(
        &self,
        node: &Node<A>,
        key: &str,
        next: &mut Vec<usize, A>,
    ) -> Result<(), AllocError>
        ensures { AreAscending node.now.literals.items → IfOk result
            (λ _. Adds (LiteralStep self.now.nodes.items key.now node.now) next.old.items
            next.new.items) }
    {
        if let Some(node) = node.literal_leads(key) {
            self.enliven(node, next)?;
        }
        Ok(())
    }

    /// Adds the beginnings that matching components with wildcards lead to.
    fn step_wild(
        &self,
        node: &Node<A>,
        name: &str,
        next: &mut Vec<usize, A>,
    ) -> Result<(), AllocError>
        ensures { IfOk result (λ _. Adds (WildStep self.now.nodes.items self.now.options
            name.now node.now.wilds.items) next.old.items next.new.items) }
    {
        match &node.set {
            Some(set) if set.options() == self.options => self.step_set(set, node, name, next),
            _ => self.step_each(node, name, next),
        }
    }

    /// The same, asking the components one by one.
    fn step_each(
        &self,
        node: &Node<A>,
        name: &str,
        next: &mut Vec<usize, A>,
    ) -> Result<(), AllocError>
        ensures { IfOk result (λ _. Adds (WildStep self.now.nodes.items self.now.options
            name.now node.now.wilds.items) next.old.items next.new.items) }
    {
        for wild in node.wilds.iter() {
            if wild.pattern.matches_with(name, self.options)? {
                self.enliven(wild.node, next)?;
            }
        }
        Ok(())
    }

    /// The same, with the components as a set, which is asked once.
    fn step_set(
        &self,
        set: &PatternSet<A>,
        node: &Node<A>,
        name: &str,
        next: &mut Vec<usize, A>,
    ) -> Result<(), AllocError>
        ensures { set.now.options ≡ self.now.options
            → set.now.patterns ≡ map (λ w. w.pattern) node.now.wilds.items
            → IfOk result (λ _. Adds (WildStep self.now.nodes.items self.now.options
            name.now node.now.wilds.items) next.old.items next.new.items) }
    {
        let mut numbers = Vec::new(self.alloc);
        set.matches_into(name, &mut numbers)?;
        for number in numbers.iter() {
            if let Some(wild) = node.wilds.get(*number) {
                self.enliven(wild.node, next)?;
            }
        }
        Ok(())
    }

    /// Adds a beginning, and the beginning that `**` leads to from there, since `**` may take no name.
    fn enliven(&self, number: usize, alive: &mut Vec<usize, A>) -> Result<(), AllocError>
        ensures { IfOk result (λ _. Adds (Enlivens self.now.nodes.items number)
            alive.old.items alive.new.items) }
    {
        alive.push(number)?;
        if let Some(deep) = self.deep_of(number) {
            alive.push(deep)?;
        }
        Ok(())
    }

    /// The beginning that `**` leads to from this one, if there is one.
    fn deep_of(&self, number: usize) -> Option<usize>
        ensures { result ≡ option_and_then
            (λ node. node.deep) (slice_get self.now.nodes.items number) }
    {
        self.node(number)?.deep
    }

    /// The node of a beginning.
    fn node(&self, number: usize) -> Option<&Node<A>>
        ensures { option_copied result ≡ slice_get self.now.nodes.items number }
    {
        self.nodes.get(number)
    }

    /// Whether the dot rule lets `**` take the name.
    fn is_open(&self, name: &str) -> bool
        ensures { result ≡ is_open self.now.options name.now }
    {
        !self.options.require_literal_leading_dot || !begins_with_dot(name)
    }

    /// Whether one of these beginnings is a whole pattern.
    pub fn is_found(&self, alive: &[usize]) -> bool
        ensures found { (a : Aim) (names : Key) → AreBeginnings a.options a.patterns self.now
            → AreAlive self.now names alive.now → result ≡ is_taken a names }
    {
        self.has_whole(alive)
    }

    fn has_whole(&self, alive: &[usize]) -> bool
        ensures { result
            ≡ list_any (node_says (λ node. node.is_whole) self.now.nodes.items) alive.now }
    {
        alive.iter().any(|number| self.is_whole(*number))
    }

    fn is_whole(&self, number: usize) -> bool
        ensures { result ≡ node_says (λ node. node.is_whole) self.now.nodes.items number }
    {
        matches!(self.node(number), Some(node) if node.is_whole)
    }

    /// Whether one of these beginnings leads to another.
    pub fn goes_on(&self, alive: &[usize]) -> bool
        ensures goes_on { (a : Aim) (names : Key) → AreBeginnings a.options a.patterns self.now
            → AreAlive self.now names alive.now → result ≡ goes_on_in a names }
    {
        self.has_further(alive)
    }

    fn has_further(&self, alive: &[usize]) -> bool
        ensures { result ≡ list_any (node_says node_goes_on self.now.nodes.items) alive.now }
    {
        alive.iter().any(|number| self.is_further(*number))
    }

    fn is_further(&self, number: usize) -> bool
        ensures { result ≡ node_says node_goes_on self.now.nodes.items number }
    {
        matches!(self.node(number), Some(node) if node.goes_on())
    }

    /// Whether these beginnings lead on only by literal names, which can be looked up as they are.
    pub fn is_literal(&self, alive: &[usize]) -> bool
        ensures unlisted { (a : Aim) (names : Key) → AreBeginnings a.options a.patterns self.now
            → AreAlive self.now names alive.now → result ≡ not (is_listed a names) }
    {
        self.are_looked_up(alive)
    }

    fn are_looked_up(&self, alive: &[usize]) -> bool
        ensures { result
            ≡ list_all (node_says (is_looked_up self.now.options) self.now.nodes.items) alive.now }
    {
        alive.iter().all(|number| self.is_looked_up(*number))
    }

    /// Whether a beginning leads on only by literal names, which can be looked up as they are.
    fn is_looked_up(&self, number: usize) -> bool
        ensures { result ≡ node_says (is_looked_up self.now.options) self.now.nodes.items number }
    {
        let Some(node) = self.node(number) else {
            return false;
        };
        node.is_literal() && (self.options.case_sensitive || node.literals.is_empty())
    }

    /// Whether a directory may have to be entered whose name is not a literal of these beginnings.
    pub fn enters_many(&self, alive: &[usize]) -> bool {
        alive.iter().any(
            |number| matches!(self.nodes.get(*number), Some(node) if self.leads_on(node)),
        )
    }

    /// Whether `**` or a component with wildcards leads from a node to a node that leads on.
    fn leads_on(&self, node: &Node<A>) -> bool {
        node.is_deep
            || node.wilds.iter().any(
                |wild| matches!(self.nodes.get(wild.node), Some(node) if node.goes_on()),
            )
    }

    /// The literal names by which these beginnings lead on, in ascending order.
    pub fn literal_names(&self, alive: &[usize]) -> Result<Vec<&str, A>, AllocError>
        ensures names { (a : Aim) (names : Key) → AreBeginnings a.options a.patterns self.now
            → AreAlive self.now names alive.now → is_listed a names ≡ false
            → IfOk result (λ texts. AreNames (map (λ t. t.now) texts.items) (alive_in a names)) }
        ensures ascend { IfOk result (λ texts.
            AllPairs (λ s t. slice_cmp nat_cmp s t ≡ Less) (map (λ t. t.now) texts.items)) }
    {
        let mut names = self.literals_of(alive)?;
        names.sort_unstable();
        names.dedup();
        Ok(names)
    }

    /// The literal names by which these beginnings lead on, in no particular order.
    fn literals_of(&self, alive: &[usize]) -> Result<Vec<&str, A>, AllocError>
        ensures { IfOk result (λ texts. map (λ t. t.now) texts.items
            ≡ flat_map (literal_texts self.now.nodes.items) alive.now) }
    {
        let mut names = Vec::new(self.alloc);
        for number in alive {
            if let Some(node) = self.node(*number) {
                for literal in node.literals.iter() {
                    names.push(literal.text.as_str())?;
                }
            }
        }
        Ok(names)
    }
}

/// The error for the pattern at index `number`.
fn refusal_of(number: usize, refusal: PatternRefusal) -> SetRefusal
    ensures { result ≡ refusal_of number refusal }
{
    match refusal {
        PatternRefusal::Syntax(error) => SetRefusal::Syntax(number, error),
        PatternRefusal::Memory => SetRefusal::Memory,
    }
}
