//! A node of the tree of beginnings.
ghost use Rattle.std.specs.Prelude.{◌≡◌, ◌<◌, ℕ, IfSome, map, vec_len};
ghost use Rattle.std.specs.List.Sorted.{IsBinarySearchResult, IsSearchInRange};
ghost use Rattle.std.specs.Option.{ForSome};

use glob_pattern::{MatchOptions, Pattern};
use glob_set::PatternSet;
use std::alloc::{AllocError, Allocator};

/// A component of a pattern.
#[derive(Drop)]
pub enum Component<A: Allocator> {
    /// A name; in lower case if matching is case-insensitive.
    Literal(String<A>),
    /// A component with wildcards, other than `**`.
    Wild(Pattern<A>),
    /// `**`.
    Deep,
}

impl<A: Allocator> Component<A> {
    ghost use Rattle.glob_search.specs.Private.NodeGrowth.{is_deep_component};

    /// Whether it is `**`.
    pub fn is_deep(&self) -> bool
        ensures { result ≡ is_deep_component self.now }
    {
        matches!(self, Component::Deep)
    }
}

/// A literal name, and where it leads.
#[derive(Drop)]
pub struct Literal<A: Allocator> {
    pub text: String<A>,
    /// The number of the beginning that it leads to.
    pub node: usize,
}

/// A component with wildcards, and where it leads.
#[derive(Drop)]
pub struct Wild<A: Allocator> {
    pub pattern: Pattern<A>,
    /// The number of the beginning that it leads to.
    pub node: usize,
}

/// A beginning, and the components by which it leads to others.
#[derive(Drop)]
pub struct Node<A: Allocator> {
    /// Literal components, in ascending order.
    pub literals: Vec<Literal<A>, A>,
    /// Components with wildcards, other than `**`.
    pub wilds: Vec<Wild<A>, A>,
    /// The number of the beginning that `**` leads to, if there is one.
    pub deep: Option<usize>,
    /// Whether it ends in `**`, and so takes any further name that the dot rule allows.
    pub is_deep: bool,
    /// Whether it is a whole pattern.
    pub is_whole: bool,
    /// The components with wildcards as a set, if there are many.
    pub set: Option<PatternSet<A>>,
    ghost gathered: { ForSome set (λ s. s.patterns ≡ map (λ w. w.pattern) wilds.items) },
}

/// The fewest components with wildcards that are kept as a set. Fewer are faster to ask one after another.
const FEWEST_IN_SET: usize = 9;

impl<A: Allocator + Copy> Node<A> {
    ghost use Rattle.std.specs.Prelude.{◌≢◌, ◌≤◌, ◌∷◌, ◌++◌, [], Contains, IfOk, List, None, false, string_bytes, true};
    ghost use Rattle.std.specs.List.{list_any};
    ghost use Rattle.glob_text.specs.Text.{Text};
    ghost use Rattle.glob_pattern.specs.Grammar.Characters.{is_wildcard};
    ghost use Rattle.glob_pattern.specs.Matching.Components.{is_recursive};
    ghost use Rattle.glob_pattern.specs.declared.options.MatchOptions.{MatchOptions};
    ghost use Rattle.glob_search.specs.Private.NodeGrowth.{FitsKind, IsFresh, IsGap, Led, LeadsMore, component_text, is_deep_component};
    ghost use Rattle.std.specs.Cmp.Lexicographic.{slice_cmp};
    ghost use Rattle.std.specs.Ordering.{nat_cmp};
    ghost use Rattle.glob_search.specs.Private.Nodes.{AreAscending, IsKey, IsNode, LeadsTo, LiteralLeads, has_only_literals, node_goes_on};
    ghost use Rattle.glob_search.specs.Private.NodeNumbers.{IsWithin};

    /// A beginning that leads to no other yet.
    pub fn new(alloc: A, is_deep: bool) -> Self
        ensures within { (n : ℕ) → IsWithin n result }
        ensures fresh { IsFresh is_deep result }
    {
        Node {
            literals: Vec::new(alloc),
            wilds: Vec::new(alloc),
            deep: None,
            is_deep,
            is_whole: false,
            set: None,
        }
    }

    /// The beginning that a component leads to, if there is one.
    pub fn led_to(&self, component: &Component<A>) -> Option<usize>
        ensures within { (n : ℕ) → IsWithin n self.now → IfSome result (λ node. node < n) }
        ensures led { AreAscending self.now.literals.items → Led self.now component.now result }
    {
        match component {
            Component::Literal(text) => self.literal_leads(text.as_str()),
            Component::Wild(pattern) => self.wild_leads(pattern.as_str()),
            Component::Deep => self.deep,
        }
    }

    /// The beginning that a name leads to, if there is one.
    pub fn literal_leads(&self, text: &str) -> Option<usize>
        ensures within { (n : ℕ) → IsWithin n self.now → IfSome result (λ node. node < n) }
        ensures led { AreAscending self.now.literals.items → LiteralLeads self.now text.now result }
    {
        match self.find_literal(text) {
            Ok(place) => Some(self.literals[place].node),
            Err(_) => None,
        }
    }

    /// The beginning that a component with wildcards leads to, if there is one.
    fn wild_leads(&self, text: &str) -> Option<usize>
        ensures within { (n : ℕ) → IsWithin n self.now → IfSome result (λ node. node < n) }
        ensures led { IfSome result (λ node. (w : Wild A) × Contains self.now.wilds.items w
            × (w.pattern ≡ text.now) × (w.node ≡ node)) }
    {
        for wild in self.wilds.iter() {
            if wild.pattern.as_str() == text {
                return Some(wild.node);
            }
        }
        None
    }

    /// The index of a literal component, or the index at which it belongs.
    fn find_literal(&self, text: &str) -> Result<usize, usize>
        ensures within { IsSearchInRange result (vec_len self.now.literals) }
        ensures place { IsBinarySearchResult (λ l. slice_cmp nat_cmp (string_bytes l.text) text.now)
            self.now.literals.items result }
    {
        self.literals
            .as_slice()
            .binary_search_by(|literal| literal.text.as_str().cmp(text))
    }

    /// Makes a component lead to a beginning.
    pub fn lead(&mut self, component: Component<A>, node: usize) -> Result<(), AllocError>
        ensures within { (n : ℕ) → node < n → IsWithin n self.old → IsWithin n self.new }
        ensures leads { (o : MatchOptions) (front : ℕ → List Text) (k : ℕ) → IsNode o
            front k self.old
            → FitsKind o component → Led self.old component None
            → (is_deep_component component ≡ true → self.old.is_deep ≡ false)
            → front node ≡ front k ++ component_text component ∷ []
            → IfOk result (λ _. LeadsMore o front k node self.old self.new) }
    {
        match component {
            Component::Literal(text) => self.lead_literal(text, node),
            Component::Wild(pattern) => self.lead_wild(pattern, node),
            Component::Deep => {
                self.deep = Some(node);
                Ok(())
            }
        }
    }

    /// Makes a name lead to a beginning.
    fn lead_literal(&mut self, text: String<A>, node: usize) -> Result<(), AllocError>
        ensures within { (n : ℕ) → node < n → IsWithin n self.old → IsWithin n self.new }
        ensures leads { (o : MatchOptions) (front : ℕ → List Text) (k : ℕ) → IsNode o
            front k self.old
            → IsKey o (string_bytes text) → ((l : Literal A) → Contains self.old.literals.items l
            → string_bytes l.text ≢ string_bytes text)
            → front node ≡ front k ++ string_bytes text ∷ []
            → IfOk result (λ _. LeadsMore o front k node self.old self.new) }
    {
        let place = self.place_of(text.as_str());
        self.literals.insert(place, Literal { text, node })?;
        Ok(())
    }

    /// The index at which a name belongs among the literals.
    fn place_of(&self, text: &str) -> usize
        ensures within { result ≤ vec_len self.now.literals }
        ensures gap { AreAscending self.now.literals.items
            → ((l : Literal A) → Contains self.now.literals.items l
            → string_bytes l.text ≢ text.now)
            → IsGap self.now.literals.items text.now result }
    {
        match self.find_literal(text) {
            Ok(place) => place,
            Err(place) => place,
        }
    }

    /// Makes a component with wildcards lead to a beginning.
    fn lead_wild(&mut self, pattern: Pattern<A>, node: usize) -> Result<(), AllocError>
        ensures within { (n : ℕ) → node < n → IsWithin n self.old → IsWithin n self.new }
        ensures leads { (o : MatchOptions) (front : ℕ → List Text) (k : ℕ) → IsNode o
            front k self.old
            → list_any is_wildcard pattern ≡ true → is_recursive pattern ≡ false
            → front node ≡ front k ++ pattern ∷ []
            → IfOk result (λ _. LeadsMore o front k node self.old self.new) }
    {
        self.set = None;
        self.wilds.push(Wild { pattern, node })?;
        Ok(())
    }

    /// Marks it as a whole pattern.
    pub fn mark_whole(&mut self)
        ensures within { (n : ℕ) → IsWithin n self.old → IsWithin n self.new }
        ensures node { (o : MatchOptions) (front : ℕ → List Text) (k : ℕ) → IsNode o
            front k self.old
            → IsNode o front k self.new }
        ensures leads { (d : ℕ) → LeadsTo self.old d → LeadsTo self.new d }
        ensures whole { self.new.is_whole ≡ true }
    {
        self.is_whole = true;
    }

    /// Makes a set of its components with wildcards, if there are many. The set matches by these options.
    pub fn gather(&mut self, alloc: A, options: MatchOptions) -> Result<(), AllocError>
        ensures within { (n : ℕ) → IsWithin n self.old → IsWithin n self.new }
        ensures node { (o : MatchOptions) (front : ℕ → List Text) (k : ℕ) → IsNode o
            front k self.old
            → IsNode o front k self.new }
        ensures leads { (d : ℕ) → LeadsTo self.old d → LeadsTo self.new d }
        ensures whole { self.new.is_whole ≡ self.old.is_whole }
    {
        if self.wilds.len() >= FEWEST_IN_SET {
            let patterns = self.patterns(alloc)?;
            self.set = Some(PatternSet::new(alloc, patterns, options)?);
        }
        Ok(())
    }

    /// Its components with wildcards.
    fn patterns(&self, alloc: A) -> Result<Vec<Pattern<A>, A>, AllocError>
        ensures { IfOk result
            (λ patterns. patterns.items ≡ map (λ w. w.pattern) self.now.wilds.items) }
    {
        let mut patterns = Vec::new(alloc);
        for wild in self.wilds.iter() {
            patterns.push(wild.pattern.clone()?)?;
        }
        Ok(patterns)
    }

    /// Whether it can take a further name.
    pub fn goes_on(&self) -> bool
        ensures { result ≡ node_goes_on self.now }
    {
        !self.is_literal() || !self.literals.is_empty()
    }

    /// Whether it leads on only by literal components.
    pub fn is_literal(&self) -> bool
        ensures { result ≡ has_only_literals self.now }
    {
        !self.is_deep && self.deep.is_none() && self.wilds.is_empty()
    }
}
