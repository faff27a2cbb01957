//! Patterns for the names of a path, and matching them by a judge.
ghost use Rattle.std.specs.Prelude.{◌≡◌, ◌↔◌, [], ◌∷◌, ◌++◌, IsTrue, IfOk, IfErr, All, chars};
ghost use Rattle.glob.specs.Grammar.Faults.{Refuses};
ghost use Rattle.glob_examples.specs.Names as names;
ghost use Rattle.glob_examples.specs.NameTable as table;

use crate::names::judge::NameJudge;
use glob::{Pattern, PatternRefusal, Shape, run_positions};
use std::alloc::{AllocError, Allocator, Global};
use std::marker::Model;

/// The component that matches any number of names.
const ANY_NAMES: &str = "**";

/// A pattern for a path's names, parsed from components separated by `/`. Each component is a pattern for one name,
/// except for `**`, which matches any number of names. A `/` in brackets also ends a component.
#[derive(Debug, Drop)]
pub struct PathPattern<A: Allocator = Global> {
    components: Vec<Pattern<A>, A>,
    shapes: Vec<Shape, A>,
    alloc: A,
}

// Clauses see the components.
impl<A: Allocator> Model for PathPattern<A> {
    ghost use Rattle.std.specs.Prelude.{◌≡◌, List, ℕ, map};
    ghost use Rattle.glob_examples.specs.NameTable.{shape_of};

    ghost Value = { List (List ℕ) };

    ghost view = { λ pattern. pattern.components.items };

    ghost invariant = { λ pattern. pattern.shapes.items ≡ map shape_of pattern.components.items };
}

impl<A: Allocator + Copy> PathPattern<A> {
    /// Parses a path pattern. The error has the fault of the first invalid component, at a place counted from the start
    /// of that component, or reports a failed allocation.
    pub fn new(alloc: A, text: &str) -> Result<Self, PatternRefusal>
        ensures components { IfOk result (λ pattern. pattern ≡ names.split_names text.now) }
        ensures accepted { IfOk result (All names.IsComponent) }
        ensures refused { IfErr result (names.RefusesComponent (names.split_names text.now)) }
    {
        let mut components = Vec::new(alloc);
        let mut shapes = Vec::new(alloc);
        for component in text.split('/') {
            push_component(alloc, &mut components, &mut shapes, component)?;
        }
        Ok(PathPattern {
            components,
            shapes,
            alloc,
        })
    }

    /// Whether the path's names, separated by `/`, split into consecutive groups, one for each component: any number of
    /// names for `**`, and for another component one name that it matches, case-sensitively. Fails only if allocation
    /// fails.
    ///
    /// So `a/**/b` matches `a/b` and `a/x/y/b`, and `a/**` matches `a`, with no names for `**`.
    pub fn matches(&self, path: &str) -> Result<bool, AllocError>
        ensures { IfOk result
            (λ yes. IsTrue yes ↔ names.NamesSplit self.now (names.split_names path.now)) }
    {
        let rows = self.rows(path)?;
        let mut judge = NameJudge::new(&rows, self.components.len());
        run_positions(self.alloc, self.shapes.as_slice(), &mut judge)
    }

    /// For each name of the path, whether each component matches it.
    fn rows(&self, path: &str) -> Result<Vec<Vec<bool, A>, A>, AllocError>
        ensures { IfOk result
            (λ rows. table.AreAligned
            (λ name row. table.IsRow self.now name row.items)
            (names.split_names path.now) rows.items) }
    {
        let mut rows = Vec::new(self.alloc);
        for name in path.split('/') {
            rows.push(self.row(name)?)?;
        }
        Ok(rows)
    }

    /// Whether each component matches the name.
    fn row(&self, name: &str) -> Result<Vec<bool, A>, AllocError>
        ensures { IfOk result (λ row. table.IsRow self.now name.now row.items) }
    {
        let mut row = Vec::with_capacity(self.alloc, self.components.len())?;
        for component in &self.components {
            row.push(takes_name(component, name)?)?;
        }
        Ok(row)
    }
}

/// Adds a component and its shape. The error has the fault of an invalid component, or reports a failed allocation.
fn push_component<A: Allocator + Copy>(
    alloc: A,
    components: &mut Vec<Pattern<A>, A>,
    shapes: &mut Vec<Shape, A>,
    component: &str,
) -> Result<(), PatternRefusal>
    ensures added { IfOk result (λ _.
        components.new.items ≡ components.old.items ++ component.now ∷ []) }
    ensures shaped { IfOk result (λ _.
        shapes.new.items ≡ shapes.old.items ++ table.shape_of component.now ∷ []) }
    ensures accepted { IfOk result (λ _. names.IsComponent component.now) }
    ensures refused { IfErr result (Refuses (chars component.now)) }
{
    components.push(Pattern::new(alloc, component)?)?;
    shapes.push(shape_of(component))?;
    Ok(())
}

/// Which groups of names the component may match.
fn shape_of(component: &str) -> Shape
    ensures { result ≡ table.shape_of component.now }
{
    if component == ANY_NAMES {
        Shape::Run
    } else {
        Shape::One
    }
}

/// Whether the component matches the name.
fn takes_name<A: Allocator + Copy>(component: &Pattern<A>, name: &str) -> Result<bool, AllocError>
    ensures { IfOk result (λ yes. IsTrue yes ↔ table.TakesName component.now name.now) }
{
    if component.as_str() == ANY_NAMES {
        return Ok(true);
    }
    component.matches(name)
}
