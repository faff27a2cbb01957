//! Adds patterns to the tree of beginnings.
ghost use Rattle.std.specs.Prelude.{◌≡◌, ◌<◌, vec_len, IfErr, IfOk, false, map, [], ◌∷◌, ◌++◌};
ghost use Rattle.std.specs.List.{All, list_any};
ghost use Rattle.glob_pattern.specs.Grammar.Characters.{is_wildcard};

use crate::beginnings::Beginnings;
use crate::beginnings::node::{Component, Node};
use glob_pattern::{Pattern, PatternRefusal};
use std::alloc::{AllocError, Allocator};

impl<A: Allocator + Copy> Beginnings<A> {
    ghost use Rattle.std.specs.Prelude.{ℕ, List, slice_get, string_bytes};
    ghost use Rattle.std.specs.Str.{IsUtf8, chars};
    ghost use Rattle.std.specs.Prelude.{None, Some, true};
    ghost use Rattle.glob_text.specs.Pieces.{pieces};
    ghost use Rattle.glob_pattern.specs.Grammar.Faults.{Refuses};
    ghost use Rattle.glob_pattern.specs.Grammar.Units.{IsAccepted};
    ghost use Rattle.glob_pattern.specs.declared.error.PatternRefusal.TheVariants.{Memory};
    ghost use Rattle.glob_pattern.specs.declared.options.MatchOptions.{MatchOptions};
    ghost use Rattle.glob_set.specs.BraceSets.{AreAccepted};
    ghost use Rattle.glob_search.specs.Refusals.{readings};
    ghost use Rattle.glob_search.specs.Private.Refusing.{RefusesFirst};
    ghost use Rattle.glob_search.specs.Private.NodeGrowth.{Added, FitsKind, GrownTo, IsComponentOf, IsMarked, Led, component_text, finished, is_deep_component, pushed, walked};
    ghost use Rattle.glob_text.specs.Text.{Text};
    ghost use Rattle.glob_search.specs.Private.Nodes.{AreBeginnings, IsTree, folded, key_of};

    /// Adds the beginnings of a pattern.
    pub(super) fn add(&mut self, pattern: &str) -> Result<(), PatternRefusal>
        ensures options { self.new.options ≡ self.old.options }
        ensures added { (front : ℕ → List Text)
            → IsTree self.old.options self.old.nodes.items front
            → IfOk result (λ _. Added self.old.options self.old.nodes.items self.new.nodes.items
            front pattern.now) }
        ensures accepted { IfOk result (λ _. AreAccepted (readings pattern.now)) }
        ensures refused { IfErr result (RefusesFirst (readings pattern.now)) }
    {
        Pattern::new(self.alloc, pattern)?;
        let at = self.walk(pattern)?;
        let end = self.end_of(at)?;
        self.mark_whole(end);
        Ok(())
    }

    /// Adds the beginnings that the components of a pattern lead to, one after another, and returns the last one.
    fn walk(&mut self, pattern: &str) -> Result<usize, PatternRefusal>
        ensures options { self.new.options ≡ self.old.options }
        ensures within { IfOk result (λ node. node < vec_len self.new.nodes) }
        ensures walked { (front : ℕ → List Text)
            → IsTree self.old.options self.old.nodes.items front
            → IfOk result (GrownTo self.old.options self.old.nodes.items self.new.nodes.items front
            (walked (map (key_of self.old.options) (pieces pattern.now)))) }
        ensures utf8 { IfOk result (λ _. All IsUtf8 (pieces pattern.now)) }
        ensures accepted { IfOk result (λ _. AreAccepted (pieces pattern.now)) }
        ensures refused { IfErr result (RefusesFirst (pieces pattern.now)) }
    {
        let mut at = 0;
        for component in pattern.split('/') {
            at = self.child(at, component)?;
        }
        Ok(at)
    }

    /// The beginning that is the whole pattern, given the beginning of its last component. They differ after `**`,
    /// which needs one more name.
    fn end_of(&mut self, at: usize) -> Result<usize, PatternRefusal>
        requires { at < vec_len self.old.nodes }
        ensures options { self.new.options ≡ self.old.options }
        ensures within { IfOk result (λ node. node < vec_len self.new.nodes) }
        ensures ended { (front : ℕ → List Text)
            → IsTree self.old.options self.old.nodes.items front
            → IfOk result (GrownTo self.old.options self.old.nodes.items self.new.nodes.items front
            (finished (front at))) }
        ensures refused { IfErr result (λ refusal. refusal ≡ Memory) }
    {
        if self.nodes[at].is_deep {
            return self.child(at, "*");
        }
        Ok(at)
    }

    /// Marks a beginning as a whole pattern.
    fn mark_whole(&mut self, at: usize)
        requires { at < vec_len self.old.nodes }
        ensures options { self.new.options ≡ self.old.options }
        ensures tree { (front : ℕ → List Text) → IsTree self.old.options self.old.nodes.items front
            → IsTree self.new.options self.new.nodes.items front }
        ensures marked { IsMarked self.old.nodes.items self.new.nodes.items at }
    {
        self.nodes[at].mark_whole();
    }

    /// The beginning that a component leads to, added if it is missing. After `**`, another `**` leads to the same
    /// beginning.
    fn child(&mut self, at: usize, component: &str) -> Result<usize, PatternRefusal>
        requires { at < vec_len self.old.nodes }
        ensures options { self.new.options ≡ self.old.options }
        ensures within { IfOk result (λ node. node < vec_len self.new.nodes) }
        ensures child { (front : ℕ → List Text) → IsTree self.old.options self.old.nodes.items front
            → IfOk result (GrownTo self.old.options self.old.nodes.items self.new.nodes.items front
            (pushed (front at) (key_of self.old.options component.now))) }
        ensures utf8 { IsUtf8 component.now }
        ensures accepted { IfOk result (λ _. IsAccepted (chars component.now)) }
        ensures refused { IfErr result (Refuses (chars component.now)) }
    {
        let component = self.component(component)?;
        if component.is_deep() && self.nodes[at].is_deep {
            return Ok(at);
        }
        if let Some(node) = self.nodes[at].led_to(&component) {
            return Ok(node);
        }
        Ok(self.lead(at, component)?)
    }

    /// Makes a set for each beginning from which many components with wildcards lead on.
    pub(super) fn gather(&mut self) -> Result<(), AllocError>
        ensures begins { (o : MatchOptions) (patterns : List Text)
            → AreBeginnings o patterns self.old → AreBeginnings o patterns self.new }
    {
        for number in 0..self.nodes.len() {
            self.gather_at(number)?;
        }
        Ok(())
    }

    /// Makes a set of the components with wildcards that lead on from this beginning, if there are many.
    fn gather_at(&mut self, at: usize) -> Result<(), AllocError>
        requires { at < vec_len self.old.nodes }
        ensures len { vec_len self.new.nodes ≡ vec_len self.old.nodes }
        ensures begins { (o : MatchOptions) (patterns : List Text)
            → AreBeginnings o patterns self.old → AreBeginnings o patterns self.new }
    {
        self.nodes[at].gather(self.alloc, self.options)
    }

    /// Reads a component. The error is its fault, or a failed allocation.
    fn component(&self, text: &str) -> Result<Component<A>, PatternRefusal>
        ensures component { IfOk result (IsComponentOf self.now.options text.now) }
        ensures accepted { IfOk result (λ _. IsAccepted (chars text.now)) }
        ensures refused { IfErr result (Refuses (chars text.now)) }
    {
        if text == "**" {
            return Ok(Component::Deep);
        }
        if !has_wildcard(text) {
            return Ok(Component::Literal(self.key_of(text)?));
        }
        Ok(Component::Wild(Pattern::new(self.alloc, text)?))
    }

    /// Adds a beginning to which a component leads from the beginning `at`.
    fn lead(&mut self, at: usize, component: Component<A>) -> Result<usize, AllocError>
        requires { at < vec_len self.old.nodes }
        ensures options { self.new.options ≡ self.old.options }
        ensures within { IfOk result (λ node. node < vec_len self.new.nodes) }
        ensures led { (front : ℕ → List Text) (node : Node A)
            → IsTree self.old.options self.old.nodes.items front
            → slice_get self.old.nodes.items at ≡ Some node → FitsKind self.old.options component
            → Led node component None
            → (is_deep_component component ≡ true → node.is_deep ≡ false)
            → IfOk result (GrownTo self.old.options self.old.nodes.items self.new.nodes.items front
            (front at ++ component_text component ∷ [])) }
    {
        let node = self.nodes.len();
        let is_deep = component.is_deep();
        self.nodes.push(Node::new(self.alloc, is_deep))?;
        self.nodes[at].lead(component, node)?;
        Ok(node)
    }

    /// The text by which literals are compared.
    fn key_of(&self, text: &str) -> Result<String<A>, AllocError>
        ensures { IfOk result (λ key. string_bytes key
            ≡ folded self.now.options.case_sensitive text.now) }
    {
        if self.options.case_sensitive {
            String::from_str(self.alloc, text)
        } else {
            text.to_ascii_lowercase(self.alloc)
        }
    }
}

/// Whether some character of the component is a wildcard.
fn has_wildcard(component: &str) -> bool
    ensures { result ≡ list_any is_wildcard component.now }
{
    component
        .as_bytes()
        .iter()
        .any(|&byte| byte == b'?' || byte == b'*' || byte == b'[')
}
