//! The rules of a text, line by line.
ghost use Rattle.std.specs.Prelude.{◌≡◌, if◌then◌else◌, Some, None, IfOk, OnOk};
ghost use Rattle.glob_rules.specs.Lists.{after_line, begins_with_mark, is_pattern, read_line, settled, text_read};
ghost use Rattle.glob_rules.specs.Lists.{with_refusal, without_byte_order_mark};
ghost use Rattle.glob_rules.specs.declared.reading.Outcome.TheVariants.{Named, Refused};

use crate::error::{Reason, RuleRefusal};
use crate::lines::{Line, has};
use crate::reading::Outcome;
use crate::rule::Rule;
use glob_pattern::{Pattern, PatternRefusal};
use std::alloc::{AllocError, Allocator};
use std::marker::Model;
use std::str;

/// The rules so far, their patterns, and a refusal for each refused line.
#[derive(Drop)]
pub struct Rules<A: Allocator> {
    lines: usize,
    rules: Vec<Rule, A>,
    patterns: Vec<Pattern<A>, A>,
    refusals: Vec<RuleRefusal, A>,
}

impl<A: Allocator> Model for Rules<A> {
    ghost use Rattle.glob_rules.specs.Lists.{TextRead};

    ghost Value = { TextRead };

    ghost view = { λ r. record {
      list = record { lines = r.lines; rules = r.rules.items; patterns = r.patterns.items };
      refusals = r.refusals.items;
    } };
}

impl<A: Allocator + Copy> Rules<A> {
    /// Reads the rules of a text.
    #[tactic(auto, unfolding(crate::specs::Lists::text_read))]
    pub fn read(alloc: A, text: &str) -> Result<Self, AllocError>
        ensures { IfOk result (λ rules. rules ≡ text_read text.now) }
    {
        let mut rules = Rules {
            lines: 0,
            rules: Vec::new(alloc),
            patterns: Vec::new(alloc),
            refusals: Vec::new(alloc),
        };
        let lines = without_byte_order_mark(text);
        for line in lines.split('\n') {
            rules.add_line(alloc, line.as_bytes())?;
        }
        Ok(rules)
    }

    /// Adds the rule of a line, if it has one, or its refusal.
    #[tactic(auto, unfolding(crate::specs::Lists::read_line))]
    fn add_line(&mut self, alloc: A, text: &[u8]) -> Result<(), AllocError>
        ensures { OnOk result (self.new ≡ read_line self.old text.now) }
    {
        self.lines = self.lines.saturating_add(1);
        let line = Line::read(alloc, text)?;
        match line.outcome() {
            Outcome::Nothing => Ok(()),
            Outcome::Refused(reason) => self.refuse(reason),
            Outcome::Named => self.add_rule(alloc, &line),
        }
    }

    /// Adds the rule of the last line, or its refusal.
    fn add_rule(&mut self, alloc: A, line: &Line<A>) -> Result<(), AllocError>
        ensures { OnOk result (self.new
            ≡ after_line self.old.list.lines self.old line.now (settled line.now.glob Named)) }
    {
        let Some(pattern) = pattern_of(alloc, line.glob())? else {
            return self.refuse(Reason::Pattern);
        };
        self.patterns.push(pattern)?;
        self.rules.push(Rule {
            line: self.lines,
            negative: line.negative(),
            directories: line.directories(),
        })?;
        Ok(())
    }

    /// Adds the refusal of the last line.
    fn refuse(&mut self, reason: Reason) -> Result<(), AllocError>
        ensures list { self.new.list ≡ self.old.list }
        ensures refusals { OnOk result (self.new.refusals
            ≡ with_refusal self.old.list.lines self.old.refusals (Refused reason)) }
    {
        self.refusals.push(RuleRefusal::Line(self.lines, reason))?;
        Ok(())
    }

    /// The number of lines, the rules, their patterns, and the refusals.
    pub fn into_parts(self) -> (usize, Vec<Rule, A>, Vec<Pattern<A>, A>, Vec<RuleRefusal, A>)
        ensures lines { result.0 ≡ self.list.lines }
        ensures rules { result.1.items ≡ self.list.rules }
        ensures patterns { result.2.items ≡ self.list.patterns }
        ensures refusals { result.3.items ≡ self.refusals }
    {
        (self.lines, self.rules, self.patterns, self.refusals)
    }
}

/// Parses a translated rule, if it is a valid pattern.
fn pattern_of<A: Allocator + Copy>(alloc: A, glob: &[u8]) -> Result<Option<Pattern<A>>, AllocError>
    ensures { IfOk result (λ pattern.
        pattern ≡ (if is_pattern glob.now then Some glob.now else None)) }
{
    let Ok(text) = str::from_utf8(glob) else {
        return Ok(None);
    };
    match Pattern::new(alloc, text) {
        Ok(pattern) => Ok(Some(pattern)),
        Err(PatternRefusal::Syntax(_)) => Ok(None),
        Err(PatternRefusal::Memory) => Err(AllocError),
    }
}

/// The text without its byte order mark.
fn without_byte_order_mark(text: &str) -> &str
    ensures { result.now ≡ without_byte_order_mark text.now }
{
    if begins_with_mark(text.as_bytes()) {
        &text[3..]
    } else {
        text
    }
}

/// Whether the text begins with a byte order mark.
fn begins_with_mark(text: &[u8]) -> bool
    ensures { result ≡ begins_with_mark text.now }
{
    has(text, 0, 0xEF) && has(text, 1, 0xBB) && has(text, 2, 0xBF)
}
