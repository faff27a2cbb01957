//! The translation of a rule, byte by byte.
ghost use Rattle.std.specs.Prelude.{◌≡◌, ◌++◌, OnOk, IfOk};
ghost use Rattle.glob_rules.specs.Readings.{reading_start, next_reading, reading_of, changed, outcome, ending};

use crate::classes::before_close;
use crate::error::Reason;
use crate::listing::write;
use crate::steps::{BracketSpan, Change, Mode, Prefix, Step, Writing, step_from};
use std::alloc::{AllocError, Allocator};
use std::marker::Model;

/// The outcome of reading a rule.
#[derive(Clone, Copy)]
pub enum Outcome {
    /// It matches nothing.
    Nothing,
    /// It has a pattern.
    Named,
    /// It is refused.
    Refused(Reason),
}

/// A rule read in part: the mode after the bytes so far, the characters of the last bracket, and the pattern so far.
#[derive(Drop)]
pub struct Reading<A: Allocator> {
    mode: Mode,
    spans: Vec<BracketSpan, A>,
    glob: Vec<u8, A>,
}

impl<A: Allocator> Model for Reading<A> {
    ghost use Rattle.glob_rules.specs.Readings.{Read};

    ghost Value = { Read };

    ghost view = { λ r. record { mode = r.mode; spans = r.spans.items; glob = r.glob.items } };
}

impl<A: Allocator + Copy> Reading<A> {
    /// Reads all of a rule. `path` says that it is relative to the list's directory.
    #[tactic(auto, unfolding(crate::specs::Readings::reading_of))]
    pub fn of(alloc: A, text: &[u8], path: bool) -> Result<Self, AllocError>
        ensures { IfOk result (λ r. r ≡ reading_of path text.now) }
    {
        let mut reading = Self::start(alloc, path)?;
        let mut rest = text;
        // search once per `]`, not once per byte
        let mut ahead = before_close(text);
        while let [c, after @ ..] = rest {
            ahead = match ahead {
                [_, others @ ..] => others,
                [] => before_close(after),
            };
            reading.advance(*c, ahead)?;
            rest = after;
        }
        Ok(reading)
    }

    /// A rule before its first byte.
    fn start(alloc: A, path: bool) -> Result<Self, AllocError>
        ensures { IfOk result (λ r. r ≡ reading_start path) }
    {
        let front: &[u8] = if path { &[] } else { &[b'*', b'*', b'/'] };
        Ok(Reading {
            mode: Mode::Units(Prefix {
                all_literal: path,
                opening: path,
            }),
            spans: Vec::new(alloc),
            glob: Vec::from_slice(alloc, front)?,
        })
    }
}

impl<A: Allocator> Reading<A> {
    /// Reads one byte. `ahead` is the text after it, up to the next `]` or the end.
    #[tactic(auto, unfolding(crate::specs::Readings::next_reading))]
    fn advance(&mut self, c: u8, ahead: &[u8]) -> Result<(), AllocError>
        ensures { OnOk result (self.new ≡ next_reading self.old c ahead.now) }
    {
        let step = step_from(self.mode, c, ahead);
        change(&mut self.spans, step.change)?;
        write(&mut self.glob, self.spans.as_slice(), step.writing)?;
        self.mode = step.mode;
        Ok(())
    }

    /// The outcome, if the rule ends here.
    pub fn outcome(&self) -> Outcome
        ensures { result ≡ outcome self.now.mode }
    {
        match self.mode {
            Mode::Units(_) | Mode::Star(_) => Outcome::Named,
            Mode::Stars(prefix) if prefix.opening => Outcome::Named,
            Mode::Stars(_) => Outcome::Refused(Reason::StarsBehindText),
            Mode::Refused(reason) => Outcome::Refused(reason),
            _ => Outcome::Nothing,
        }
    }

    /// The pattern, if the rule ends here.
    pub fn into_glob(self) -> Result<Vec<u8, A>, AllocError>
        ensures { IfOk result (λ glob. glob.items ≡ self.glob ++ ending self.mode) }
    {
        let mut glob = self.glob;
        if matches!(self.mode, Mode::Stars(_)) {
            glob.push(b'*')?;
        }
        Ok(glob)
    }
}

/// Applies a change to the bracket's characters.
fn change<A: Allocator>(spans: &mut Vec<BracketSpan, A>, change: Change) -> Result<(), AllocError>
    ensures { OnOk result (spans.new.items ≡ changed spans.old.items change) }
{
    match change {
        Change::Keep => {}
        Change::Clear => spans.clear(),
        Change::Add(span) => spans.push(span)?,
    }
    Ok(())
}
