//! The outcome of a walk: how it ended, and whether it found paths and met errors.
ghost use Rattle.std.specs.Prelude.{◌≡◌, false};
ghost use Rattle.glob_walk.specs.declared.ending.End.TheVariants as end;
ghost use Rattle.glob_walk.specs.Walks.{outcome};
ghost use Rattle.glob_console.specs.FoundPaths.{status_of};
ghost use Rattle.glob_console.specs.Private.Writing.{noting};

use crate::status::{FAULT, FOUND, UNFOUND};
use glob_walk::{End, GlobResult, end_of};
use std::alloc::Allocator;

/// What came of a walk.
#[derive(Clone, Copy)]
pub struct Findings {
    /// How the walk ended.
    pub end: End,
    /// Whether it found a wanted path.
    pub has_path: bool,
    /// Whether it met a directory that could not be listed.
    pub has_error: bool,
}

impl Findings {
    /// A walk that has found nothing yet.
    pub(crate) fn new() -> Self
        ensures end { result.end ≡ end.Done }
        ensures path { result.has_path ≡ false }
        ensures error { result.has_error ≡ false }
    {
        Findings {
            end: End::Done,
            has_path: false,
            has_error: false,
        }
    }

    /// Notes one more item of the walk.
    #[tactic(auto, using(crate::proofs::NotingLemmas::noting_end, crate::proofs::NotingLemmas::noting_path, crate::proofs::NotingLemmas::noting_error))]
    pub(crate) fn note<A: Allocator>(&mut self, item: &GlobResult<A>)
        ensures { self.new ≡ noting self.old (outcome item.now) }
    {
        match end_of(item) {
            Some(end) => self.end = end,
            None if item.is_ok() => self.has_path = true,
            None => self.has_error = true,
        }
    }

    /// The exit status: 2 if the walk met an error or was cut short, else 0 if it found a wanted path, else 1.
    pub fn status(self) -> u8
        ensures { result ≡ status_of self }
    {
        match self.end {
            End::Limit | End::Memory => FAULT,
            End::Done if self.has_error => FAULT,
            End::Done if self.has_path => FOUND,
            End::Done => UNFOUND,
        }
    }
}
