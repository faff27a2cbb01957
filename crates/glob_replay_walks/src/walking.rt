//! A walk, item by item and whole, and its results in words.

use glob::{
    End, GlobCause, GlobError, GlobResult, MatchOptions, Paths, PatternRefusal, Tree, Walk,
    glob_in, walk_in,
};
use glob_replay::Counts;
use glob_replay::ration::Memory;
use glob_replay::words::out_of_memory;
use std::alloc::{AllocError, Allocator, Global};
use std::io::{self, Write};

/// A walk over a tree.
#[derive(Clone, Copy)]
pub struct Job<'a> {
    pub pattern: &'a str,
    pub options: MatchOptions,
    pub limit: u64,
}

impl<'a> Job<'a> {
    /// The walk by a pattern, under the usual options and without a limit.
    pub fn of(pattern: &'a str) -> Self {
        Job {
            pattern,
            options: MatchOptions::new(),
            limit: u64::MAX,
        }
    }
}

/// The results of a walk: what it gave and spent.
#[derive(Drop)]
pub struct Found {
    /// Each item after a tab: `=` and a path, or `!`, the path of a directory that could not be listed, `:` and the
    /// kind of its error. Or what is printed of the pattern's fault; and at last what is wrong with the walk.
    pub items: String,
    /// The paths, and those of the directories that could not be listed.
    pub paths: Vec<String>,
    pub lost: Vec<String>,
    /// How it ended, and the path of the limit's refusal, if it is known.
    pub end: End,
    pub refused: String,
    /// The units of work.
    pub spent: u64,
}

impl Found {
    /// No results yet.
    fn new(alloc: Global) -> Self {
        Found {
            items: String::new(alloc),
            paths: Vec::new(alloc),
            lost: Vec::new(alloc),
            end: End::Done,
            refused: String::new(alloc),
            spent: 0,
        }
    }

    /// The results of a whole walk.
    pub fn of<T: Tree>(alloc: Global, walk: Walk<T>) -> Result<Self, AllocError> {
        let mut found = Found::new(alloc);
        for item in walk.items.iter() {
            found.add(item)?;
        }
        if found.end != End::Done {
            found.items.push_str("\ta refusal among its items")?;
        }
        found.end = walk.end;
        found.spent = walk.spent;
        Ok(found)
    }

    /// The items, and where the walk ended before it was done: `~` where an allocation failed, or `^` and the path of
    /// the refusal.
    pub fn text(&self) -> Result<String, AllocError> {
        let (alloc, items, refused) = (*self.items.allocator(), &self.items, &self.refused);
        match self.end {
            End::Done => format!(in alloc; "{items}"),
            End::Memory => format!(in alloc; "{items}\t~"),
            End::Limit => format!(in alloc; "{items}\t^{refused}"),
        }
    }

    /// Adds the items to the words. The error is that memory ran out after them.
    pub fn add_to(&self, words: &mut String) -> io::Result<()> {
        words.push_str(&self.items)?;
        match self.end {
            End::Memory => Err(out_of_memory()),
            _ => Ok(()),
        }
    }

    /// Adds an item, and says so if it comes after the walk's end.
    fn add<A: Allocator>(&mut self, item: &GlobResult<A>) -> Result<(), AllocError> {
        if self.end != End::Done {
            self.items.push_str("\tafter its end")?;
        }
        match item {
            Ok(path) => {
                write!(self.items, "\t={}", path.as_str())?;
                let path = String::from_str(*self.items.allocator(), path.as_str())?;
                Ok(self.paths.push(path)?)
            }
            Err(error) => self.add_error(error),
        }
    }

    /// Adds an error and, if it prints wrongly, what it prints.
    fn add_error<A: Allocator>(&mut self, error: &GlobError<A>) -> Result<(), AllocError> {
        let alloc = *self.items.allocator();
        let path = String::from_str(alloc, error.path().as_str())?;
        let (end, words) = match error.cause() {
            GlobCause::Memory => (End::Memory, "out of memory"),
            GlobCause::Limit => (End::Limit, "walk limit reached"),
            GlobCause::Read => (End::Done, ""),
        };
        let (printed, cause) = (format!(in alloc; "{error}")?, error.error());
        let line = format!(in alloc; "attempting to read `{path}` resulted in an error: {cause}")?;
        if printed != line || !printed.ends_with(words) {
            write!(self.items, "\tprints {printed}")?;
        }
        self.end = end;
        if end != End::Done {
            self.refused = path;
            return Ok(());
        }
        write!(self.items, "\t!{path}:{:?}", error.error().kind())?;
        Ok(self.lost.push(path)?)
    }

    /// Adds what is wrong with the questions to a tree: each unit is a question, each look and each listing takes a
    /// unit and, if the limit refused one, the walk spent the limit.
    fn check(&mut self, counts: &Counts, limit: u64) -> Result<(), AllocError> {
        let (spent, asked) = (self.spent, counts.asked.get());
        let calls = counts.looks.get().saturating_add(counts.listings.get());
        let is_right = match self.end {
            End::Limit => asked >= spent && spent == limit,
            _ => asked == spent,
        };
        if !is_right || calls > spent {
            write!(self.items, "\tspent {spent} asked {asked} by {calls} calls")?;
        }
        Ok(())
    }
}

/// The result if a walk refuses its pattern: the printed fault. Nothing may have been asked before.
fn fault(alloc: Global, refusal: PatternRefusal, asked: u64) -> io::Result<Found> {
    let mut found = Found::new(alloc);
    match refusal {
        PatternRefusal::Syntax(fault) => write!(found.items, "\t{fault}")?,
        PatternRefusal::Memory if asked == 0 => return Err(out_of_memory()),
        PatternRefusal::Memory => found.items.push_str("\tasked early")?,
    }
    Ok(found)
}

/// Walks by `walk_in` over a tree that counts there what it is asked. The path of a refusal is not known.
pub fn gathered<M: Memory, T: Tree<Alloc = M>>(
    alloc: M,
    tree: T,
    counts: &Counts,
    job: Job<'_>,
) -> io::Result<Found> {
    let mut found = match walk_in(alloc, tree, job.pattern, job.options, job.limit) {
        Ok(walk) => Found::of(alloc.inner(), walk)?,
        Err(refusal) => fault(alloc.inner(), refusal, counts.asked.get())?,
    };
    found.check(counts, job.limit)?;
    Ok(found)
}

/// Walks by `next` over a tree that counts there what it is asked: nothing before the first item is wanted.
pub fn stepped<M: Memory, T: Tree<Alloc = M>>(
    alloc: M,
    tree: T,
    counts: &Counts,
    job: Job<'_>,
) -> io::Result<Found> {
    let paths = glob_in(alloc, tree, job.pattern, job.options, job.limit);
    let early = counts.asked.get();
    let mut found = match paths {
        Ok(paths) => taken(alloc, paths)?,
        Err(refusal) => fault(alloc.inner(), refusal, early)?,
    };
    if early != 0 {
        found.items.push_str("\tasked early")?;
    }
    found.check(counts, job.limit)?;
    Ok(found)
}

/// Takes the items of a walk with this memory, and two more, which ask for none. Where it goes on, or counts its items
/// wrongly, the words say so.
pub fn taken<M: Memory, T: Tree>(alloc: M, mut paths: Paths<T>) -> Result<Found, AllocError> {
    let mut found = Found::new(alloc.inner());
    let mut count = 0u128;
    while let Some(item) = paths.next() {
        found.add(&item)?;
        count = count.saturating_add(1);
    }
    let asked = alloc.ration().asked();
    let goes_on = paths.next().is_some() || paths.next().is_some();
    if goes_on || alloc.ration().asked() != asked || paths.given() != count {
        found.items.push_str("\tgoes on, or counts wrongly")?;
    }
    found.spent = paths.spent();
    Ok(found)
}
