//! Calls of rows about plain patterns, trees, walks and disks.

use crate::disks::PlainDisks;
use crate::walking::{Job, gathered, stepped};
use crate::{disks, trees};
use glob::{MatchOptions, glob_in, is_plain};
use glob_replay::Counts;
use glob_replay::asked_tree::AskedTree;
use glob_replay::calls::{Calls, Make};
use glob_replay::contents::tree_of;
use glob_replay::ration::Memory;
use glob_replay::words::{add_fault, number_of, refused, unusable};
use std::io::{self, Write};

/// Plain patterns, trees, walks and disks. The first word of a row names its file or its calls, and the others are its
/// fields.
#[derive(Clone, Copy)]
pub struct Walks;

impl Make for Walks {
    fn make<M: Memory>(&self, calls: &mut Calls<M>, row: &[&str]) -> io::Result<()> {
        match row {
            ["plain.tsv", text] => add_plainness(calls, text),
            ["change a tree", changes @ ..] => trees::change(calls, changes),
            ["walk", content, pattern] => walk(calls, content, pattern),
            ["walk far", content, pattern, most] => walk_far(calls, content, pattern, most),
            ["list kinds", content, pattern] => add_listings(calls, content, pattern),
            ["ask disks", fields @ ..] => disks::ask_each(PlainDisks, calls, fields),
            ["ask failing disks", fields @ ..] => disks::ask_failing(PlainDisks, calls, fields),
            ["ask disks in memory", fields @ .., "each call fails"] => {
                disks::ask_failing_in_memory(calls, fields)
            }
            ["ask disks in memory", fields @ ..] => disks::ask_in_memory(calls, fields),
            ["ask a large directory", fields @ ..] => disks::ask_large(calls, fields),
            ["walk to an error", fields @ ..] => disks::walk_to_error(calls, fields),
            _ => Err(unusable()),
        }
    }
}

/// Adds whether a pattern is plain, or its fault in a walk.
fn add_plainness<M: Memory>(calls: &mut Calls<M>, text: &str) -> io::Result<()> {
    match is_plain(calls.alloc, text) {
        Ok(true) => Ok(calls.words.push_str("plain")?),
        Ok(false) => Ok(calls.words.push_str("not plain")?),
        Err(refusal) => add_fault(refusal, "", &mut calls.words),
    }
}

/// Walks over a content: adds the items of `walk_in`, and then the items of `next`.
fn walk<M: Memory>(calls: &mut Calls<M>, content: &str, pattern: &str) -> io::Result<()> {
    let (alloc, words, job) = (calls.alloc, &mut calls.words, Job::of(pattern));
    let (first, second) = (Counts::default(), Counts::default());
    let tree = AskedTree::of(alloc, content, &first)?;
    gathered(alloc, tree, &first, job)?.add_to(words)?;
    words.push_str("\t-")?;
    let tree = AskedTree::of(alloc, content, &second)?;
    stepped(alloc, tree, &second, job)?.add_to(words)?;
    Ok(words.push_str("\t-")?)
}

/// Walks over a content in other memory, up to a number of paths: adds how many there are, their bytes in total, and
/// the units spent.
fn walk_far<M: Memory>(
    calls: &mut Calls<M>,
    content: &str,
    pattern: &str,
    most: &str,
) -> io::Result<()> {
    let (alloc, options) = (calls.alloc, MatchOptions::new());
    let tree = tree_of(calls.other, alloc.inner(), ("", ""), content)?;
    let mut paths = glob_in(alloc, tree, pattern, options, 200_000).map_err(refused)?;
    let (mut count, mut bytes) = (0u64, 0u64);
    for path in paths.by_ref().take(number_of(most)?) {
        let path = path.map_err(|error| error.into_error())?;
        count = count.saturating_add(1);
        bytes = bytes.saturating_add(path.as_str().len() as u64);
    }
    Ok(write!(calls.words, "{count} {bytes} {}", paths.spent())?)
}

/// Adds how often a walk by `walk_in` lists a directory, and how often only its names.
fn add_listings<M: Memory>(calls: &mut Calls<M>, content: &str, pattern: &str) -> io::Result<()> {
    let (alloc, counts) = (calls.alloc, Counts::default());
    let tree = AskedTree::of(alloc, content, &counts)?;
    let found = gathered(alloc, tree, &counts, Job::of(pattern))?;
    found.add_to(&mut String::new(alloc.inner()))?;
    let (listings, namings) = (counts.listings.get(), counts.namings.get());
    Ok(write!(calls.words, "{listings} {namings}")?)
}
