//! Counts of the questions to a tree.

use std::cell::Cell;

/// How much a tree was asked.
#[derive(Default, Drop)]
pub struct Counts {
    /// Lookups, listings, and entries of listings.
    pub asked: Cell<u64>,
    /// How often something was looked up.
    pub looks: Cell<u64>,
    /// How often entries or names were listed.
    pub listings: Cell<u64>,
    /// How often only names were listed.
    pub namings: Cell<u64>,
}

/// Adds to a count.
pub fn raise(count: &Cell<u64>, more: usize) {
    count.set(count.get().saturating_add(more as u64));
}
