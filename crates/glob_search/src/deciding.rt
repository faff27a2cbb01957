//! The rule that decides whether a path is ignored.

use glob_rules::Rule;
use std::alloc::{Allocator, Global};

/// Where a list of rules is from.
#[derive(Drop)]
#[derive_where(Debug)]
pub enum RuleList<A: Allocator = Global> {
    /// Of the lists that take precedence over those of files, the one at this index, counted from 0.
    First(usize),
    /// The ignore file at this path, such as `src/.gitignore`.
    File(String<A>),
    /// Of the lists that give way to those of files, the one at this index, counted from 0.
    Last(usize),
}

/// The rule that decides whether a path is ignored.
#[derive(Drop)]
#[derive_where(Debug)]
pub struct DecidingRule<A: Allocator = Global> {
    /// Where its list is from.
    pub list: RuleList<A>,
    /// The rule, with the number of its line. If it is negative, the path is not ignored.
    pub rule: Rule,
}
