//! Ignore lists: which paths the rules of gitignore(5) exclude.
//!
//! An [`IgnoreList`] of the lines `*.o`, `target/` and `!keep.o` ignores `a.o` and everything below `src/target`, but
//! not `keep.o`.
#![tactic(auto)]

mod classes;
mod error;
mod lines;
mod list;
mod listing;
mod reading;
mod rule;
mod rules;
mod steps;

pub use error::{Reason, RuleRefusal};
pub use lines::kept_line;
pub use list::IgnoreList;
pub use rule::Rule;
