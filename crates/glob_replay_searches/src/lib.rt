//! Random searches over trees in memory. What each finds is compared with a filter of all paths, which keeps the paths
//! that one of the patterns matches and that a single list of all rules does not ignore.
#![tactic(auto)]

mod case;
mod chance;
mod filter;
mod forest;
mod found;
mod rows;
mod rule_texts;

pub use rows::Searches;
