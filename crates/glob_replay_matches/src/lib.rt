//! Replays rows about patterns, matches, sets, ignore lists and captures, and answers test cases about these.
#![tactic(auto)]

pub mod cases;
mod judges;
mod matches;
mod rows;
pub mod rules;

pub use rows::Matches;
