//! Replays rows with counted memory, and again with each request for memory refused in turn.
#![tactic(auto)]

pub mod matches;
pub mod rationing;
mod refusing;
mod rows;

pub use rows::replay_row;
