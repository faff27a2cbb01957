//! What replays of tables share: counts of memory, scripted trees and streams, and the loops over files and cases.
//! `glob_replay_matches`, `glob_replay_walks` and `glob_replay_programs` make the calls of rows, each for its own
//! libraries; `glob_replay_memory` refuses each request for memory in turn; and `glob_vectors` is the program.
#![tactic(auto)]

pub mod asked_tree;
pub mod calls;
pub mod cases;
pub mod contents;
mod counts;
pub mod ration;
pub mod report;
pub mod settings;
pub mod streams;
pub mod words;

pub use counts::{Counts, raise};
