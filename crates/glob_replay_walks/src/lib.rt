//! Replays rows about trees, walks and disks, and answers test cases about walks.
#![tactic(auto)]

pub mod cases;
pub mod disk;
pub mod disks;
mod goals;
pub mod mem_files;
mod rows;
pub mod trees;
mod walking;
pub mod walks;

pub use rows::Walks;
