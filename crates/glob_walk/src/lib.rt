//! The walk of a pattern over a tree, as a machine whose caller answers its questions.
#![tactic(auto)]

mod component;
mod ending;
mod error;
mod frame;
pub mod laws;
mod machine;
mod meter;
mod plain;
mod plan;
mod query;
mod stack;
mod step;
mod task;
#[cfg(test)]
mod tests;
mod walker;

pub use component::is_recursive;
pub use ending::{End, end_of};
pub use error::{GlobCause, GlobError, GlobResult};
pub use machine::{Answer, Step, WalkMachine};
pub use plain::is_plain;
