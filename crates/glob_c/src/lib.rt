//! Patterns and walks for C, and for Rust through C. `include/cadmiumdove.h` says what a caller must do.
#![tactic(auto)]

mod escape;
mod fault;
mod handle;
mod loose;
mod pattern;
mod session;
mod slot;
mod walk;
mod walk_handle;
