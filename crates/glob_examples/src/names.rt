//! Path patterns that are matched name by name: an example of a judge whose alphabet is not text.
//!
//! The characters of this alphabet are the names of a path, separated by `/`, and a token matches a whole name. So
//! `a/**/*.rs` has three tokens: two patterns for one name each, and `**`, which matches any number of names. It
//! matches `a/x/y/z.rs`:
//!
//! ```text
//! components   a    **    *.rs
//! names        a   x  y   z.rs
//! ```
//!
//! `glob::run_positions` decides whether the names split into groups, one for each component. It knows nothing about
//! names, but asks a [`glob::Judge`]. The judge here looks up its answers in a table made in advance, because matching
//! a name needs memory, and a judge cannot report a failed allocation.
mod judge;
mod pattern;

pub use pattern::PathPattern;
