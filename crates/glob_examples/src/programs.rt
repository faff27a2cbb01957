//! Whole programs. Each file is the `src/main.rt` of a crate that names `glob` in its line of `crates.txt`. CALLING of
//! `glob` quotes them line by line, and `tests/docs.py` checks that it does.

pub mod input;
pub mod patterns;
pub mod tree;
