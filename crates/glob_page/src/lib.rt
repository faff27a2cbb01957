//! What the page of docs/page calls: why a pattern is not valid, its tokens, the pieces of a match, and walks.
//! `bin/page` builds it for WebAssembly.
#![tactic(auto)]

mod buffer;
mod matching;
mod pattern;
mod story;
mod walking;
mod written;
