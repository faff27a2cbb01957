//! Patterns in the syntax of Unix shells: parsing them, and matching texts and paths. `src/**/[!t]*.rs` matches every
//! `.rs` file below `src` whose name does not begin with `t`.
#![tactic(auto)]

mod error;
mod grammar;
mod matcher;
mod options;
mod pattern;
mod token;

pub use error::{PatternError, PatternErrorKind, PatternRefusal};
pub use grammar::{characters_of, close_from, opens};
pub use matcher::{Judge, Shape, run_positions};
pub use options::MatchOptions;
pub use pattern::{Pattern, TokenKind, literal_at, may_match, token_kind, token_takes, tokens_len};
pub use token::taking::is_open;
