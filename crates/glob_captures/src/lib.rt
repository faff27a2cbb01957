//! Which piece of a text each token of a pattern takes, and how far a pattern gets in a text that it does not match.
#![tactic(auto)]

mod capturing;
mod error;
mod piece;
mod reaching;
mod rests;
mod span;
mod steps;
mod written;

pub use capturing::captures;
pub use error::CapturesError;
pub use glob_pattern::TokenKind;
pub use piece::Piece;
pub use reaching::{Reached, reach};
pub use steps::MOST_STEPS;
pub use written::{Written, tokens};
