//! What the programs share at the command line: words, lines of standard error, and the paths of a walk as records.
#![tactic(auto)]

mod borrowed;
mod choice;
mod error_lines;
mod find;
pub mod laws;
mod status;
mod words;
mod writing;

pub use borrowed::Borrowed;
pub use choice::{Choice, Every};
pub use error_lines::{ErrorLines, write_line};
pub use find::fault::FindFault;
pub use find::findings::Findings;
pub use find::{WalkSettings, find_in};
pub use status::{FAULT, FOUND, UNFOUND};
pub use words::{arguments, as_strs, parse_limit, set_match_option};
pub use writing::write_text;
