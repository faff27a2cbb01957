//! Copies the lines that a pattern matches, or records that another byte ends, from a reader to a writer.
#![tactic(auto)]

mod copying;
mod fault;
mod lines;
mod matching;
mod record_ends;
mod rewriting;
mod selection;
mod watch;
mod writing;

pub use copying::{copy_selected, rewrite_selected};
pub use fault::LineFault;
pub use lines::{filter_lines, filter_records};
pub use rewriting::{Copied, Rewrite};
pub use selection::Selection;
pub use watch::Watch;
pub use writing::write_whole;
