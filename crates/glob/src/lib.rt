//! Unix shell patterns for texts and paths.
//!
//! | Pattern | Matches |
//! |---|---|
//! | `main.rs` | only that text |
//! | `?at` | `cat` and `Hat`, not `at` |
//! | `*.rs` | `main.rs`, `.rs` and, without the separator rule, `src/main.rs` |
//! | `src/**/*.rs` | `src/main.rs` and `src/a/b/c.rs`: `**` takes any number of whole components |
//! | `[a-c]x` | `ax`, `bx` and `cx` |
//! | `[!a-c]x` | `dx`, not `ax` |
//! | `[]]`, `[*]` | `]`, `*`: a character in brackets stands for itself |
//!
//! `Pattern::new` parses a [`Pattern`]. If the text is not a pattern, it reports the first fault and its place in
//! characters: for `a**` place 0, since `**` has to be a whole component. `Pattern::escape` writes the pattern that
//! matches only the given text.
//!
//! [`MatchOptions`] set case, the separator rule and the dot rule. [`filter_lines`] copies the lines of a reader that a
//! pattern matches, and [`filter_records`] does so for records that end in another byte. [`run_positions`] decides for
//! any [`Judge`], over any alphabet, whether characters split into pieces.
//!
//! [`glob`] walks the file system and gives each path that a pattern leads to; [`glob_with`] takes options. [`glob_in`]
//! walks any [`Tree`] within a limit, item by item, and [`walk_in`] gathers a whole walk. [`MemTree`] is a tree in
//! memory, and [`Disk`] the file system that a [`System`] reaches: the real one, the files of a runtime of your own
//! ([`FilesSystem`]) or, for tests, a [`MemSystem`]. A [`WalkMachine`] is a walk without a tree: the calling program
//! answers its questions.
//!
//! A call that makes or grows something takes its allocator, and reports an allocation failure as an error.
#![tactic(auto)]

mod disk_walk;
pub mod laws;
mod paths;
mod walk;

pub use disk_walk::{glob, glob_with};
pub use glob_lines::{LineFault, Watch, filter_lines, filter_records};
pub use glob_pattern::{
    Judge, MatchOptions, Pattern, PatternError, PatternErrorKind, PatternRefusal, Shape,
    run_positions,
};
pub use glob_tree::{
    Asks, Directory, DirectoryId, Disk, Entry, FilesSystem, ListError, Look, MemSystem, MemTree,
    Name, System, Tree, TreeRefusal,
};
pub use glob_walk::{Answer, End, GlobCause, GlobError, GlobResult, Step, WalkMachine, is_plain};
pub use paths::{Paths, glob_in};
pub use walk::{Walk, walk_in};
