//! Replays rows about records that are copied, what programs write, and how often a walk lists a directory with kinds.
#![tactic(auto)]

mod copies;
mod writes;

use glob_replay::calls::{Calls, Make};
use glob_replay::ration::Memory;
use glob_replay::words::unusable;
use std::io;

/// Copies of records, what programs write, and listings of a walk. The first word of a row names its calls, and the
/// others are its fields.
#[derive(Clone, Copy)]
pub struct Programs;

impl Make for Programs {
    fn make<M: Memory>(&self, calls: &mut Calls<M>, row: &[&str]) -> io::Result<()> {
        match row {
            ["copy", fields @ ..] => copies::add_copy(calls, fields),
            ["write", fields @ ..] => writes::add_writes(calls, fields),
            ["write whole", writer, text] => writes::add_whole(calls, writer, text),
            ["list kinds", content, pattern] => writes::add_listings(calls, content, pattern),
            _ => Err(unusable()),
        }
    }
}
