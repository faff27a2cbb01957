//! Cases about walks over the disk. `walk OPTIONS LIMIT PATTERN` gets `ok`, the units charged, and the items as in
//! `Found`; for a pattern with a fault, it gets `fault`, its place and its message.

use crate::walking::taken;
use glob::{Disk, glob_in};
use glob_replay::calls::Calls;
use glob_replay::ration::Memory;
use glob_replay::words::{add_fault, number_of, options_of, unusable};
use std::io::{self, Write};

/// Adds the answer to `walk` with these other fields.
pub fn add_walk<M: Memory>(
    calls: &mut Calls<M>,
    rt: HostRuntime,
    fields: &[&str],
) -> io::Result<()> {
    let [letters, limit, pattern] = *fields else {
        return Err(unusable());
    };
    let (limit, disk) = (number_of(limit)? as u64, Disk::new(rt, calls.alloc));
    match glob_in(calls.alloc, disk, pattern, options_of(letters)?, limit) {
        Ok(paths) => {
            let found = taken(calls.alloc, paths)?;
            Ok(write!(calls.words, "ok\t{}{}", found.spent, found.text()?)?)
        }
        Err(refusal) => add_fault(refusal, "fault\t", &mut calls.words),
    }
}
