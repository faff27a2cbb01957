//! Cases of tests: a line of standard output for each line of standard input. Fields are separated by tabs. The Rust
//! crate's side is `tests/rust/programs/src/bin/answer.rs`.

use crate::calls::{Calls, Make};
use crate::ration::Memory;
use std::io::{self, Write};

/// Answers each line of standard input with calls that use this memory, and writes each answer at once.
pub fn answer_lines<M: Memory, S: Make>(rt: HostRuntime, memory: M, subject: &S) -> io::Result<()> {
    let mut writer = io::writer(&rt);
    for line in rt.lines(rt.alloc()) {
        let (line, mut calls) = (line?, Calls::new(memory, memory));
        let fields = line.split('\t').collect::<Vec<&str>>(rt.alloc())?;
        subject.make(&mut calls, fields.as_slice())?;
        calls.words.push('\n')?;
        writer.write_all(calls.words.as_bytes())?;
    }
    Ok(())
}
