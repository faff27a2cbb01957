//! Copies the lines of standard input that the pattern of the first argument matches.

use glob::{MatchOptions, Pattern, PatternRefusal, Watch, filter_lines};
use std::{env, io};

pub fn main(rt: HostRuntime) -> io::Result<()> {
    let alloc = rt.alloc();
    let Some(word) = env::args(&rt)?.nth(1) else {
        return Err(io::Error::other("usage: my_tool PATTERN"));
    };
    let pattern = match Pattern::new(alloc, word.as_str()) {
        Ok(pattern) => pattern,
        Err(PatternRefusal::Syntax(fault)) => {
            println!(rt; "{word}: {fault}")?;
            return Err(io::Error::other("not a pattern"));
        }
        Err(PatternRefusal::Memory) => return Err(io::Error::from(io::ErrorKind::OutOfMemory)),
    };
    let mut reader = Watch::new(rt.stdin());
    let mut writer = Watch::new(rt.stdout());
    let copied = filter_lines(
        alloc,
        &pattern,
        MatchOptions::new(),
        &mut reader,
        &mut writer,
    );
    match copied {
        Ok(0) => Err(io::Error::other("no line matches")),
        Ok(_) => Ok(()),
        Err(_) => Err(io::Error::other("the lines could not be copied")),
    }
}
