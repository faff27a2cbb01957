//! Reads a file with a pattern on each line, and prints the patterns that match a text.

use glob::Pattern;
use std::{env, fs, io};

pub fn main(rt: HostRuntime) -> io::Result<()> {
    let mut words = env::args(&rt)?.skip(1);
    let (Some(file), Some(text)) = (words.next(), words.next()) else {
        return Err(io::Error::other("usage: my_tool FILE TEXT"));
    };
    let lines = fs::read_to_string(&rt, file.as_str())?;
    for line in lines.lines() {
        match Pattern::new(rt.alloc(), line) {
            Ok(pattern) if pattern.matches(text.as_str())? => println!(rt; "{pattern}")?,
            Ok(_) => {}
            Err(refusal) => println!(rt; "{line}: {refusal}")?,
        }
    }
    Ok(())
}
