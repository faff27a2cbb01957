//! Rows about what programs write, and when: `JOB | CONTENT | OUTPUT | ERRORS`, where the last two are writers.

use glob_console::{ErrorLines, Every, WalkSettings, find_in, write_text};
use glob_lines::write_whole;
use glob_pattern::MatchOptions;
use glob_replay::Counts;
use glob_replay::asked_tree::AskedTree;
use glob_replay::calls::Calls;
use glob_replay::ration::Memory;
use glob_replay::streams::{Stream, Trouble, error_of};
use glob_replay::words::{cut, out_of_memory, unusable};
use glob_tree::Tree;
use std::io::{self, Write};

/// The result of a job.
#[derive(Drop)]
struct Ran<'a> {
    status: u8,
    output: Stream<'a>,
    errors: Stream<'a>,
}

/// Does a row's job as the program `name`, over a tree with the row's content. The job is `text`, `fault` or
/// `arguments` with what to write or report, or `find` with a pattern. The clock of the writers counts questions. It is
/// an error if memory was refused.
fn run<'a, M: Memory>(alloc: M, row: &[&str], counts: &'a Counts) -> io::Result<Ran<'a>> {
    let [job, content, output, errors] = *row else {
        return Err(unusable());
    };
    let mut output = Stream::new(alloc.inner(), b"", output)?;
    let mut errors = Stream::new(alloc.inner(), b"", errors)?;
    output.clock = Some(&counts.asked);
    errors.clock = Some(&counts.asked);
    let lines = &mut ErrorLines::quiet(alloc, "name: ", &mut errors);
    let status = match cut(job, " ")? {
        ("text", text) => write_text(text, &mut output, lines),
        ("fault", line) => lines.fault(line),
        ("arguments", error) => lines.arguments_fault(&error_of(error)?, "not UTF-8"),
        ("find", pattern) => {
            let tree = AskedTree::of(alloc, content, counts)?;
            find(alloc, tree, pattern, &mut output, lines)
        }
        _ => return Err(unusable()),
    };
    if alloc.ration().has_refused() && errors.text()?.ends_with("out of memory\n") {
        return Err(out_of_memory());
    }
    Ok(Ran {
        status,
        output,
        errors,
    })
}

/// Writes what a walk finds in a tree, and returns the status.
fn find<T: Tree, W: Write, E: Write>(
    alloc: T::Alloc,
    tree: T,
    pattern: &str,
    output: &mut W,
    lines: &mut ErrorLines<'_, T::Alloc, E>,
) -> u8 {
    let walk = WalkSettings {
        pattern,
        options: MatchOptions::new(),
        limit: u64::MAX,
        end: b'\n',
    };
    match find_in(alloc, tree, walk, &Every, output, lines) {
        Ok(findings) => findings.status(),
        Err(fault) => fault.report(lines),
    }
}

/// Does a row's job. Adds the status and, for each writer, how many writes of many bytes there were, and what was
/// written, or only how many bytes if its writes are due at given times. A writer that fails must not be flushed twice.
pub fn add_writes<M: Memory>(calls: &mut Calls<M>, row: &[&str]) -> io::Result<()> {
    let counts = Counts::default();
    let ran = run(calls.alloc, row, &counts)?;
    write!(calls.words, "{}", ran.status)?;
    add_written(&ran.output, &mut calls.words)?;
    add_written(&ran.errors, &mut calls.words)
}

/// Writes a text with `write_whole`. Adds its error, if there is one, how many writes there were, and what was written.
pub fn add_whole<M: Memory>(calls: &mut Calls<M>, writer: &str, text: &str) -> io::Result<()> {
    let (alloc, words) = (calls.alloc.inner(), &mut calls.words);
    let mut output = Stream::new(alloc, b"", writer)?;
    if let Err(error) = write_whole(&mut output, text.as_bytes()) {
        write!(words, "{:?} {error}: ", error.kind())?;
    }
    Ok(write!(words, "{} {}", output.calls, output.text()?)?)
}

fn add_written(writer: &Stream<'_>, words: &mut String) -> io::Result<()> {
    words.push(' ')?;
    if writer.most >= 100 {
        write!(words, "{} ", writer.calls)?;
    }
    if !writer.due.is_empty() {
        return Ok(write!(words, "{} bytes", writer.written.len())?);
    }
    let is_willing = matches!(writer.trouble, Trouble::Never | Trouble::Interrupts);
    if !is_willing && writer.flushes > 1 {
        words.push_str("flushed twice ")?;
    }
    Ok(words.push_str(writer.text()?)?)
}

/// Adds how often `find_in` lists a directory, and how often only its names.
pub fn add_listings<M: Memory>(
    calls: &mut Calls<M>,
    content: &str,
    pattern: &str,
) -> io::Result<()> {
    let (alloc, counts) = (calls.alloc, Counts::default());
    let job = format!(in alloc.inner(); "find {pattern}")?;
    drop(run(alloc, &[job.as_str(), content, "99", "99"], &counts)?);
    let (listings, namings) = (counts.listings.get(), counts.namings.get());
    Ok(write!(calls.words, "{listings} {namings} ")?)
}
