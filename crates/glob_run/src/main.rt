//! Shell patterns at the command line. `glob_run match PATTERN` copies the matching lines of standard input, `glob_run
//! escape TEXT` writes the pattern that matches the text literally, and `glob_run find PATTERN` writes the paths on the
//! disk that the pattern matches.
#![tactic(auto)]

ghost use Rattle.std.specs.Prelude.{◌≤◌, IfOk, OnErr, chars, map, string_bytes};
ghost use Rattle.glob.specs.Grammar.Units.{IsAccepted};
ghost use Rattle.glob.specs.Lines.{FiltersLines, FiltersSomeBytes};
ghost use Rattle.glob_console.specs.Outcomes.{IsRefused};
ghost use Rattle.glob_run.specs.CommandLine.{request_asked};
ghost use Rattle.glob_run.specs.Outcomes.{CopiesLines, Fulfils, IsEscapedLine, WritesEscaped};

mod command;
mod find;
#[cfg(test)]
mod tests;

use command::Command;
use find::run_find;
use glob::{Disk, LineFault, MatchOptions, Pattern, Tree, Watch, filter_lines};
use glob_console::{Borrowed, ErrorLines, FOUND, UNFOUND, arguments, as_strs, write_text};
use std::alloc::{AllocError, Allocator};
use std::io::{Read, Write};
use std::process::ExitCode;

/// The line for a usage fault.
const USAGE: &str =
    "usage: glob_run match [-i] [-s] [-d] PATTERN | escape TEXT | find [-i] [-s] [-d] [-n LIMIT] PATTERN";

/// Runs the program on `words`, the arguments after its name, and returns its exit status: 0 if something matched or a
/// text was escaped, 1 if nothing matched, and 2 after a fault or an error of the walk. `find` walks the tree.
///
/// A fault is one line on `errors`; failed writes to `errors` are ignored. A usage fault or an invalid pattern leaves
/// the output unchanged. Tests, not clauses, show that the program then reads neither the input nor the tree.
///
/// With the input `"a.rs\nb.c\n"`, the words `match` and `*.rs` write `"a.rs\n"`, and the status is 0.
pub fn run_words<T: Tree, R: Read + Drop, W: Write, E: Write>(
    alloc: T::Alloc,
    tree: T,
    words: &[&str],
    input: R,
    output: &mut W,
    errors: &mut E,
) -> u8
    ensures most { result ≤ 2 }
    ensures request { Fulfils W.contents (T.tells tree) (R.remaining input)
        (request_asked (map (λ w. w.now) words.now)) output.old output.new result }
{
    let errors = &mut ErrorLines::new(alloc, "", errors);
    let Some(command) = Command::parse(words) else {
        return errors.fault(USAGE);
    };
    match command {
        Command::Match { options, pattern } => {
            run_match(alloc, options, pattern, input, output, errors)
        }
        Command::Escape { text } => run_escape(alloc, text, output, errors),
        Command::Find {
            options,
            limit,
            pattern,
        } => run_find(alloc, tree, pattern, options, limit, output, errors),
    }
}

/// Parses the pattern, copies the lines that it matches, and returns the status.
fn run_match<A: Allocator + Copy, R: Read + Drop, W: Write, E: Write>(
    alloc: A,
    options: MatchOptions,
    pattern: &str,
    input: R,
    output: &mut W,
    errors: &mut ErrorLines<'_, A, E>,
) -> u8
    ensures most { result ≤ 2 }
    ensures refused { (¬ (IsAccepted (chars pattern.now)))
        → IsRefused output.old output.new result }
    ensures lines { CopiesLines options pattern.now (R.remaining input)
        (W.contents output.old) (W.contents output.new) result }
{
    match Pattern::new(alloc, pattern) {
        Ok(pattern) => copy_lines(alloc, &pattern, options, input, output, errors),
        Err(refusal) => errors.fault(refusal),
    }
}

/// Copies the matching lines, and returns the status.
#[tactic(auto, unfolding(crate::specs::Outcomes::CopiesLines))]
fn copy_lines<A: Allocator + Copy, R: Read + Drop, W: Write, E: Write>(
    alloc: A,
    pattern: &Pattern<A>,
    options: MatchOptions,
    input: R,
    output: &mut W,
    errors: &mut ErrorLines<'_, A, E>,
) -> u8
    ensures most { result ≤ 2 }
    ensures lines { CopiesLines options pattern.now (R.remaining input)
        (W.contents output.old) (W.contents output.new) result }
{
    match filter_input(alloc, pattern, options, input, output) {
        Ok(0) => UNFOUND,
        Ok(_) => FOUND,
        Err(line_fault) => errors.fault(line_fault),
    }
}

/// Copies the matching lines, and returns how many there are. After an error, the first bytes of these lines were
/// written.
fn filter_input<A: Allocator + Copy, R: Read + Drop, W: Write>(
    alloc: A,
    pattern: &Pattern<A>,
    options: MatchOptions,
    input: R,
    output: &mut W,
) -> Result<u64, LineFault>
    ensures lines { IfOk result (FiltersLines options pattern.now (R.remaining input)
        (W.contents output.old) (W.contents output.new)) }
    ensures some { OnErr result (FiltersSomeBytes options pattern.now (R.remaining input)
        (W.contents output.old) (W.contents output.new)) }
{
    let mut reader = Watch::new(input);
    let mut writer = Watch::new(Borrowed { writer: output });
    let answer = filter_lines(alloc, pattern, options, &mut reader, &mut writer);
    let Borrowed { writer: output } = writer.into_inner();
    // This has no effect at run time: the proof needs the contents of the output here.
    let _ = &*output;
    answer
}

/// Writes the pattern that matches the text literally, and returns the status.
fn run_escape<A: Allocator + Copy, W: Write, E: Write>(
    alloc: A,
    text: &str,
    output: &mut W,
    errors: &mut ErrorLines<'_, A, E>,
) -> u8
    ensures most { result ≤ 2 }
    ensures escaped { WritesEscaped text.now
        (W.contents output.old) (W.contents output.new) result }
{
    match escaped_line(alloc, text) {
        Ok(line) => write_text(&line, output, errors),
        Err(_) => errors.memory_fault(),
    }
}

/// The escaped text and a line feed.
fn escaped_line<A: Allocator + Copy>(alloc: A, text: &str) -> Result<String<A>, AllocError>
    ensures { IfOk result (λ line. IsEscapedLine text.now (string_bytes line)) }
{
    let mut line = Pattern::escape(alloc, text)?;
    line.push('\n')?;
    Ok(line)
}

fn main(rt: HostRuntime) -> ExitCode {
    let alloc = rt.alloc();
    let mut stderr = rt.stderr();
    let mut errors = ErrorLines::new(alloc, "", &mut stderr);
    let arguments = match arguments(&rt) {
        Ok(arguments) => arguments,
        Err(error) => return ExitCode::from(errors.arguments_fault(&error, USAGE)),
    };
    let Ok(words) = as_strs(alloc, arguments.as_slice()) else {
        return ExitCode::from(errors.memory_fault());
    };
    let tree = Disk::new(rt, alloc);
    ExitCode::from(run_words(
        alloc,
        tree,
        words.as_slice(),
        rt.stdin(),
        &mut rt.stdout(),
        &mut rt.stderr(),
    ))
}
