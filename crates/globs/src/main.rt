//! Shell patterns at the command line: `globs find '**/*.rs'` writes the paths that a pattern matches. Other commands
//! match lines, apply ignore lists, explain matches and escape texts.
#![tactic(auto)]

ghost use Rattle.std.specs.Prelude.{◌≡◌, ◌≤◌, false, map};
ghost use Rattle.globs.specs.CommandLine.{request_asked};
ghost use Rattle.globs.specs.Copying.{input_of};
ghost use Rattle.globs.specs.Faults.{WritesUsage};
ghost use Rattle.globs.specs.Outcomes.{Fulfils};
ghost use Rattle.globs.specs.Reading.{Runs};
ghost use Rattle.globs.specs.Requests.{request_of};

mod above;
mod braces;
mod command;
mod copying;
mod escape;
mod explain;
mod files;
mod find;
mod foreign;
mod forms;
mod git;
mod gone;
mod help;
mod ignore;
mod ignoring;
mod input;
mod matching;
mod name;
mod options;
mod patterns;
mod place;
mod quoting;
mod spelling;
mod usage;
mod visible;
mod whole;
mod wide;

use command::{Asked, Command};
use escape::run_escape;
use explain::run_explain;
use files::{DiskFiles, IgnoreFiles};
use find::disk::{Here, last_status};
use find::find_asked;
use find::kinds::PathKinds;
use find::places::Places;
use glob_console::{ErrorLines, FAULT, arguments, as_strs, write_line, write_text};
use glob_lines::Watch;
use gone::{PipeWatch, pipe_status};
use ignore::run_ignore;
use input::note_terminal;
use matching::match_words;
use name::Name;
use std::alloc::Allocator;
use std::cell::Cell;
use std::io::{IsTerminal, Read, Write};
use std::process::ExitCode;

/// The prefix of each fault on standard error.
const PREFIX: &str = "globs: ";

/// Runs the command that `words`, the arguments after the program's name, ask for, and returns the exit status: 0 if
/// something was found, copied or matched, or a text was written; 1 if nothing was found, copied or matched; 2 after a
/// fault, which is reported on `errors` unless the reader closed the output. A usage fault is one line, and leaves the
/// output unchanged.
///
/// With the input `"a.rs\nb.c\n"`, the words `match` and `*.rs` write `"a.rs\n"`, and the status is 0.
pub fn run_words<P, F, R, W, E>(
    alloc: P::Alloc,
    places: &P,
    files: &F,
    words: &[&str],
    input: &mut Watch<R>,
    output: &mut W,
    errors: &mut E,
) -> u8
where
    P: Places,
    F: IgnoreFiles + PathKinds,
    R: Read,
    W: Write,
    E: Write,
    requires { input.old.failed ≡ false }
    ensures most { result ≤ 2 }
    ensures request { Fulfils W.contents (record {
      content = P.content places.now;
      texts = P.texts places.now;
      kinds = F.kinds files.now;
      above = P.above places.now;
      holds = F.holds files.now;
      input = input_of R.remaining input.old input.new;
    })
        (request_asked (map (λ w. w.now) words.now)) output.old output.new result }
    ensures usage { WritesUsage E.contents PREFIX.now
        (request_asked (map (λ w. w.now) words.now)) errors.old errors.new }
{
    match Command::parse(alloc, words) {
        Ok(command) => {
            let errors = &mut ErrorLines::quiet(alloc, PREFIX, errors);
            run_asked(alloc, places, files, &command, input, output, errors)
        }
        Err(usage_line) => {
            write_line(alloc, PREFIX, &usage_line, errors);
            FAULT
        }
    }
}

/// Runs a parsed command line, and returns the exit status.
fn run_asked<P, F, R, W, E>(
    alloc: P::Alloc,
    places: &P,
    files: &F,
    command: &Command<'_, P::Alloc>,
    input: &mut Watch<R>,
    output: &mut W,
    errors: &mut ErrorLines<'_, P::Alloc, E>,
) -> u8
where
    P: Places,
    F: IgnoreFiles + PathKinds,
    R: Read,
    W: Write,
    E: Write,
    requires { input.old.failed ≡ false }
    ensures most { result ≤ 2 }
    ensures request { Fulfils W.contents (record {
      content = P.content places.now;
      texts = P.texts places.now;
      kinds = F.kinds files.now;
      above = P.above places.now;
      holds = F.holds files.now;
      input = input_of R.remaining input.old input.new;
    })
        (request_of command.now) output.old output.new result }
{
    match command {
        Command::Run(name, asked) => {
            run_command(alloc, places, files, *name, asked, input, output, errors)
        }
        Command::Help(name) => write_text(help::page_of(*name), output, errors),
        Command::Version => write_text(help::VERSION, output, errors),
    }
}

/// Runs a command, and returns the exit status.
#[tactic(auto, unfolding(crate::specs::Outcomes::Fulfils))]
fn run_command<P, F, R, W, E>(
    alloc: P::Alloc,
    places: &P,
    files: &F,
    name: Name,
    asked: &Asked<'_, P::Alloc>,
    input: &mut Watch<R>,
    output: &mut W,
    errors: &mut ErrorLines<'_, P::Alloc, E>,
) -> u8
where
    P: Places,
    F: IgnoreFiles + PathKinds,
    R: Read,
    W: Write,
    E: Write,
    requires { input.old.failed ≡ false }
    ensures most { result ≤ 2 }
    ensures request { Fulfils W.contents (record {
      content = P.content places.now;
      texts = P.texts places.now;
      kinds = F.kinds files.now;
      above = P.above places.now;
      holds = F.holds files.now;
      input = input_of R.remaining input.old input.new;
    })
        (Runs name asked.now.options (map (λ w. w.now) asked.now.operands.now))
        output.old output.new result }
{
    let settings = asked.options.settings;
    let operands = asked.operands;
    match name {
        Name::Find => find_asked(alloc, places, files, asked, output, errors),
        Name::Match => match_words(alloc, settings, operands, input, output, errors),
        Name::Ignore => {
            run_ignore(
                alloc, places, files, settings, operands, input, output, errors,
            )
        }
        Name::Explain => run_explain(alloc, settings.options, operands, output, errors),
        Name::Escape => run_escape(alloc, settings.end, operands, output, errors),
    }
}

/// Says that a terminal is read, if the words ask for a command that reads standard input.
fn note_input(rt: HostRuntime, words: &[&str]) {
    if let Ok(Command::Run(name, asked)) = Command::parse(rt.alloc(), words) {
        note_terminal(
            name,
            asked.operands,
            &mut ErrorLines::quiet(rt.alloc(), PREFIX, &mut rt.stderr()),
        );
    }
}

/// Runs the command that `words` ask for over the real disk and the standard streams, and returns the exit status.
fn run_here(rt: HostRuntime, words: &[&str]) -> u8 {
    let (has_stray, is_gone) = (Cell::new(false), Cell::new(false));
    if rt.stdin().is_terminal() {
        note_input(rt, words);
    }
    let mut output = PipeWatch {
        writer: rt.stdout(),
        is_gone: &is_gone,
    };
    let status = run_words(
        rt.alloc(),
        &Here {
            rt,
            has_stray: &has_stray,
        },
        &DiskFiles { rt },
        words,
        &mut Watch::new(rt.stdin()),
        &mut output,
        &mut rt.stderr(),
    );
    pipe_status(is_gone.get(), last_status(has_stray.get(), status))
}

fn main(rt: HostRuntime) -> ExitCode {
    let alloc = rt.alloc();
    let mut stderr = rt.stderr();
    let mut errors = ErrorLines::quiet(alloc, PREFIX, &mut stderr);
    let arguments = match arguments(&rt) {
        Ok(arguments) => arguments,
        Err(error) => {
            return ExitCode::from(errors.arguments_fault(&error, "a word is not UTF-8"));
        }
    };
    let Ok(words) = as_strs(alloc, arguments.as_slice()) else {
        return ExitCode::from(errors.memory_fault());
    };
    ExitCode::from(run_here(rt, words.as_slice()))
}
