//! Parses the command line.
ghost use Rattle.std.specs.Prelude.{◌≡◌, IfOk, IfErr, map, option_map, Option, None};
ghost use Rattle.globs.specs.Options.{new_options};
ghost use Rattle.globs.specs.CommandLine.{command_asked, extra_word, first_option, help_asked, is_help, late_why};
ghost use Rattle.globs.specs.CommandLine.{needs_operand, operands_asked, page_named, reading, request_asked};
ghost use Rattle.globs.specs.Chosen.{Chosen};
ghost use Rattle.globs.specs.Reading.{Asks};
ghost use Rattle.globs.specs.Requests.{IsWrong, IsWrongRequest, asked_reading, request_of};

use crate::name::Name;
use crate::options::{Options, Settings, Valued};
use crate::spelling::{attached, with_flags};
use crate::usage::{UsageFault, UsageLine, Why};
use std::alloc::Allocator;

/// A parsed command line.
#[derive(Drop)]
pub enum Command<'a, A: Allocator> {
    /// Run this command.
    Run(Name, Asked<'a, A>),
    /// Write the help page of a command, or the page of the whole program.
    Help(Option<Name>),
    /// Write the version.
    Version,
}

/// The options of a command and its operands: at least one, except for `ignore --git`.
#[derive(Drop)]
pub struct Asked<'a, A: Allocator> {
    pub options: Options<'a, A>,
    pub operands: &'a [&'a str],
}

impl<'a, A: Allocator + Copy> Command<'a, A> {
    /// Parses the words after the program's name. The error has the first wrong word and its command, if one was given,
    /// or reports a failed allocation.
    #[tactic(auto, unfolding(crate::specs::CommandLine::request_asked))]
    pub fn parse(alloc: A, words: &'a [&'a str]) -> Result<Self, UsageLine<'a>>
        ensures asked { IfOk result (λ command.
            request_asked (map (λ w. w.now) words.now) ≡ request_of command) }
        ensures wrong { IfErr result (IsWrongRequest (request_asked (map (λ w. w.now) words.now))) }
    {
        match words {
            [] => Err(UsageLine::new(None, Why::Empty, "")),
            [word, rest @ ..] => match *word {
                "--version" => Ok(Command::Version),
                "-h" | "--help" | "help" => Self::parse_help(rest),
                word => Self::parse_named(alloc, word, rest),
            },
        }
    }

    /// Parses the words after `help`, `-h` or `--help`.
    fn parse_help(words: &'a [&'a str]) -> Result<Self, UsageLine<'a>>
        ensures asked { IfOk result (λ command.
            help_asked (map (λ w. w.now) words.now) ≡ request_of command) }
        ensures wrong { IfErr result (IsWrongRequest (help_asked (map (λ w. w.now) words.now))) }
    {
        match words {
            [] => Ok(Command::Help(None)),
            [word] => match page_named(word) {
                Some(page) => Ok(Command::Help(page)),
                None => Err(UsageLine::new(None, Why::Command, word)),
            },
            [word, extra, ..] => match page_named(word) {
                Some(_) => Err(UsageLine::new(None, Why::Surplus, extra)),
                None => Err(UsageLine::new(None, Why::Command, word)),
            },
        }
    }

    /// Parses a command's name, `word`, and the words after it.
    #[tactic(auto, unfolding(crate::specs::CommandLine::command_asked))]
    fn parse_named(alloc: A, word: &'a str, words: &'a [&'a str]) -> Result<Self, UsageLine<'a>>
        ensures asked { IfOk result (λ command.
            command_asked word.now (map (λ w. w.now) words.now) ≡ request_of command) }
        ensures wrong { IfErr result
            (IsWrongRequest (command_asked word.now (map (λ w. w.now) words.now))) }
    {
        let Some(name) = Name::named(word) else {
            return Err(UsageLine::new(None, Why::Command, word));
        };
        match Asked::parse(alloc, name, words) {
            Ok(Some(asked)) => Ok(Command::Run(name, asked)),
            Ok(None) => Ok(Command::Help(Some(name))),
            Err(fault) => Err(UsageLine {
                name: Some(name),
                fault,
            }),
        }
    }
}

/// The page that the word after `help` names: a command's page, or `None` for `help` itself, which means the program's
/// page.
fn page_named(word: &str) -> Option<Option<Name>>
    ensures { result ≡ page_named word.now }
{
    if word == "help" || asks_help(word) {
        return Some(None);
    }
    Name::named(word).map(Some)
}

/// Whether the word is `-h` or `--help`.
fn asks_help(word: &str) -> bool
    ensures { result ≡ is_help word.now }
{
    word == "-h" || word == "--help"
}

impl<'a, A: Allocator + Copy> Asked<'a, A> {
    /// Parses the options of a command and the operands after them. `None` if an option asks for the command's help
    /// page.
    pub fn parse(alloc: A, name: Name, words: &'a [&'a str]) -> Result<Option<Self>, UsageFault<'a>>
        ensures asked { IfOk result (λ asked.
            reading name (new_options name) (map (λ w. w.now) words.now)
            ≡ asked_reading asked) }
        ensures wrong { IfErr result
            (IsWrong (reading name (new_options name) (map (λ w. w.now) words.now))) }
    {
        let mut options = Options::new(alloc, name);
        let mut rest = words;
        while let [word, after @ ..] = rest {
            if asks_help(word) {
                return Ok(None);
            }
            rest = if let Some(option) = Valued::asked(name, word) {
                let [value, others @ ..] = after else {
                    return Err(UsageFault::Word(Why::Valueless, word));
                };
                options.take(option, value)?;
                let [_next, ..] = others else {
                    return Err(UsageFault::Word(Why::Taken, value));
                };
                others
            } else if let Some((option, value)) = attached(name, word) {
                options.take(option, value)?;
                after
            } else if let Some(settings) = with_flags(options.settings, name, word) {
                options.settings = settings;
                after
            } else {
                return Self::with_operands(options, name, rest);
            };
        }
        Self::with_operands(options, name, rest)
    }

    /// Parses the operands after these options.
    fn with_operands(
        options: Options<'a, A>,
        name: Name,
        words: &'a [&'a str],
    ) -> Result<Option<Self>, UsageFault<'a>>
        ensures asked { IfOk result (λ asked.
            operands_asked name options.entry (map (λ w. w.now) words.now)
            ≡ asked_reading asked) }
        ensures wrong { IfErr result
            (IsWrong (operands_asked name options.entry (map (λ w. w.now) words.now))) }
    {
        let is_needed = needs_operand(name, options.settings);
        let operands = operands_of(name, is_needed, words)?;
        Ok(Some(Asked { options, operands }))
    }
}

/// Whether the command needs an operand. With git's rules `ignore` does not.
fn needs_operand(name: Name, settings: Settings) -> bool
    ensures { result ≡ needs_operand name settings }
{
    !(matches!(name, Name::Ignore) && settings.is_git)
}

/// The operands after the options. Operands that begin with `-` are accepted only after `--`.
fn operands_of<'a>(
    name: Name,
    is_needed: bool,
    words: &'a [&'a str],
) -> Result<&'a [&'a str], UsageFault<'a>>
    ensures operands { IfOk result (λ operands. (o : Chosen)
        → needs_operand name o.settings ≡ is_needed
        → operands_asked name o (map (λ w. w.now) words.now)
        ≡ Asks o (map (λ w. w.now) operands.now)) }
    ensures wrong { IfErr result (λ fault. (o : Chosen)
        → needs_operand name o.settings ≡ is_needed
        → IsWrong (operands_asked name o (map (λ w. w.now) words.now)) fault) }
{
    match words {
        [] if is_needed => Err(UsageFault::Word(Why::Bare, "")),
        [] => Ok(words),
        [dashes, operands @ ..] if *dashes == "--" => match operands {
            [] if is_needed => Err(UsageFault::Word(Why::Bare, "")),
            _ => Ok(operands),
        },
        [word, ..] if word.starts_with('-') => Err(UsageFault::Word(Why::Unknown, word)),
        [_, others @ ..] => {
            if let Some(word) = extra_word(name, others) {
                return Err(UsageFault::Word(Why::Extra, word));
            }
            match first_option(others) {
                Some(word) => Err(UsageFault::Word(late_why(name, word), word)),
                None => Ok(words),
            }
        }
    }
}

/// Why a word that begins with `-` is wrong after an operand: it is an option that comes too late, or not an option.
fn late_why(name: Name, word: &str) -> Why
    ensures { result ≡ late_why name word.now }
{
    let is_known = asks_help(word)
        || word == "--"
        || Valued::asked(name, word).is_some()
        || attached(name, word).is_some()
        || with_flags(Settings::new(name), name, word).is_some();
    if is_known { Why::Late } else { Why::Unknown }
}

/// For `explain`, the surplus word after the text, if neither begins with `-`. `words` come after the pattern.
fn extra_word<'a>(name: Name, words: &[&'a str]) -> Option<&'a str>
    ensures { option_map (λ w. w.now) result ≡ extra_word name (map (λ w. w.now) words.now) }
{
    let [text, extra, ..] = words else {
        return None;
    };
    let is_explain = matches!(name, Name::Explain);
    if is_explain && !text.starts_with('-') && !extra.starts_with('-') {
        return Some(*extra);
    }
    None
}

/// The first word that begins with `-`.
fn first_option<'a>(words: &[&'a str]) -> Option<&'a str>
    ensures { option_map (λ w. w.now) result ≡ first_option (map (λ w. w.now) words.now) }
{
    for word in words {
        if word.starts_with('-') {
            return Some(*word);
        }
    }
    None
}
