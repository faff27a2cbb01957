//! What to write instead of a word that is no command.
ghost use Rattle.std.specs.Prelude.{◌≡◌};
ghost use Rattle.std.specs.List.{list_any};
ghost use Rattle.globs.specs.Foreign.{first_words, guess_words, habit_words, is_of_path, slip_words};

use super::near::near_command;

/// What to write instead of a wrong command: the command's name here, if other tools have the word.
#[tactic(auto, unfolding(crate::specs::Foreign::habit_words))]
pub fn habit(word: &str) -> &'static str
    ensures { result.now ≡ habit_words word.now }
{
    match word {
        "Find" | "FIND" | "--find" | "finds" | "search" | "ls" => "; use globs find",
        "ls-files" | "list" | "fd" | "files" | "--files" | "dir" => "; use globs find",
        "Match" | "MATCH" | "--match" | "matches" | "filter" | "grep" | "rg" | "findstr" =>
            "; use globs match",
        "check-ignore" | "ignores" | "gitignore" | "--ignore" => "; use globs ignore",
        "quote" | "--escape" => "; use globs escape",
        "-v" | "-V" | "version" => "; use globs --version",
        _ => of_guess(word),
    }
}

/// What to write instead of a word that somebody may guess to be a command.
#[tactic(auto, unfolding(crate::specs::Foreign::guess_words))]
fn of_guess(word: &str) -> &'static str
    ensures { result.now ≡ guess_words word.now }
{
    match word {
        "glob" | "locate" | "walk" | "tree" | "where" => "; use globs find",
        "fnmatch" => "; use globs match",
        "exclude" => "; use globs ignore",
        "why" | "test" | "check" | "--explain" => "; use globs explain",
        "man" | "usage" | "-?" | "/?" | "-help" => "; use globs help",
        _ => of_slip(word),
    }
}

/// What to write instead of a word that is no command, but nearly one, or an option, a pattern or a path.
fn of_slip(word: &str) -> &'static str
    ensures { result.now ≡ slip_words word.now }
{
    let near = near_command(word);
    if near.is_empty() {
        of_first(word)
    } else {
        near
    }
}

/// What to write instead of a word that is no command, but an option, a pattern or a path.
#[tactic(auto, unfolding(crate::specs::Foreign::first_words))]
fn of_first(word: &str) -> &'static str
    ensures { result.now ≡ first_words word.now }
{
    if word.starts_with('-') {
        "; a command comes before its options"
    } else if has_path(word.as_bytes()) {
        "; use globs find"
    } else {
        "; the commands are find, match, ignore, explain and escape"
    }
}

/// Whether a text has a character of patterns or paths.
fn has_path(bytes: &[u8]) -> bool
    ensures { result ≡ list_any is_of_path bytes.now }
{
    bytes.iter().any(|c| is_of_path(*c))
}

/// Whether a character is in patterns and paths, and in no command.
fn is_of_path(c: u8) -> bool
    ensures { result ≡ is_of_path c }
{
    matches!(c, b'*' | b'.' | b'/')
}
