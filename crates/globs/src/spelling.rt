//! How options are written: several flags in one word, and a value in the word of its option.
ghost use Rattle.std.specs.Prelude.{◌≡◌, option_map};
ghost use Rattle.globs.specs.Spelling.{attached, with_flags, with_letter, with_letters};

use crate::name::Name;
use crate::options::{Settings, Valued};
use std::str;

/// The settings with the flags of a word set: one flag, such as `-i` or `--git`, or several joined ones, as in `-is`.
/// `None` unless each is a flag of the command.
pub fn with_flags(settings: Settings, name: Name, word: &str) -> Option<Settings>
    ensures { result ≡ with_flags name word.now settings }
{
    if let Some(set) = settings.with_flag(name, word) {
        return Some(set);
    }
    match word.as_bytes() {
        [b'-', letters @ ..] if !letters.is_empty() => with_letters(settings, name, letters),
        _ => None,
    }
}

/// The settings with the flag of each letter set.
fn with_letters(settings: Settings, name: Name, letters: &[u8]) -> Option<Settings>
    ensures { result ≡ with_letters name letters.now settings }
{
    let mut settings = settings;
    for letter in letters {
        settings = with_letter(settings, name, *letter)?;
    }
    Some(settings)
}

/// The settings with the flag of a letter set.
fn with_letter(settings: Settings, name: Name, letter: u8) -> Option<Settings>
    ensures { result ≡ with_letter name letter settings }
{
    match str::from_utf8(&[b'-', letter]) {
        Ok(flag) => settings.with_flag(name, flag),
        Err(_) => None,
    }
}

/// The option and the value in a word that has both: for `--max-depth=2`, the value is `2`.
pub fn attached(name: Name, word: &str) -> Option<(Valued, &str)>
    ensures { option_map (λ it. (it.0, it.1.now)) result ≡ attached name word.now }
{
    let (option, value) = word.split_once('=')?;
    Some((Valued::asked(name, option)?, value))
}
