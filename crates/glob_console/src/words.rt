//! The words of a command line.
ghost use Rattle.std.specs.Prelude.{◌≡◌, IfOk, map, string_bytes};
ghost use Rattle.std.specs.Char.{is_ascii_digit};
ghost use Rattle.std.specs.List.{list_all};
ghost use Rattle.glob_console.specs.Words.{is_match_option, limit_of, option_set, with_option};

use glob_pattern::MatchOptions;
use std::alloc::{AllocError, Allocator};
use std::{env, io};

/// The arguments after the program's name. The error is a failed allocation, or an argument that is not UTF-8.
pub fn arguments(rt: &HostRuntime) -> io::Result<Vec<String>> {
    Ok(env::args(rt)?.skip(1).collect(rt.alloc())?)
}

/// The texts of the arguments.
pub fn as_strs<A: Allocator + Copy>(
    alloc: A,
    arguments: &[String<A>],
) -> Result<Vec<&str, A>, AllocError>
    ensures { IfOk result (λ words.
        map (λ w. w.now) words.items ≡ map string_bytes arguments.now) }
{
    let mut words = Vec::new(alloc);
    for argument in arguments {
        words.push(argument.as_str())?;
    }
    Ok(words)
}

/// Sets the match option that the word names: `-i`, `-s` or `-d`. Returns false if it names none.
pub fn set_match_option(options: &mut MatchOptions, word: &str) -> bool
    ensures named { result ≡ is_match_option options.old word.now }
    ensures set { options.new ≡ with_option word.now options.old }
{
    match option_set(*options, word) {
        Some(set) => {
            *options = set;
            true
        }
        None => false,
    }
}

/// The options, plus the one that the word sets: a hyphen and the letter of a match option.
fn option_set(options: MatchOptions, word: &str) -> Option<MatchOptions>
    ensures { result ≡ option_set word.now options }
{
    match word.as_bytes() {
        [b'-', letter] => options.with_letter(*letter as char),
        _ => None,
    }
}

/// Parses a limit: one to twenty decimal digits, for a number of at most `u64::MAX`. `007` is 7, and `+7` is not a
/// limit.
pub fn parse_limit(digits: &str) -> Option<u64>
    ensures { result ≡ limit_of digits.now }
{
    if digits.len() > 20 || !are_digits(digits) {
        return None;
    }
    digits.parse().ok()
}

/// Whether every character is a decimal digit, so that `parse` never sees a sign.
fn are_digits(text: &str) -> bool
    ensures { result ≡ list_all is_ascii_digit text.now }
{
    text.bytes().all(|byte| byte.is_ascii_digit())
}
