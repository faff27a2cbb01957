//! Parses the command line.
ghost use Rattle.std.specs.Prelude.{◌≡◌, ◌-◌, ◌^◌, map, option_map};
ghost use Rattle.glob.specs.Matching.Options.{new_options};
ghost use Rattle.glob_run.specs.CommandLine.{lines_request, operand_of, paths_request, request_asked};
ghost use Rattle.glob_run.specs.Requests.{request_of};

use glob::MatchOptions;
use glob_console::{parse_limit, set_match_option};

/// A parsed command line.
pub enum Command<'a> {
    /// Copy the lines that the pattern matches.
    Match {
        options: MatchOptions,
        pattern: &'a str,
    },
    /// Write the pattern that matches the text literally.
    Escape {
        text: &'a str,
    },
    /// Write the paths that a walk of the disk finds.
    Find {
        options: MatchOptions,
        /// How many units the walk may spend.
        limit: u64,
        pattern: &'a str,
    },
}

impl<'a> Command<'a> {
    /// Parses the words after the program's name. `None` is a usage fault.
    #[tactic(auto, unfolding(crate::specs::CommandLine::request_asked))]
    pub fn parse(words: &[&'a str]) -> Option<Self>
        ensures { option_map request_of result ≡ request_asked (map (λ w. w.now) words.now) }
    {
        let (&name, words) = words.split_first()?;
        match name {
            "match" => Self::parse_match(words),
            "escape" => Some(Command::Escape {
                text: only_operand(words)?,
            }),
            "find" => Self::parse_find(words),
            _ => None,
        }
    }

    /// Parses the words after `match`.
    fn parse_match(words: &[&'a str]) -> Option<Self>
        ensures { option_map request_of result
            ≡ lines_request new_options (map (λ w. w.now) words.now) }
    {
        let mut options = MatchOptions::new();
        let mut rest = words;
        loop {
            match rest {
                [word, after @ ..] if set_match_option(&mut options, word) => rest = after,
                _ => {
                    let pattern = only_operand(rest)?;
                    return Some(Command::Match { options, pattern });
                }
            }
        }
    }

    /// Parses the words after `find`. `-n LIMIT` may come anywhere among the options, and the last one counts.
    fn parse_find(words: &[&'a str]) -> Option<Self>
        ensures { option_map request_of result
            ≡ paths_request new_options (2 ^ 64 - 1) (map (λ w. w.now) words.now) }
    {
        let mut options = MatchOptions::new();
        let mut limit = u64::MAX;
        let mut rest = words;
        while let [word, after @ ..] = rest {
            if *word == "-n" {
                let [digits, after @ ..] = after else {
                    return None;
                };
                limit = parse_limit(digits)?;
                rest = after;
            } else if set_match_option(&mut options, word) {
                rest = after;
            } else {
                let pattern = only_operand(rest)?;
                return Some(Command::Find {
                    options,
                    limit,
                    pattern,
                });
            }
        }
        None
    }
}

/// The only word after the options. If it begins with `-`, it needs `--` before it.
fn only_operand<'a>(words: &[&'a str]) -> Option<&'a str>
    ensures { option_map (λ w. w.now) result ≡ operand_of (map (λ w. w.now) words.now) }
{
    match words {
        [] => None,
        [word] if word.starts_with('-') => None,
        [word] => Some(word),
        [dashes, word] => { if *dashes == "--" { Some(word) } else { None } }
        [_, _, _, ..] => None,
    }
}
