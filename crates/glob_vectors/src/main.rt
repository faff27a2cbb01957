//! Replays tables of answers from outside, and answers the cases of tests.
//!
//! - Without a word: replays the tables of `data` that lie in the current folder.
//! - `answer` answers the cases of `tests/random_input.py` and `tests/captures.py`, line by line.
//! - `rules` asks ignore lists about paths, for `tests/ignore.py`.
#![tactic(auto)]

mod subjects;
#[cfg(test)]
mod tests;

use glob_replay::words;
use glob_replay_matches::rules;
use std::{env, io};

fn main(rt: HostRuntime) -> io::Result<()> {
    match env::args(&rt)?.nth(1) {
        None => subjects::replay(rt),
        Some(command) if command.as_str() == "answer" => subjects::answer(rt),
        Some(command) if command.as_str() == "rules" => rules::ask_lists(&rt),
        Some(_) => Err(words::unusable()),
    }
}
