//! Options and commands that a word is probably meant to be.
ghost use Rattle.std.specs.Prelude.{◌≡◌};
ghost use Rattle.globs.specs.Near.{are_swapped, is_near, near_command_words, near_help_words, near_option_words};

/// What a line about a word says of the option of `find` that is spelt nearly like it; empty if there is none.
#[tactic(auto, unfolding(crate::specs::Near::near_option_words))]
fn near_option(word: &str) -> &'static str
    ensures { result.now ≡ near_option_words word.now }
{
    let word = word.as_bytes();
    if is_near(word, b"--max-depth") {
        "; the nearest is --max-depth"
    } else if is_near(word, b"--ignore") {
        "; the nearest is --ignore"
    } else if is_near(word, b"--ignore-files") {
        "; the nearest is --ignore-files"
    } else if is_near(word, b"--directory") {
        "; the nearest is --directory"
    } else if is_near(word, b"--git") {
        "; the nearest is --git"
    } else if is_near(word, b"--utf8-only") {
        "; the nearest is --utf8-only"
    } else {
        ""
    }
}

/// What a line about a word says of `--help`, or else of the option of `find`, if it is spelt nearly like it.
#[tactic(auto, unfolding(crate::specs::Near::near_help_words))]
pub fn near_help(word: &str) -> &'static str
    ensures { result.now ≡ near_help_words word.now }
{
    if is_near(word.as_bytes(), b"--help") {
        "; the nearest is --help"
    } else {
        near_option(word)
    }
}

/// What a line about a word says of the command that is spelt nearly like it; empty if there is none.
#[tactic(auto, unfolding(crate::specs::Near::near_command_words))]
pub fn near_command(word: &str) -> &'static str
    ensures { result.now ≡ near_command_words word.now }
{
    let word = word.as_bytes();
    if is_near(word, b"find") {
        "; the nearest is globs find"
    } else if is_near(word, b"match") {
        "; the nearest is globs match"
    } else if is_near(word, b"ignore") {
        "; the nearest is globs ignore"
    } else if is_near(word, b"explain") {
        "; the nearest is globs explain"
    } else if is_near(word, b"escape") {
        "; the nearest is globs escape"
    } else if is_near(word, b"help") {
        "; the nearest is globs help"
    } else if is_near(word, b"--version") {
        "; the nearest is globs --version"
    } else {
        ""
    }
}

/// Whether two texts differ by one byte, or by the order of two neighbours.
pub fn is_near(word: &[u8], name: &[u8]) -> bool
    ensures { result ≡ is_near word.now name.now }
{
    match (word, name) {
        ([], []) => false,
        ([], [_, others @ ..]) => others.is_empty(),
        ([_, rest @ ..], []) => rest.is_empty(),
        ([first, rest @ ..], [letter, others @ ..]) => {
            if first == letter {
                is_near(rest, others)
            } else {
                rest == others || rest == name || word == others || are_swapped(word, name)
            }
        }
    }
}

/// Whether two texts begin with the same two bytes in the other order, and are equal otherwise.
fn are_swapped(word: &[u8], name: &[u8]) -> bool
    ensures { result ≡ are_swapped word.now name.now }
{
    match (word, name) {
        ([a, b, rest @ ..], [c, d, others @ ..]) => a == d && b == c && rest == others,
        _ => false,
    }
}
