//! What to write instead of the options of other tools, as lines about wrong words say. Each text follows the reason in
//! `usage.rt`, so it begins with `; `.
pub mod commands;
mod filters;
pub mod near;

ghost use Rattle.std.specs.Prelude.{◌≡◌};
ghost use Rattle.globs.specs.Foreign.{find_habit_words, find_needless_words, find_output_words, find_pattern_words};
ghost use Rattle.globs.specs.Foreign.{find_rule_words, find_test_words, foreign_words, joined_words, option_list};
ghost use Rattle.globs.specs.Foreign.{option_part, rare_test_words, unknown_words};

use crate::name::Name;
use filters::{of_escape, of_explain, of_ignore, of_match};
use near::near_help;

/// What to write instead of an option of another tool; nothing for other words.
pub fn foreign(name: Name, word: &str) -> &'static str
    ensures { result.now ≡ foreign_words name word.now }
{
    match name {
        Name::Find => of_patterns(option_part(word)),
        Name::Match => of_match(option_part(word)),
        Name::Ignore => of_ignore(option_part(word)),
        Name::Explain => of_explain(option_part(word)),
        Name::Escape => of_escape(option_part(word)),
    }
}

/// What to write instead of an option that the command does not have: if that is not certain, the line lists its
/// options.
pub fn unknown(name: Name, word: &str) -> &'static str
    ensures { result.now ≡ unknown_words name word.now }
{
    let words = foreign(name, word);
    if words.is_empty() {
        options_of(name)
    } else {
        words
    }
}

/// The options of a command.
fn options_of(name: Name) -> &'static str
    ensures { result.now ≡ option_list name }
{
    match name {
        Name::Find => {
            "; the options are -0, -C, -d, -i, -L, -n, -t, -x, --directory, --git, --ignore, --ignore-files, --max-depth and --utf8-only"
        }
        Name::Match => "; the options are -0, -d, -i, -s and -v",
        Name::Ignore => "; the options are -0, -v and --git",
        Name::Explain => "; the options are -d, -i and -s",
        Name::Escape => "; the only option is -0",
    }
}

/// What is before the first `=` of a word: the option, if a value is attached.
fn option_part(word: &str) -> &str
    ensures { result.now ≡ option_part word.now }
{
    match word.split_once('=') {
        Some((option, _)) => option,
        None => word,
    }
}

/// What to write instead of an option of `find` that says which names or kinds are wanted.
#[tactic(auto, unfolding(crate::specs::Foreign::find_pattern_words))]
fn of_patterns(word: &str) -> &'static str
    ensures { result.now ≡ find_pattern_words word.now }
{
    match word {
        "-type" | "--type" | "-tf" | "-td" | "-tl" => "; use -t f, -t d or -t l",
        "-File" | "-Directory" | "--dirs" | "--only-dirs" | "--only-files" =>
            "; use -t f, -t d or -t l",
        "-maxdepth" | "--maxdepth" | "-max-depth" | "--depth" | "-Depth" | "--level" =>
            "; use --max-depth N",
        "-mindepth" | "--mindepth" | "--min-depth" | "--exact-depth" =>
            "; a pattern says how deep: '*/*/**'",
        "-name" | "-path" | "-wholename" | "-g" | "--glob" | "-e" | "--extension" =>
            "; use a pattern: '**/*.rs'",
        "--ext" | "--include" | "--name" | "--pattern" | "-Filter" | "-Include" =>
            "; use a pattern: '**/*.rs'",
        "-iname" | "-ipath" | "--iglob" => "; use -i and a pattern: -i '**/*.rs'",
        "-regex" | "-iregex" | "--regex" | "-regextype" =>
            "; a pattern is not a regular expression: '**/*.rs'",
        "--ignore-case" | "--nocase" | "--case-insensitive" | "--smart-case" => "; use -i",
        "-s" | "--case-sensitive" => "; leave it out: without -i case counts",
        "-F" | "--fixed-strings" => "; globs escape writes a pattern for a name",
        "-p" | "--full-path" => "; leave it out: a pattern matches a whole path",
        _ => of_rules(word),
    }
}

/// What to write instead of an option of `find` about what is left out, or where to search.
#[tactic(auto, unfolding(crate::specs::Foreign::find_rule_words))]
fn of_rules(word: &str) -> &'static str
    ensures { result.now ≡ find_rule_words word.now }
{
    match word {
        "-not" | "--not" | "-prune" | "-E" | "--exclude" | "-T" | "--type-not" => "; use -x RULE",
        "--prune" | "-v" | "--invert" | "--invert-match" | "-Exclude" => "; use -x RULE",
        "-H" | "--hidden" | "-u" | "-uu" | "-uuu" | "-I" | "-HI" | "-a" =>
            "; nothing is hidden or ignored by default",
        "-A" | "--all" | "--no-ignore" | "--no-git" | "-Force" | "-Hidden" | "--no-ignore-vcs" =>
            "; nothing is hidden or ignored by default",
        "--ignore-file" | "--exclude-from" => "; use --ignore FILE",
        "-X" => "; use --ignore FILE, or to run a program -0 and xargs -0",
        "--exclude-per-directory" => "; use --ignore-files NAME",
        "--exclude-standard" | "--gitignore" | "-git" | "--others" | "--cached" | "-co" =>
            "; use --git",
        "-follow" | "--follow" | "--dereference" => "; use -L",
        "--base-directory"
        | "--search-path"
        | "--"
        | "--root"
        | "--cwd"
        | "--path"
        | "-Path"
        | "--dir" => "; use -C DIR to search DIR",
        "--files" => "; use -t f '**'",
        _ => of_output(word),
    }
}

/// What to write instead of an option of `find` about what is done with the paths.
#[tactic(auto, unfolding(crate::specs::Foreign::find_output_words))]
fn of_output(word: &str) -> &'static str
    ensures { result.now ≡ find_output_words word.now }
{
    match word {
        "-print0" | "--print0" | "-z" | "--null" | "--zero" => "; use -0",
        "-exec" | "-execdir" | "-ok" | "-okdir" | "--exec" | "--exec-batch" =>
            "; use -0, and pipe the paths to xargs -0",
        "-delete" | "--delete" => "; use -0, and pipe the paths to xargs -0r rm --",
        "-l" | "-ls" | "--list-details" | "-la" | "-al" | "-lh" | "-lt" | "--long" =>
            "; use -0, and pipe the paths to xargs -0r ls -ld --",
        "-printf" | "--format" => "; use -0, and pipe the paths to xargs -0r stat -c FORMAT --",
        "-1" | "-quit" | "--max-results" | "--limit" | "--head" | "--max-count" =>
            "; pipe the paths to head",
        "--count" => "; pipe the paths to wc -l",
        "-depth" | "--sortr" | "--reverse" => "; pipe the paths to sort -r",
        "-q" | "--quiet" => "; redirect the output to /dev/null",
        "-fprint" | "-fls" | "--output" => "; redirect the output to a file: >FILE",
        "-o" | "-or" => "; give several patterns",
        _ => of_needless(word),
    }
}

/// What to write instead of an option of `find` that is not needed, or that git has.
#[tactic(auto, unfolding(crate::specs::Foreign::find_needless_words))]
fn of_needless(word: &str) -> &'static str
    ensures { result.now ≡ find_needless_words word.now }
{
    match word {
        "-print" | "-P" | "-j" | "--threads" | "--color" | "--sort" | "--colour" | "--name-only" =>
            "; leave it out, as it is not needed",
        "--strip-cwd-prefix"
        | "--no-heading"
        | "--stats"
        | "--relative"
        | "--dry-run"
        | "--verbose"
        | "--no-follow"
        | "--sort-files" => "; leave it out, as it is not needed",
        "-r" | "-R" | "--recursive" | "-Recurse" =>
            "; a pattern that begins with **/ searches below: '**/*.rs'",
        "--absolute-path" | "--absolute" =>
            "; a pattern that begins with / gives such paths: \"$PWD/**/*.rs\"",
        "--modified" | "--untracked" | "--ignored" | "--stage" | "--deleted" | "-m" =>
            "; pipe the paths of git ls-files to globs match -s",
        "-V" | "--version" => "; use globs --version",
        _ => of_habits(word),
    }
}

/// What to write instead of an option of `find` by which other tools read a list of paths, search contents or run a
/// program, or that is not needed.
#[tactic(auto, unfolding(crate::specs::Foreign::find_habit_words))]
fn of_habits(word: &str) -> &'static str
    ensures { result.now ≡ find_habit_words word.now }
{
    match word {
        "-" | "-files0-from" | "--stdin" | "--files0-from" | "--files-from" =>
            "; find reads no list of paths: globs match and globs ignore do",
        "-w" | "--word-regexp" | "--files-with-matches" | "--line-number" | "-c" =>
            "; find looks at names, not into files: use -0, and pipe the paths to xargs -0 grep",
        "-x" => "; -x RULE runs nothing: to run a program use -0 and xargs -0",
        "--unrestricted" | "--no-ignore-parent" | "--no-ignore-global" | "--no-hidden" =>
            "; nothing is hidden or ignored by default",
        "-noleaf"
        | "-warn"
        | "-nowarn"
        | "-daystart"
        | "-xautofs"
        | "--no-messages"
        | "--show-errors"
        | "--hyperlink" => "; leave it out, as it is not needed",
        _ => of_tests(word),
    }
}

/// What to write instead of an option of `find` that is a test of find(1).
#[tactic(auto, unfolding(crate::specs::Foreign::find_test_words))]
fn of_tests(word: &str) -> &'static str
    ensures { result.now ≡ find_test_words word.now }
{
    match word {
        "-size" | "--size" | "-S" | "-mtime" | "-newer" | "--changed-within" | "-empty" | "-perm" =>
            "; find has it: globs find -0 PATTERN | find -files0-from - -maxdepth 0 TEST",
        "-user" | "-xdev" | "-xtype" | "--changed-before" | "-mmin" | "-ctime" | "-atime" =>
            "; find has it: globs find -0 PATTERN | find -files0-from - -maxdepth 0 TEST",
        "-executable" | "-readable" | "-writable" | "-group" | "--owner" | "-links" | "-inum" =>
            "; find has it: globs find -0 PATTERN | find -files0-from - -maxdepth 0 TEST",
        "-samefile" | "--newer" | "-newermt" | "-mount" | "--one-file-system" | "--max-filesize" =>
            "; find has it: globs find -0 PATTERN | find -files0-from - -maxdepth 0 TEST",
        _ => of_rare_tests(word),
    }
}

/// What to write instead of an option of `find` that is a rare test of find(1).
#[tactic(auto, unfolding(crate::specs::Foreign::rare_test_words))]
fn of_rare_tests(word: &str) -> &'static str
    ensures { result.now ≡ rare_test_words word.now }
{
    match word {
        "-cmin" | "-amin" | "-anewer" | "-cnewer" | "-uid" | "-gid" | "-nouser" | "-nogroup" =>
            "; find has it: globs find -0 PATTERN | find -files0-from - -maxdepth 0 TEST",
        "-lname" | "-ilname" | "-fstype" | "-used" | "-context" =>
            "; find has it: globs find -0 PATTERN | find -files0-from - -maxdepth 0 TEST",
        _ => of_joined(word),
    }
}

/// What to write instead of an option with a value in the same word, or else the nearest option.
#[tactic(auto, unfolding(crate::specs::Foreign::joined_words))]
fn of_joined(word: &str) -> &'static str
    ensures { result.now ≡ joined_words word.now }
{
    match word.as_bytes() {
        [b'-', b'C' | b'x' | b'n', _, ..] => "; a value is the next word, or follows =",
        [b'-', b't', _, ..] => "; use -t f, -t d or -t l",
        [b'-', b'j', _, ..] => "; leave it out, as it is not needed",
        _ => near_help(word),
    }
}
