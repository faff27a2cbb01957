//! What to write instead of the options of other tools for the commands that read lines or texts.
ghost use Rattle.std.specs.Prelude.{◌≡◌};
ghost use Rattle.globs.specs.Foreign.{escape_words, explain_words, ignore_file_words, ignore_words, match_line_words};
ghost use Rattle.globs.specs.Foreign.{match_words};

/// What to write instead of an option of `match`.
#[tactic(auto, unfolding(crate::specs::Foreign::match_words))]
pub fn of_match(word: &str) -> &'static str
    ensures { result.now ≡ match_words word.now }
{
    match word {
        "-z" | "--null" | "--null-data" => "; use -0",
        "--invert-match" | "--not" | "-not" => "; use -v",
        "--ignore-case" | "--smart-case" | "-S" => "; use -i",
        "-e" | "--regexp" => "; give several patterns",
        "-E" | "-P" | "-G" => "; a pattern is not a regular expression",
        "-F" | "--fixed-strings" => "; globs escape writes a pattern for a text",
        "-r" | "-R" | "--recursive" => "; globs find searches directories",
        "-" => "; lines are always read from standard input",
        "-V" | "--version" => "; use globs --version",
        "-x" | "--line-regexp" => "; leave it out: a pattern matches a whole line",
        _ => of_lines(word),
    }
}

/// What to write instead of an option of `match` about what is done with the lines.
#[tactic(auto, unfolding(crate::specs::Foreign::match_line_words))]
fn of_lines(word: &str) -> &'static str
    ensures { result.now ≡ match_line_words word.now }
{
    match word {
        "-w" | "--word-regexp" | "-o" | "--only-matching" =>
            "; a pattern matches a whole line: '*a*' if the line contains a",
        "-c" | "--count" => "; pipe the lines to wc -l",
        "-m" | "--max-count" | "-m1" => "; pipe the lines to head",
        "-n" | "--line-number" =>
            "; number the lines first, as in cat -n FILE | globs match '*.rs'",
        "-q" | "--quiet" => "; redirect the output to /dev/null",
        "-f" | "--file" => "; give the patterns as words",
        "-H" | "--color" | "--colour" | "--line-buffered" => "; leave it out, as it is not needed",
        "-g" | "--glob" | "--include" | "--exclude" | "--exclude-dir" | "-t" | "--type" =>
            "; globs find searches directories",
        "-A" | "-B" | "-C" | "--context" => "; leave it out: only the lines that match are copied",
        _ => "",
    }
}

/// What to write instead of an option of `ignore`.
#[tactic(auto, unfolding(crate::specs::Foreign::ignore_words))]
pub fn of_ignore(word: &str) -> &'static str
    ensures { result.now ≡ ignore_words word.now }
{
    match word {
        "-z" | "--null" => "; use -0",
        "--stdin" | "-" => "; paths are always read from standard input",
        "-x" | "-e" | "--exclude" => "; write the rule into a FILE",
        "-q" | "--quiet" => "; redirect the output to /dev/null",
        "--verbose" => "; use -v",
        "-i" | "--ignore-case" => "; a rule lists both cases in brackets: *.[oO]",
        "--no-index" => "; leave it out, as it is not needed",
        _ => of_files(word),
    }
}

/// What to write instead of an option of `ignore` that names files of rules, or about the paths.
#[tactic(auto, unfolding(crate::specs::Foreign::ignore_file_words))]
fn of_files(word: &str) -> &'static str
    ensures { result.now ≡ ignore_file_words word.now }
{
    match word {
        "--ignore" | "--ignore-file" | "--ignore-files" | "--exclude-from" | "-X" | "-f" =>
            "; give the FILE as a word",
        "--exclude-standard" | "--gitignore" | "-git" => "; use --git",
        "-n" | "--non-matching" => "; without -v the paths that no rule ignores are written",
        "-C" | "--directory" =>
            "; go there first: (cd DIR && git ls-files | globs ignore .gitignore)",
        _ => "",
    }
}

/// What to write instead of an option of `explain`.
#[tactic(auto, unfolding(crate::specs::Foreign::explain_words))]
pub fn of_explain(word: &str) -> &'static str
    ensures { result.now ≡ explain_words word.now }
{
    match word {
        "--ignore-case" | "--nocase" => "; use -i",
        "-v" | "--verbose" => "; leave it out, as it is not needed",
        "--git" | "-x" | "--ignore" => "; globs ignore -v says which rule ignores a path",
        _ => "; write -- first if a text begins with -",
    }
}

/// What to write instead of an option of `escape`.
#[tactic(auto, unfolding(crate::specs::Foreign::escape_words))]
pub fn of_escape(word: &str) -> &'static str
    ensures { result.now ≡ escape_words word.now }
{
    match word {
        "-z" | "--null" | "--zero" => "; use -0",
        "-" | "--stdin" =>
            "; texts are words: for lines of input use xargs -d '\\n' globs escape --",
        _ => "; write -- first if a text begins with -",
    }
}
