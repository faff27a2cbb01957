//! Rows about matches. In fields: the options, a pattern, a text, and `y` or `n`. In words: `PATTERNS => ANSWER TEXTS`,
//! perhaps followed by the most questions that this takes.

use crate::refusing::{FREELY, found_by, found_if_refused};
use glob_replay::calls::Make;
use glob_replay::ration::Memory;
use glob_replay::report::Report;
use glob_replay::words::{cut, text_of};
use std::io;

/// Replays a row of fields. The first field has the options.
pub fn replay_fields<M: Memory, S: Make>(
    subject: &S,
    report: &Report<M>,
    setting: &str,
    fields: &str,
) -> io::Result<()> {
    let (pattern, rest) = cut(fields, "\t")?;
    let (text, answer) = cut(rest, "\t")?;
    let row = ["matches.txt", setting, pattern, text, ""];
    let (found, _) = found_by(subject, report.alloc(), &row, FREELY)?;
    report.compare(fields, if answer == "y" { "yes" } else { "no" }, &found)
}

/// Replays a row of words, with each request for memory refused in turn.
pub fn replay<'a, M: Memory, S: Make>(
    subject: &S,
    report: &'a Report<M>,
    patterns: &'a str,
    outcome: &'a str,
) -> io::Result<()> {
    let alloc = report.alloc();
    let (outcome, most) = outcome.split_once(" ; ").unwrap_or((outcome, ""));
    let (answer, texts) = cut(outcome, " ")?;
    for &(setting, word) in report.settings.cases(patterns)?.as_slice() {
        let pattern = text_of(alloc, word)?;
        for word in texts.split_whitespace() {
            let text = text_of(alloc, word)?;
            let row: [&str; 5] = ["matches.txt", setting, &pattern, &text, most];
            let found = found_if_refused(subject, alloc, &row, FREELY)?;
            let name = format!(in alloc; "{pattern} on {text}")?;
            report.compare(&name, answer, &found)?;
        }
    }
    Ok(())
}
