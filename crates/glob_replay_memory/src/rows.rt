//! Rows that need no other row: `FIELDS => ANSWER`, replayed with each request for memory refused in turn. In files of
//! words ` | ` separates fields; ` ; `, the most requests and the most bytes may follow the answer.

use crate::refusing::{FREELY, Most, found_at_each, found_by, found_if_refused};
use glob_replay::calls::Make;
use glob_replay::ration::Memory;
use glob_replay::report::Report;
use glob_replay::words::{in_words, number_of, text_of};
use std::io;

/// Replays a row of a file. In files of words `''` is an empty field, and answers have spaces instead of tabs.
pub fn replay_row<M: Memory, S: Make>(
    subject: &S,
    report: &Report<M>,
    file: &str,
    asked: &str,
    answer: &str,
) -> io::Result<()> {
    let alloc = report.alloc();
    if file.ends_with(".tsv") {
        let found = found_if_refused(subject, alloc, &[file, asked], FREELY)?;
        return report.compare(asked, answer, &found);
    }
    let (answer, most) = with_most(answer)?;
    let name = report.settings.get("calls");
    let name = if name.is_empty() { file } else { name };
    let line = format!(in alloc; "{name} | {}", text_of(alloc, asked)?)?;
    let fields = line.split(" | ");
    let fields = fields.map(|field| if field == "''" { "" } else { field });
    let row = fields.collect::<Vec<&str>>(alloc)?;
    let found = match report.settings.get("refused") {
        "" => found_if_refused(subject, alloc, &row, most)?,
        "none" => found_by(subject, alloc, &row, most)?.0,
        first => found_at_each(
            subject,
            alloc,
            &row,
            String::new(alloc),
            number_of(first)? as u64,
        )?,
    };
    let (found, answer) = (in_words(&found)?, text_of(alloc, answer.trim())?);
    report.compare(asked, answer.trim(), found.trim())
}

/// An answer, and the most requests for memory and bytes in total, if the row gives them.
fn with_most(answer: &str) -> io::Result<(&str, Most)> {
    let Some((answer, most)) = answer.split_once(" ; ") else {
        return Ok((answer, FREELY));
    };
    let (most, room) = match most.split_once(' ') {
        Some((most, room)) => (most, number_of(room)? as u64),
        None => (most, u64::MAX),
    };
    Ok((answer, (number_of(most)? as u64, room)))
}
