//! Makes the calls of a row with counted memory, and then again with each request refused in turn. The first word of a
//! row names its file or its calls, and the others are its fields.

use crate::rationing::Rationed;
use glob_replay::calls::{Calls, Make};
use std::alloc::Global;
use std::io::{self, ErrorKind, Write};

/// The most requests for memory, and the most bytes in total.
pub type Most = (u64, u64);

/// The same if a row gives none.
pub const FREELY: Most = (u64::MAX, u64::MAX);

/// The answers of calls with ample memory, any complaint about their requests (more requests or bytes than allowed, or
/// a block that is still held at the end), and the number of requests.
pub fn found_by<S: Make>(
    subject: &S,
    alloc: Global,
    row: &[&str],
    (most, room): Most,
) -> io::Result<(String, u64)> {
    let (ample, other) = (Rationed::ample(alloc), Rationed::ample(alloc));
    let mut calls = Calls::new(&ample, &other);
    if let Err(error) = subject.make(&mut calls, row) {
        write!(calls.words, ", and then {error}")?;
    }
    let ration = &ample.ration;
    let (asked, bytes, held) = (ration.asked(), ration.bytes(), ration.held());
    let mut found = calls.words;
    if asked > most || bytes > room || held != 0 {
        write!(found, ", by {asked} requests, {bytes} bytes, {held} held")?;
    }
    Ok((found, asked))
}

/// The answers of calls with ample memory, and any complaint if one of their requests is refused.
pub fn found_if_refused<S: Make>(
    subject: &S,
    alloc: Global,
    row: &[&str],
    most: Most,
) -> io::Result<String> {
    let (answer, asked) = found_by(subject, alloc, row, most)?;
    found_at_each(subject, alloc, row, answer, asked)
}

/// The answer of calls, or a complaint about what they do when one of their first requests is refused. They may answer
/// the same, if `collect` asks again or a call is made again, or only a first part and that memory ran out. No block
/// may be held at the end.
pub fn found_at_each<S: Make>(
    subject: &S,
    alloc: Global,
    row: &[&str],
    answer: String,
    first: u64,
) -> io::Result<String> {
    let other = Rationed::ample(alloc);
    for number in 1..=first {
        let scarce = Rationed::refusing(Some(number), alloc);
        let mut calls = Calls::new(&scarce, &other);
        let made = subject.make(&mut calls, row);
        let words = calls.words;
        let is_right = match made {
            Ok(()) => words == answer,
            Err(error) => {
                error.kind() == ErrorKind::OutOfMemory && answer.starts_with(words.as_str())
            }
        };
        if !is_right || scarce.ration.held() != 0 {
            return Ok(format!(in alloc; "{words}, with request {number} refused")?);
        }
    }
    Ok(answer)
}
