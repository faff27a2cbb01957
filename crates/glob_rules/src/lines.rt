//! The lines of an ignore list.
ghost use Rattle.std.specs.Prelude.{◌≡◌, ◌+◌, ◌^◌, ◌<◌, ◌≤◌, ◌&&◌, ◌||◌, not, ◌==◌, if◌then◌else◌, length, IfOk};
ghost use Rattle.glob_rules.specs.Steps.{backslash};
ghost use Rattle.glob_text.specs.Text.{has};
ghost use Rattle.glob_rules.specs.Lines.{blank, is_path, ends_in, without_first, without_last, without_blanks, kept_of};
ghost use Rattle.glob_rules.specs.Lines.{kept_line, nothing, line_of_body, line_of};

use crate::reading::{Outcome, Reading};
use std::alloc::{AllocError, Allocator};
use std::marker::Model;

/// A line of an ignore list, as read.
#[derive(Drop)]
pub struct Line<A: Allocator> {
    outcome: Outcome,
    negative: bool,
    directories: bool,
    glob: Vec<u8, A>,
}

impl<A: Allocator> Model for Line<A> {
    ghost use Rattle.glob_rules.specs.Lines.{Line as Read};

    ghost Value = { Read };

    ghost view = { λ l. record {
      outcome = l.outcome;
      negative = l.negative;
      directories = l.directories;
      glob = l.glob.items;
    } };
}

impl<A: Allocator> Line<A> {
    /// The outcome of reading the line.
    pub fn outcome(&self) -> Outcome
        ensures { result ≡ self.now.outcome }
    {
        self.outcome
    }

    /// Whether its rule begins with `!`.
    pub fn negative(&self) -> bool
        ensures { result ≡ self.now.negative }
    {
        self.negative
    }

    /// Whether its rule is for directories only.
    pub fn directories(&self) -> bool
        ensures { result ≡ self.now.directories }
    {
        self.directories
    }

    /// The pattern of its rule.
    pub fn glob(&self) -> &[u8]
        ensures { result.now ≡ self.now.glob }
    {
        self.glob.as_slice()
    }

    /// A line that matches nothing.
    fn nothing(alloc: A) -> Self
        ensures { result ≡ nothing }
    {
        Line {
            outcome: Outcome::Nothing,
            negative: false,
            directories: false,
            glob: Vec::new(alloc),
        }
    }
}

impl<A: Allocator + Copy> Line<A> {
    /// Reads a line, given without its line feed.
    #[tactic(auto, unfolding(crate::specs::Lines::line_of))]
    pub fn read(alloc: A, text: &[u8]) -> Result<Self, AllocError>
        ensures { IfOk result (λ line. line ≡ line_of text.now) }
    {
        if has(text, 0, b'#') {
            return Ok(Self::nothing(alloc));
        }
        let kept = kept_line(text);
        let negative = has(kept, 0, b'!');
        let body = without_first(kept, b'!');
        let directories = ends_in(body, b'/');
        Self::of_body(alloc, negative, directories, without_last(body, b'/'))
    }

    /// The line of a rule without its `!` and its last `/`.
    #[tactic(auto, unfolding(crate::specs::Lines::line_of_body))]
    fn of_body(alloc: A, negative: bool, directories: bool, body: &[u8]) -> Result<Self, AllocError>
        ensures { IfOk result (λ line. line ≡ line_of_body negative directories body.now) }
    {
        if body.is_empty() || ends_in(body, b'/') {
            return Ok(Self::nothing(alloc));
        }
        let reading = Reading::of(alloc, without_first(body, b'/'), is_path(body))?;
        Ok(Line {
            outcome: reading.outcome(),
            negative,
            directories,
            glob: reading.into_glob()?,
        })
    }
}

/// The rule of a line as it is written, without a carriage return and unescaped spaces at its end. For `!*.o \r` this
/// is `!*.o`.
pub fn kept_line(text: &[u8]) -> &[u8]
    ensures { result.now ≡ kept_line text.now }
{
    without_blanks(without_last(text, b'\r'))
}

/// Whether the text has a separator.
fn is_path(text: &[u8]) -> bool
    ensures { result ≡ is_path text.now }
{
    text.iter().any(|c| *c == b'/')
}

/// Whether the byte at `place` is `c`; false beyond the end.
pub fn has(text: &[u8], place: usize, c: u8) -> bool
    ensures { result ≡ has text.now place c }
{
    place < text.len() && text[place] == c
}

/// Whether the last byte is `c`.
fn ends_in(text: &[u8], c: u8) -> bool
    ensures { result ≡ ends_in text.now c }
{
    has(text, text.len().saturating_sub(1), c)
}

/// The text without a leading `c`.
fn without_first(text: &[u8], c: u8) -> &[u8]
    ensures { result.now ≡ without_first text.now c }
{
    if has(text, 0, c) { &text[1..] } else { text }
}

/// The text without a trailing `c`.
fn without_last(text: &[u8], c: u8) -> &[u8]
    ensures { result.now ≡ without_last text.now c }
{
    if ends_in(text, c) {
        &text[..text.len() - 1]
    } else {
        text
    }
}

/// The text without its unescaped trailing spaces.
fn without_blanks(text: &[u8]) -> &[u8]
    ensures { result.now ≡ without_blanks text.now }
{
    &text[..kept_len(text)]
}

/// The length of the text without its unescaped trailing spaces.
#[tactic(auto, unfolding(crate::specs::Lines::kept_of))]
fn kept_len(text: &[u8]) -> usize
    ensures kept { result ≡ (kept_of text.now).kept }
    ensures within { result ≤ length text.now }
{
    let mut kept = 0;
    let mut escaped = false;
    for place in 0..text.len() {
        kept = kept_after(kept, place, escaped, text[place]);
        escaped = escapes(escaped, text[place]);
    }
    kept
}

/// How many bytes to keep after `c`, the byte at `place`, where `kept` are kept before it.
fn kept_after(kept: usize, place: usize, escaped: bool, c: u8) -> usize
    requires place { place + 1 < 2 ^ 64 }
    requires kept { kept ≤ place }
    ensures kept { result
        ≡ (if escaped || not (c == blank) then place + 1 else kept) }
    ensures within { result ≤ place + 1 }
{
    if escaped || c != b' ' {
        place + 1
    } else {
        kept
    }
}

/// Whether `c` escapes the next byte, where `escaped` says whether `c` is escaped itself.
fn escapes(escaped: bool, c: u8) -> bool
    ensures { result ≡ (not escaped && c == backslash) }
{
    !escaped && c == b'\\'
}
