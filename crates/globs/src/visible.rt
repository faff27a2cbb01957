//! Prints texts with their control characters escaped.
ghost use Rattle.std.specs.Prelude.{◌≡◌, Some, replicate};
ghost use Rattle.std.specs.Fmt.{WritesOnOk};
ghost use Rattle.globs.specs.Visible.{caret_lines, indent, visible, visible_character, width};

use crate::wide::is_wide;
use std::fmt::{self, Display};

/// A text that prints its control characters as in a Rust literal: `\r`, `\t`, `\u{1b}`.
#[derive(Clone, Copy)]
pub struct Visible<'a> {
    pub text: &'a str,
}

/// A text that prints on one line, with a caret on the next under the character at index `column`, counted from 0. No
/// line feed follows. A character takes one column, a wide one such as `漢` takes two, and a control character as many
/// as its escape.
#[derive(Clone, Copy)]
pub struct Caret<'a> {
    pub text: &'a str,
    pub column: usize,
}

impl Display for Visible<'_> {
    ghost output = { λ v. Some (visible v.text.now) };

    fn fmt<W: fmt::Write>(&self, f: &mut fmt::Formatter<W>) -> fmt::Result {
        write_visible(f, self.text)
    }
}

/// Writes a text with its control characters escaped.
fn write_visible<W: fmt::Write>(f: &mut fmt::Formatter<W>, text: &str) -> fmt::Result
    ensures { WritesOnOk W.write_str_gives f.old result (visible text.now) f.new }
{
    for c in text.chars() {
        write_character(f, c)?;
    }
    Ok(())
}

/// Writes a character, or its escape if it is a control character.
fn write_character<W: fmt::Write>(f: &mut fmt::Formatter<W>, c: char) -> fmt::Result
    ensures { WritesOnOk W.write_str_gives f.old result (visible_character c) f.new }
{
    if c == '\t' {
        f.write_str("\\t")
    } else if c == '\n' {
        f.write_str("\\n")
    } else if c == '\r' {
        f.write_str("\\r")
    } else if c.is_control() {
        write!(f, "\\u{{{:x}}}", c as u32)
    } else {
        f.write_char(c)
    }
}

impl Display for Caret<'_> {
    ghost output = { λ c. Some (caret_lines c.text.now c.column) };

    fn fmt<W: fmt::Write>(&self, f: &mut fmt::Formatter<W>) -> fmt::Result {
        let text = Visible { text: self.text };
        writeln!(f, "{text}")?;
        write_indent(f, self.text, self.column)?;
        f.write_char('^')
    }
}

/// Writes blanks as wide as the first `characters` characters of the text.
fn write_indent<W: fmt::Write>(
    f: &mut fmt::Formatter<W>,
    text: &str,
    characters: usize,
) -> fmt::Result
    ensures { WritesOnOk W.write_str_gives f.old result (indent text.now characters) f.new }
{
    for c in text.chars().take(characters) {
        write_blanks(f, width(c))?;
    }
    Ok(())
}

/// Writes `count` blanks.
fn write_blanks<W: fmt::Write>(f: &mut fmt::Formatter<W>, count: u8) -> fmt::Result
    ensures { WritesOnOk W.write_str_gives f.old result (replicate count 32) f.new }
{
    for _blank in 0..count {
        f.write_char(' ')?;
    }
    Ok(())
}

/// How many columns a character takes.
fn width(c: char) -> u8
    ensures { result ≡ width c }
{
    if c == '\t' || c == '\n' || c == '\r' {
        2
    } else if c < '\u{10}' {
        5
    } else if c.is_control() {
        6
    } else if is_wide(c) {
        2
    } else {
        1
    }
}

/// Whether the text has no control character, so that it prints unchanged.
pub fn is_seen(text: &str) -> bool {
    !text.chars().any(|c| c.is_control())
}
