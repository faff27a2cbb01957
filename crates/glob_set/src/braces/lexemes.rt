//! What each character of a text means to braces.
ghost use Rattle.std.specs.Prelude.{◌≡◌, ◌+◌, ◌<◌, ◌≤◌, length, chars, IfOk};
ghost use Rattle.glob_set.specs.Braces.{lexemes, lexeme_at, lexeme_of, end_at, bracket_end};

use glob_pattern::close_from;
use std::alloc::{AllocError, Allocator};

/// What a character means to braces.
#[derive(Clone, Copy)]
pub enum Lexeme {
    /// A character that is not a brace or a comma, or is in a bracket.
    Literal(char),
    /// `{`
    Open,
    /// `,`
    Comma,
    /// `}`
    Close,
}

/// The lexemes of a text, one per character.
pub fn lexemes_of<A: Allocator + Copy>(alloc: A, text: &str) -> Result<Vec<Lexeme, A>, AllocError>
    ensures { IfOk result (λ found. found.items ≡ lexemes (chars text.now)) }
{
    let mut characters = Vec::new(alloc);
    characters.extend(text.chars())?;
    lexemes_in(alloc, characters.as_slice())
}

/// The lexemes of the characters.
fn lexemes_in<A: Allocator>(alloc: A, text: &[char]) -> Result<Vec<Lexeme, A>, AllocError>
    ensures { IfOk result (λ found. found.items ≡ lexemes text.now) }
{
    let mut found = Vec::new(alloc);
    let mut end = 0;
    for (place, c) in text.iter().enumerate() {
        end = end_at(text, place, end);
        found.push(lexeme_at(place, end, *c))?;
    }
    Ok(found)
}

/// The end of the bracket that contains `place`, or `place` if none does. `last` is the end of the last bracket that
/// begins before it.
fn end_at(text: &[char], place: usize, last: usize) -> usize
    requires { place < length text.now }
    ensures { result ≡ end_at text.now place last }
{
    if place < last {
        last
    } else {
        bracket_end(text, place)
    }
}

/// What the character at `place` means, if a bracket goes up to `end`.
fn lexeme_at(place: usize, end: usize, c: char) -> Lexeme
    ensures { result ≡ lexeme_at place end c }
{
    if place < end {
        Lexeme::Literal(c)
    } else {
        lexeme_of(c)
    }
}

/// What the character means outside brackets.
fn lexeme_of(c: char) -> Lexeme
    ensures { result ≡ lexeme_of c }
{
    match c {
        '{' => Lexeme::Open,
        ',' => Lexeme::Comma,
        '}' => Lexeme::Close,
        _ => Lexeme::Literal(c),
    }
}

/// The place after the bracket that begins at `place`, or `place` if none does.
fn bracket_end(text: &[char], place: usize) -> usize
    requires { place < length text.now }
    ensures { result ≡ bracket_end text.now place }
{
    if text[place] != '[' {
        return place;
    }
    let content = match text.get(place + 1) {
        Some('!') => place + 2,
        _ => place + 1,
    };
    match close_from(text, content + 1) {
        Some(close) => close + 1,
        None => place,
    }
}
