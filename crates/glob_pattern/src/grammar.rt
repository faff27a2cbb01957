//! Reads the units of a pattern, or its first fault.
ghost use Rattle.std.specs.Prelude.{◌≡◌, ◌+◌, ◌<◌, ◌≤◌, List, [], ◌∷◌, ◌++◌, length, Some, IsTrue, IfSome, IfOk, IfErr, OnOk};
ghost use Rattle.std.specs.Str.{chars, IsAscii};
ghost use Rattle.glob_text.specs.Text.{Has, has, opens};
ghost use Rattle.glob_pattern.specs.Grammar.Characters.{star, open_bracket};
ghost use Rattle.glob_pattern.specs.Grammar.Tokens.{Token as TokenOf, is_recursive, ends_recursive, tokens_of_units};
ghost use Rattle.glob_pattern.specs.Grammar.Units.{HasTokens};
ghost use Rattle.glob_pattern.specs.Grammar.Faults.{Refuses, message_of};
ghost use Rattle.glob_pattern.specs.Computing.Reading.{close_from, unit_at, IsRefusalAt, RefusesAt};

use crate::error::{PatternError, PatternErrorKind, PatternRefusal};
use crate::token::Token;
use crate::token::bracket::Bracket;
use std::alloc::{AllocError, Allocator};

/// The initial capacity of a token list. Most patterns never need more.
const FEW: usize = 128;

/// Reads the tokens of a pattern. The error is the first fault of a text that is not accepted, or a failed allocation.
pub fn read_tokens<A: Allocator + Copy>(
    alloc: A,
    pattern: &str,
) -> Result<Vec<Token<Bracket<A>>, A>, PatternRefusal>
    ensures accepted { IfOk result
        (λ tokens. HasTokens (chars pattern.now) tokens.items) }
    ensures refused { IfErr result (Refuses (chars pattern.now)) }
{
    let text = characters_of(alloc, pattern)?;
    read_text(alloc, text.as_slice())
}

/// The characters of a text: `a` and `é` for `aé`. Fails only if allocation fails.
pub fn characters_of<A: Allocator>(alloc: A, text: &str) -> Result<Vec<char, A>, AllocError>
    ensures { IfOk result (λ characters. characters.items ≡ chars text.now) }
{
    let mut characters = vec![in alloc; '\0'; text.len()]?;
    if widen(text.as_bytes(), characters.as_mut_slice()) {
        return Ok(characters);
    }
    characters.clear();
    characters.extend(text.chars())?;
    Ok(characters)
}

/// Writes each byte as a character. Returns whether all are ASCII: only then are they the characters of the text. The
/// loop has no early exit, so that the compiler handles sixteen bytes at a time.
fn widen(bytes: &[u8], characters: &mut [char]) -> bool
    requires { length bytes.now ≡ length characters.old }
    ensures written { characters.new ≡ bytes.now }
    ensures ascii { IsTrue result → IsAscii bytes.now }
{
    let mut ascii = true;
    for n in 0..bytes.len() {
        ascii &= bytes[n].is_ascii();
        characters[n] = bytes[n] as char;
    }
    ascii
}

/// [`read_tokens`] for a list of characters.
fn read_text<A: Allocator + Copy>(
    alloc: A,
    text: &[char],
) -> Result<Vec<Token<Bracket<A>>, A>, PatternRefusal>
    ensures accepted { IfOk result (λ tokens. HasTokens text.now tokens.items) }
    ensures refused { IfErr result (Refuses text.now) }
{
    let mut tokens = Vec::with_capacity(alloc, text.len().min(FEW))?;
    let mut place = 0;
    while place < text.len() {
        match text[place] {
            '?' => {
                tokens.push(Token::AnyChar)?;
                place += 1;
            }
            '*' => {
                let (token, end) = stars_at(text, place)?;
                push_stars(&mut tokens, token)?;
                place = end;
            }
            '[' => {
                let (token, end) = bracket_at(alloc, text, place)?;
                tokens.push(token)?;
                place = end;
            }
            c => {
                tokens.push(Token::Literal(c))?;
                place += 1;
            }
        }
    }
    Ok(tokens)
}

/// Appends the token that stars stand for. Neighbouring recursive wildcards become one.
fn push_stars<A: Allocator>(
    tokens: &mut Vec<Token<Bracket<A>>, A>,
    token: Token<Bracket<A>>,
) -> Result<(), AllocError>
    ensures { OnOk result ((units : List TokenOf)
        → tokens.old.items ≡ tokens_of_units units
        → tokens.new.items ≡ tokens_of_units (units ++ token ∷ [])) }
{
    if token.is_recursive() && ends_recursive(tokens.as_slice()) {
        return Ok(());
    }
    tokens.push(token)?;
    Ok(())
}

/// Whether the last token is `**`.
fn ends_recursive<A: Allocator>(tokens: &[Token<Bracket<A>>]) -> bool
    ensures { result ≡ ends_recursive tokens.now }
{
    match tokens {
        [.., last] => last.is_recursive(),
        [] => false,
    }
}

/// The unit of the stars at `place`: its token, and the place after it.
fn stars_at<A: Allocator>(
    text: &[char],
    place: usize,
) -> Result<(Token<Bracket<A>>, usize), PatternRefusal>
    requires { Has text.now place star }
    ensures unit { IfOk result (λ unit. unit_at text.now place ≡ Some unit) }
    ensures fault { IfErr result (RefusesAt text.now place) }
{
    if !has(text, place + 1, '*') {
        Ok((Token::AnySequence, place + 1))
    } else if has(text, place + 2, '*') {
        Err(fault(place + 2, PatternErrorKind::Wildcards))
    } else if !opens(text, place) {
        Err(fault(place - 1, PatternErrorKind::Recursive))
    } else if has(text, place + 2, '/') {
        Ok((Token::Recursive, place + 3))
    } else if place + 2 == text.len() {
        Ok((Token::Recursive, place + 2))
    } else {
        Err(fault(place + 2, PatternErrorKind::Recursive))
    }
}

/// The unit of the bracket at `place`: its token, and the place after it. A `]` right after `[` or `[!` does not close
/// it.
fn bracket_at<A: Allocator + Copy>(
    alloc: A,
    text: &[char],
    place: usize,
) -> Result<(Token<Bracket<A>>, usize), PatternRefusal>
    requires { Has text.now place open_bracket }
    ensures unit { IfOk result (λ unit. unit_at text.now place ≡ Some unit) }
    ensures fault { IfErr result (RefusesAt text.now place) }
{
    let is_inverted = has(text, place + 1, '!');
    let start = if is_inverted { place + 2 } else { place + 1 };
    let close = close_from(text, start + 1).ok_or(fault(place, PatternErrorKind::Range))?;
    let bracket = Bracket::read(alloc, &text[start..close])?;
    let token = if is_inverted {
        Token::NoneOf(bracket)
    } else {
        Token::OneOf(bracket)
    };
    Ok((token, close + 1))
}

/// The place of the first `]` from `start` on, or `None`. Both are in characters from 0: in `[]-]` it is 3 from 2 on.
/// `start` may be at most two past the end.
pub fn close_from(text: &[char], start: usize) -> Option<usize>
    requires { start ≤ length text.now + 2 }
    ensures place { result ≡ close_from text.now start }
    ensures within { IfSome result
        (λ close. (start ≤ close) × (close < length text.now)) }
{
    for place in start..text.len() {
        if text[place] == ']' {
            return Some(place);
        }
    }
    None
}

/// The error for a fault at `pos`, in characters from 0.
fn fault(pos: usize, kind: PatternErrorKind) -> PatternRefusal
    ensures { IsRefusalAt pos (message_of kind) result }
{
    PatternRefusal::Syntax(PatternError {
        pos,
        msg: kind.message(),
    })
}

/// Whether the character at `place` is `c`; false past the end.
fn has(text: &[char], place: usize, c: char) -> bool
    ensures { result ≡ has text.now place c }
{
    place < text.len() && text[place] == c
}

/// Whether a component starts at `place`, in characters from 0: at the start, and right after a `/`. In `a/b`
/// components start at 0 and 2. `place` must not be past the end.
#[inline(always)]
pub fn opens(text: &[char], place: usize) -> bool
    requires { place ≤ length text.now }
    ensures { result ≡ opens text.now place }
{
    place == 0 || text[place - 1] == '/'
}
