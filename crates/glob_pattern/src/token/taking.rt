//! Which characters a token takes under the options.
ghost use Rattle.std.specs.Prelude.{◌≡◌, ℕ, Bool, true, IsTrue};
ghost use Rattle.glob_pattern.specs.Matching.Components as components;
ghost use Rattle.glob_pattern.specs.Matching.Taking as taking;

use crate::options::MatchOptions;
use crate::token::Token;
use crate::token::bracket::{self, Bracket};
use std::alloc::Allocator;

/// Whether the token takes the character. `opening`: a component starts at its place.
#[inline(always)]
pub fn takes<A: Allocator>(
    token: &Token<Bracket<A>>,
    options: MatchOptions,
    opening: bool,
    c: char,
) -> bool
    ensures { result ≡ taking.takes options opening c token.now }
{
    match token {
        Token::Literal(x) => bracket::is_same(options.case_sensitive, c, *x),
        Token::AnyChar => is_free(options, opening, c),
        _ => {
            // The call needs the options in memory. Copying them only on this path keeps the caller's in registers.
            let copy = MatchOptions { ..options };
            takes_other(token, copy, opening, c)
        }
    }
}

/// Whether the token is a `?` and no rule is set, so that it takes any character.
#[inline(always)]
pub fn takes_any<A: Allocator>(token: &Token<Bracket<A>>, options: MatchOptions) -> bool
    ensures { IsTrue result
        → (opening : Bool) (c : ℕ) → taking.takes options opening c token.now ≡ true }
{
    !has_rules(options) && matches!(token, Token::AnyChar)
}

/// [`takes`] out of line, for tokens other than literals and `?`.
#[inline(never)]
fn takes_other<A: Allocator>(
    token: &Token<Bracket<A>>,
    options: MatchOptions,
    opening: bool,
    c: char,
) -> bool
    ensures { result ≡ taking.takes options opening c token.now }
{
    match token {
        Token::Literal(x) => bracket::is_same(options.case_sensitive, c, *x),
        Token::AnyChar | Token::AnySequence => is_free(options, opening, c),
        Token::Recursive => !is_excluded_dot(options, opening, c),
        Token::OneOf(bracket) => {
            is_free(options, opening, c) && bracket.holds(c, options.case_sensitive)
        }
        Token::NoneOf(bracket) => {
            is_free(options, opening, c) && !bracket.holds(c, options.case_sensitive)
        }
    }
}

/// Whether no rule excludes the character from wildcards.
#[inline(always)]
fn is_free(options: MatchOptions, opening: bool, c: char) -> bool
    ensures { result ≡ taking.is_free options opening c }
{
    !is_excluded_separator(options, c) && !is_excluded_dot(options, opening, c)
}

/// Whether the separator rule excludes the character from wildcards: the rule is set, and the character is a `/`.
#[inline(always)]
pub fn is_excluded_separator(options: MatchOptions, c: char) -> bool
    ensures { result ≡ taking.is_excluded_separator options c }
{
    c == '/' && options.require_literal_separator
}

/// Whether the dot rule excludes the character from wildcards: the rule is set, and the character is a `.` at a
/// component start.
#[inline(always)]
pub fn is_excluded_dot(options: MatchOptions, opening: bool, c: char) -> bool
    ensures { result ≡ taking.is_excluded_dot options opening c }
{
    c == '.' && opening && options.require_literal_leading_dot
}

/// Whether `**` may take the name of a component: any name, except under the dot rule one with a leading dot, as
/// `.git`.
pub fn is_open(options: MatchOptions, name: &str) -> bool
    ensures { result ≡ components.is_open options name.now }
{
    match name.as_bytes() {
        [] => true,
        [first, ..] => !is_excluded_dot(options, true, *first as char),
    }
}

/// Whether a rule is set, which may exclude characters from wildcards.
#[inline(always)]
pub fn has_rules(options: MatchOptions) -> bool
    ensures { result ≡ taking.has_rules options }
{
    // One test per character, where `||` would be two branches.
    options.require_literal_separator | options.require_literal_leading_dot
}
