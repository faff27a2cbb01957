//! The tokens of a pattern one by one: their number, their kinds, and what each takes.
ghost use Rattle.std.specs.Prelude.{◌≡◌, ◌<◌, length, slice_index_or, chars};
ghost use Rattle.glob_pattern.specs.Grammar.Units.{HasTokens};
ghost use Rattle.glob_pattern.specs.Matching.Literals.{HasCount};
ghost use Rattle.glob_pattern.specs.Matching.Taking as taking;
ghost use Rattle.glob_pattern.specs.Computing.Tokens.{tokens_of, kind_of};
ghost use Rattle.glob_pattern.specs.declared.token.Token.TheVariants.{AnyChar as Wildcard};

use crate::options::MatchOptions;
use crate::pattern::Pattern;
use crate::token::Token;
use crate::token::bracket::Bracket;
use crate::token::taking::takes;
use std::alloc::Allocator;

/// The kind of a token: the pattern `?` has one token, of the kind `AnyChar`.
#[derive(Clone, Copy, Debug, PartialEq, Eq)]
pub enum TokenKind {
    /// A character.
    Literal,
    /// `?`, any one character.
    AnyChar,
    /// `*`, any number of characters.
    AnySequence,
    /// `**`, any number of whole components. Neighbouring ones are one token.
    Recursive,
    /// `[..]`, a character in the bracket.
    OneOf,
    /// `[!..]`, a character that is not in the bracket.
    NoneOf,
}

/// The number of tokens of a pattern, at most one per character: two for `[a-z]*`.
#[inline(always)]
pub fn tokens_len<A: Allocator>(pattern: &Pattern<A>) -> usize
    ensures count { result ≡ length (tokens_of (chars pattern.now)) }
    ensures read { HasTokens (chars pattern.now) (tokens_of (chars pattern.now)) }
    ensures only { HasCount (chars pattern.now) result }
{
    tokens_in(pattern).len()
}

/// The tokens of a pattern.
#[inline(always)]
fn tokens_in<A: Allocator>(pattern: &Pattern<A>) -> &[Token<Bracket<A>>]
    ensures tokens { result.now ≡ tokens_of (chars pattern.now) }
    ensures read { HasTokens (chars pattern.now) (tokens_of (chars pattern.now)) }
{
    pattern.compiled.tokens()
}

/// The kind of a token, counted from 0: token 1 of `a*` is an `AnySequence`. There must be such a token.
#[inline(always)]
pub fn token_kind<A: Allocator>(pattern: &Pattern<A>, token: usize) -> TokenKind
    requires { token < length (tokens_of (chars pattern.now)) }
    ensures { result ≡ kind_of (slice_index_or (tokens_of (chars pattern.now)) token Wildcard) }
{
    match &tokens_in(pattern)[token] {
        Token::Literal(_) => TokenKind::Literal,
        Token::AnyChar => TokenKind::AnyChar,
        Token::AnySequence => TokenKind::AnySequence,
        Token::Recursive => TokenKind::Recursive,
        Token::OneOf(_) => TokenKind::OneOf,
        Token::NoneOf(_) => TokenKind::NoneOf,
    }
}

/// Whether a token, counted from 0, takes the character. There must be such a token. `opening`: a component starts at
/// the character's place. With no rule set, token 1 of `a*` takes any character.
#[inline(always)]
pub fn token_takes<A: Allocator>(
    pattern: &Pattern<A>,
    token: usize,
    options: MatchOptions,
    opening: bool,
    c: char,
) -> bool
    requires { token < length (tokens_of (chars pattern.now)) }
    ensures { result
        ≡ taking.takes options opening c (slice_index_or (tokens_of (chars pattern.now)) token Wildcard) }
{
    takes(&tokens_in(pattern)[token], options, opening, c)
}
