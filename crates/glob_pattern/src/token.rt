//! The tokens of a pattern.
ghost use Rattle.std.specs.Prelude.{◌≡◌};
ghost use Rattle.glob_pattern.specs.Grammar.Tokens.{is_recursive, shape_of};

pub mod bracket;
pub mod taking;

use crate::matcher::{Shape, Shaped};
use bracket::Bracket;
use std::alloc::Allocator;

/// A token: what a unit of a pattern means. `C` is the content of a bracket. `AnySequence` has the shape `Run`,
/// `Recursive` has `Deep`, and every other token has `One`.
#[derive(Clone, Drop)]
pub enum Token<C> {
    /// A character.
    Literal(char),
    /// `?`, any one character.
    AnyChar,
    /// `*`, any number of characters.
    AnySequence,
    /// `**`, the recursive wildcard: any number of whole path components.
    Recursive,
    /// `[..]`, a character in the bracket.
    OneOf(C),
    /// `[!..]`, a character that is not in the bracket.
    NoneOf(C),
}

impl<A: Allocator> Token<Bracket<A>> {
    /// Whether it is `**`.
    pub fn is_recursive(&self) -> bool
        ensures { result ≡ is_recursive self.now }
    {
        matches!(self, Token::Recursive)
    }
}

impl<A: Allocator> Shaped for Token<Bracket<A>> {
    ghost shape = { shape_of };

    fn shape(&self) -> Shape {
        match self {
            Token::Literal(_) | Token::AnyChar | Token::OneOf(_) | Token::NoneOf(_) => Shape::One,
            Token::AnySequence => Shape::Run,
            Token::Recursive => Shape::Deep,
        }
    }
}
