//! What a token wants, in words.
use crate::visible::Visible;
use glob_captures::{TokenKind, Written};
use glob_pattern::MatchOptions;
use std::alloc::{AllocError, Allocator};

/// Whether a token of this kind matches any number of characters.
pub fn grows(kind: TokenKind) -> bool {
    matches!(kind, TokenKind::AnySequence | TokenKind::Recursive)
}

/// Where the token ends or, if it is a character, the last of the characters that follow it directly.
pub fn run_end(token: Written, after: &[Written]) -> usize {
    let mut end = token.piece.end;
    if token.kind == TokenKind::Literal {
        for next in after {
            if next.kind != TokenKind::Literal {
                break;
            }
            end = next.piece.end;
        }
    }
    end
}

/// Adds a line for a token of this kind: `written` (the token and the characters after it), a tab, and what the token
/// wants under the options where the match stops. `rest` is the rest of the text.
pub fn add_want<A: Allocator>(
    lines: &mut String<A>,
    kind: TokenKind,
    written: &str,
    is_last: bool,
    rest: &str,
    options: MatchOptions,
) -> Result<(), AllocError> {
    let case = if !options.case_sensitive && has_case(kind, written) {
        ", in either case"
    } else {
        ""
    };
    let rules = if kind == TokenKind::Recursive && !is_last && !rest.contains('/') {
        ", but no / follows"
    } else {
        rules_of(kind, options)
    };
    let wish = wish_of(kind, written);
    let written = Visible { text: written };
    writeln!(lines, "{written}\t{wish}{case}{rules}")
}

/// What a token of this kind wants, apart from the rules.
fn wish_of(kind: TokenKind, written: &str) -> &'static str {
    match kind {
        TokenKind::Literal if written.chars().count() > 1 => "wants these characters",
        TokenKind::Literal => "wants this character",
        TokenKind::AnyChar => "wants any one character",
        TokenKind::AnySequence => "wants any characters",
        TokenKind::Recursive => "wants whole components",
        TokenKind::OneOf => "wants a character that it lists",
        TokenKind::NoneOf => "wants a character that it does not list",
    }
}

/// Whether upper and lower case make a difference for a token.
fn has_case(kind: TokenKind, written: &str) -> bool {
    match kind {
        TokenKind::Literal | TokenKind::OneOf | TokenKind::NoneOf => {
            written.bytes().any(|byte| byte.is_ascii_alphabetic())
        }
        TokenKind::AnyChar | TokenKind::AnySequence | TokenKind::Recursive => false,
    }
}

/// What the rules in the options forbid a token of this kind.
fn rules_of(kind: TokenKind, options: MatchOptions) -> &'static str {
    if kind == TokenKind::Literal {
        return "";
    }
    let has_separator_rule = options.require_literal_separator && kind != TokenKind::Recursive;
    match (has_separator_rule, options.require_literal_leading_dot) {
        (true, true) => ", but no / and no leading .",
        (true, false) => ", but no /",
        (false, true) => ", but no leading .",
        (false, false) => "",
    }
}
