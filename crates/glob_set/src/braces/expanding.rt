//! The alternatives of lexemes.
ghost use Rattle.std.specs.Prelude.{◌≡◌, [], ◌∷◌, ◌++◌, IfOk, OnOk, encode_utf8, map, string_bytes};
ghost use Rattle.glob_set.specs.Braces.{each_with, joined};
ghost use Rattle.glob_set.specs.Private.BraceSteps.{after_lexeme, after_lexemes, start_reading, reading_of};

use crate::braces::lexemes::Lexeme;
use std::alloc::{AllocError, Allocator, Global};
use std::mem;

/// A `{` that is still open.
#[derive(Drop)]
pub struct Group<A: Allocator = Global> {
    /// The alternatives of the text before it.
    pub before: Vec<String<A>, A>,
    /// The alternatives between it and its last comma.
    pub found: Vec<String<A>, A>,
}

/// The alternatives of balanced lexemes. Fails only if allocation fails.
pub fn expand_all<A: Allocator + Copy>(
    alloc: A,
    lexemes: &[Lexeme],
) -> Result<Vec<String<A>, A>, AllocError>
    ensures { IfOk result
        (λ texts. map string_bytes texts.items ≡ (after_lexemes start_reading lexemes.now).texts) }
{
    let mut texts = empty_text(alloc)?;
    let mut groups = Vec::new(alloc);
    for lexeme in lexemes {
        step(alloc, &mut texts, &mut groups, *lexeme)?;
    }
    Ok(texts)
}

/// The alternatives of no lexemes: an empty text.
fn empty_text<A: Allocator + Copy>(alloc: A) -> Result<Vec<String<A>, A>, AllocError>
    ensures { IfOk result (λ texts. map string_bytes texts.items ≡ [] ∷ []) }
{
    let mut texts = Vec::new(alloc);
    texts.push(String::new(alloc))?;
    Ok(texts)
}

/// Reads a lexeme. `texts` are the alternatives since the last open `{` or its last comma.
fn step<A: Allocator + Copy>(
    alloc: A,
    texts: &mut Vec<String<A>, A>,
    groups: &mut Vec<Group<A>, A>,
    lexeme: Lexeme,
) -> Result<(), AllocError>
    ensures { OnOk result (reading_of texts.new.items groups.new.items
        ≡ after_lexeme lexeme (reading_of texts.old.items groups.old.items)) }
{
    match lexeme {
        Lexeme::Literal(c) => push_to_each(texts, c),
        Lexeme::Open => {
            let before = mem::replace(texts, empty_text(alloc)?);
            groups.push(Group {
                before,
                found: Vec::new(alloc),
            })?;
            Ok(())
        }
        Lexeme::Comma => match groups.pop() {
            Some(mut group) => {
                group.found.append(texts)?;
                texts.push(String::new(alloc))?;
                groups.push(group)?;
                Ok(())
            }
            None => push_to_each(texts, ','),
        },
        Lexeme::Close => match groups.pop() {
            Some(mut group) => {
                group.found.append(texts)?;
                *texts = joined(alloc, group.before.as_slice(), group.found.as_slice())?;
                Ok(())
            }
            None => Ok(()),
        },
    }
}

/// Appends a character to each text.
fn push_to_each<A: Allocator>(texts: &mut Vec<String<A>, A>, c: char) -> Result<(), AllocError>
    ensures { OnOk result (map string_bytes texts.new.items
        ≡ each_with (map string_bytes texts.old.items) (encode_utf8 c)) }
{
    for text in texts.iter_mut() {
        text.push(c)?;
    }
    Ok(())
}

/// Each of the first texts followed by each of the second ones, in the order of the first.
fn joined<A: Allocator + Copy>(
    alloc: A,
    firsts: &[String<A>],
    seconds: &[String<A>],
) -> Result<Vec<String<A>, A>, AllocError>
    ensures { IfOk result (λ texts. map string_bytes texts.items
        ≡ joined (map string_bytes firsts.now) (map string_bytes seconds.now)) }
{
    let mut texts = Vec::new(alloc);
    for first in firsts {
        push_joined(alloc, first.as_str(), seconds, &mut texts)?;
    }
    Ok(texts)
}

/// Appends to `texts` the first text followed by each of the second ones.
fn push_joined<A: Allocator + Copy>(
    alloc: A,
    first: &str,
    seconds: &[String<A>],
    texts: &mut Vec<String<A>, A>,
) -> Result<(), AllocError>
    ensures { OnOk result (map string_bytes texts.new.items ≡ map string_bytes texts.old.items
        ++ map (λ second. first.now ++ second) (map string_bytes seconds.now)) }
{
    for second in seconds {
        let mut text = String::from_str(alloc, first)?;
        text.push_str(second.as_str())?;
        texts.push(text)?;
    }
    Ok(())
}
