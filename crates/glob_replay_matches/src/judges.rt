//! Rows of judges: `SHAPES | CHARACTERS | PLACES THAT OPEN | WHAT IS TAKEN => ANSWER`.
ghost use Rattle.std.specs.Prelude.{◌&&◌, ◌==◌, ◌≡◌, ◌≤◌, not};
ghost use Rattle.std.specs.List.{list_any};

use glob_pattern::{Judge, Shape, run_positions};
use glob_replay::calls::Calls;
use glob_replay::ration::Memory;
use glob_replay::words::{cut, number_of, unusable};
use std::io::{self, Write};

/// A judge whose answers are written down. Tokens, characters and places are numbered from 0.
#[derive(Drop)]
struct WrittenJudge<'a> {
    tokens: usize,
    characters: usize,
    /// The places that open.
    opening: &'a [usize],
    /// Pairs of a token and a character that it does not take. It takes all others.
    refused: &'a [(usize, usize)],
    place: usize,
    count: u128,
    ghost within: { place ≤ characters },
}

impl Judge for WrittenJudge<'_> {
    ghost table = { λ judge. record {
      characters = judge.characters;
      tokens = judge.tokens;
      opens = λ place. list_any (λ written. written == place) judge.opening.now;
      takes = λ token character. not (list_any
          (λ written. written.0 == token && written.1 == character) judge.refused.now);
    } };

    ghost place = { λ judge. judge.place };

    ghost count = { λ judge. judge.count };

    fn step(&mut self) -> bool {
        if self.place == self.characters {
            return false;
        }
        self.place += 1;
        true
    }

    fn opens(&self) -> bool {
        self.opening.contains(&self.place)
    }

    fn takes(&mut self, token: usize) -> bool {
        self.count += 1;
        !self.refused.contains(&(token, self.place - 1))
    }

    fn asked(&self) -> u128 {
        self.count
    }
}

/// Adds whether the characters split into pieces of these shapes, in words. Adds a complaint if there are more
/// questions than shapes times characters or, for a split, fewer than characters.
pub fn split<M: Memory>(calls: &mut Calls<M>, fields: &[&str]) -> io::Result<()> {
    let [shapes, characters, opening, taken] = *fields else {
        return Err(unusable());
    };
    let alloc = calls.alloc.inner();
    let named = shapes.split_whitespace().filter(|word| *word != "none");
    let shapes: Vec<Shape> = named.map(|word| shape_of(word)).try_collect(alloc)?;
    let places = opening.split_whitespace();
    let opening: Vec<usize> = places.map(|word| number_of(word)).try_collect(alloc)?;
    let pairs = taken.split_whitespace().filter(|word| word.contains('.'));
    let refused: Vec<(usize, usize)> = pairs.map(|word| pair_of(word)).try_collect(alloc)?;
    let mut judge = WrittenJudge {
        tokens: shapes.len(),
        characters: number_of(characters)?,
        opening: opening.as_slice(),
        refused: refused.as_slice(),
        place: 0,
        count: 0,
    };
    let found = run_positions(calls.alloc, shapes.as_slice(), &mut judge)?;
    let least = if found { judge.characters } else { 0 };
    let most = judge.tokens.saturating_mul(judge.characters);
    calls.words.push_str(if found { "yes" } else { "no" })?;
    if judge.count < least as u128 || judge.count > most as u128 {
        write!(calls.words, ", with {} questions", judge.count)?;
    }
    Ok(())
}

/// The shape that a word names.
fn shape_of(word: &str) -> io::Result<Shape> {
    match word {
        "One" => Ok(Shape::One),
        "Run" => Ok(Shape::Run),
        "Deep" => Ok(Shape::Deep),
        _ => Err(unusable()),
    }
}

/// The token and the character of a word such as `1.2`.
fn pair_of(word: &str) -> io::Result<(usize, usize)> {
    let (token, character) = cut(word, ".")?;
    Ok((number_of(token)?, number_of(character)?))
}
