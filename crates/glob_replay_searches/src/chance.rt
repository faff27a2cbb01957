//! Random numbers and texts.

use std::alloc::{AllocError, Global};

/// Random numbers from a linear congruential generator with a seed.
#[derive(Drop)]
pub struct Chance {
    state: u64,
    alloc: Global,
}

impl Chance {
    /// The numbers that come after a seed.
    pub fn new(alloc: Global, seed: u64) -> Self {
        Chance { state: seed, alloc }
    }

    /// A number below this one.
    pub fn below(&mut self, end: usize) -> usize {
        self.state = self
            .state
            .wrapping_mul(6364136223846793005)
            .wrapping_add(1442695040888963407);
        ((self.state >> 33) as usize).checked_rem(end).unwrap_or(0)
    }

    /// True once in this many times.
    pub fn is_one_in(&mut self, times: usize) -> bool {
        self.below(times) == 0
    }

    /// One of the texts.
    pub fn pick<'a>(&mut self, texts: &[&'a str]) -> &'a str {
        let number = self.below(texts.len());
        texts.get(number).copied().unwrap_or("")
    }

    /// One or more of the texts, up to this many, joined by a separator.
    pub fn joined(
        &mut self,
        texts: &[&str],
        most: usize,
        separator: char,
    ) -> Result<String, AllocError> {
        let mut joined = String::from_str(self.alloc, self.pick(texts))?;
        for _ in 0..self.below(most) {
            joined.push(separator)?;
            joined.push_str(self.pick(texts))?;
        }
        Ok(joined)
    }
}
