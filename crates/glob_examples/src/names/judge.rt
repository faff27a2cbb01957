//! A judge whose characters are names: it looks up its answers in a table.
ghost use Rattle.std.specs.Prelude.{◌≡◌, ◌≤◌, length, map, vec_len, All};
ghost use Rattle.glob_examples.specs.NameTable.{table_of};

use glob::Judge;
use std::alloc::Allocator;

/// Steps through the names of a path, and looks up which components match them.
#[derive(Drop)]
pub struct NameJudge<'a, A: Allocator> {
    // a row for each name, with an answer for each component
    rows: &'a [Vec<bool, A>],
    components: usize,
    place: usize,
    count: u128,
    ghost full: { All (λ row. vec_len row ≡ components) rows.now },
    ghost within: { place ≤ length rows.now },
}

impl<'a, A: Allocator> NameJudge<'a, A> {
    /// A judge before the first name, with nothing asked.
    pub fn new(rows: &'a [Vec<bool, A>], components: usize) -> Self
        requires { All (λ row. vec_len row ≡ components) rows.now }
        ensures rows { result.rows.now ≡ rows.now }
        ensures components { result.components ≡ components }
        ensures place { result.place ≡ 0 }
        ensures count { result.count ≡ 0 }
    {
        NameJudge {
            rows,
            components,
            place: 0,
            count: 0,
        }
    }
}

#[tactic(auto, unfolding(crate::specs::NameTable::table_of))]
impl<A: Allocator> Judge for NameJudge<'_, A> {
    ghost table = { λ judge. table_of judge.components (map (λ row. row.items) judge.rows.now) };

    ghost place = { λ judge. judge.place };

    ghost count = { λ judge. judge.count };

    fn step(&mut self) -> bool {
        if self.place == self.rows.len() {
            return false;
        }
        self.place += 1;
        true
    }

    fn opens(&self) -> bool {
        true
    }

    fn takes(&mut self, token: usize) -> bool {
        self.count += 1;
        self.rows[self.place - 1][token]
    }

    fn asked(&self) -> u128 {
        self.count
    }
}
