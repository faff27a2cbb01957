//! A list of numbers whose first few need no allocation.
ghost use Rattle.std.specs.Prelude.{◌≡◌, ◌≤◌, ◌<◌, ◌++◌, ◌∷◌, ℕ, [], false, length, All, OnErr, OnOk, IsPermutation};
ghost use Rattle.std.specs.List.Sorted.{IsNonDecreasing};
ghost use Rattle.glob_set.specs.Private.Keyed.{Keeps, KeepsAll};

use std::alloc::{AllocError, Allocator, Global};
use std::marker::Model;

/// How many numbers need no allocation.
const ROOM: usize = 16;

/// Numbers, and whether one was left out because an allocation failed. The first few are distinct; later ones may
/// repeat, since looking for them would be slow.
#[derive(Drop)]
pub struct Found<A: Allocator = Global> {
    // the first `len` of these, until there are more than fit
    few: [usize; ROOM],
    len: usize,
    // all numbers, once there are more
    many: Vec<usize, A>,
    is_full: bool,
}

impl<A: Allocator> Model for Found<A> {
    ghost use Rattle.std.specs.Prelude.{◌≤◌, take};
    ghost use Rattle.glob_set.specs.Private.Keyed.{FoundNumbers, few_or_many};

    ghost Value = { FoundNumbers };

    ghost view = { λ found. record {
      items = few_or_many (take found.len found.few) found.many.items;
      is_full = found.is_full;
    } };

    ghost invariant = { λ found. found.len ≤ 16 };
}

impl<A: Allocator> Found<A> {
    /// No numbers.
    #[inline(always)]
    pub fn new(alloc: A) -> Self
        ensures { result ≡ record { items = []; is_full = false } }
    {
        Found {
            few: [0; ROOM],
            len: 0,
            many: Vec::new(alloc),
            is_full: false,
        }
    }

    /// The numbers.
    #[inline(always)]
    pub fn numbers(&self) -> &[usize]
        ensures { result.now ≡ self.now.items }
    {
        if self.many.is_empty() {
            return &self.few[..self.len];
        }
        self.many.as_slice()
    }

    /// Whether a number was left out.
    #[inline(always)]
    pub fn is_full(&self) -> bool
        ensures { result ≡ self.now.is_full }
    {
        self.is_full
    }

    /// Adds the number, unless it is among the first few. If it has no room, `is_full` becomes true.
    pub fn push(&mut self, number: usize)
        ensures kept { KeepsAll self.old self.new }
        ensures pushed { Keeps self.new number }
        ensures within { (n : ℕ) → number < n → All (λ k. k < n) self.old.items
            → All (λ k. k < n) self.new.items }
    {
        if self.len < ROOM && self.numbers().contains(&number) {
            return;
        }
        match self.push_new(number) {
            Ok(()) => {}
            Err(_) => self.is_full = true,
        }
    }

    /// Adds the number. The error is a failed allocation, which leaves the numbers as they were.
    fn push_new(&mut self, number: usize) -> Result<(), AllocError>
        ensures pushed { OnOk result (self.new.items ≡ self.old.items ++ number ∷ []) }
        ensures kept { OnErr result (self.new.items ≡ self.old.items) }
        ensures full { self.new.is_full ≡ self.old.is_full }
    {
        if self.many.is_empty() {
            if self.len < ROOM {
                self.few[self.len] = number;
                self.len += 1;
                return Ok(());
            }
            self.many.extend_from_slice(&self.few)?;
        }
        self.many.push(number)?;
        Ok(())
    }

    /// Sorts the numbers in ascending order.
    pub fn sort(&mut self)
        ensures permutation { IsPermutation self.old.items self.new.items }
        ensures order { IsNonDecreasing self.new.items }
        ensures full { self.new.is_full ≡ self.old.is_full }
    {
        if self.many.is_empty() {
            let len = self.len;
            self.few[..len].sort_unstable();
        } else {
            self.many.as_mut_slice().sort_unstable();
        }
    }
}
