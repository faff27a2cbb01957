//! The limit of a walk, and what is charged against it.
//!
//! Each unit is charged before the question that it pays for, and a question that does not fit the limit is not asked.
//! Only the entries of a listing are charged afterwards, since they cannot be counted before that.
ghost use Rattle.std.specs.Prelude.{◌≡◌, ◌+◌, ◌<◌, ◌≤◌, true, false, vec_len, IsPermutation};
ghost use Rattle.std.specs.List.Sorted.{IsSortedByKey};
ghost use Rattle.std.specs.Cmp.Lexicographic.{slice_cmp};
ghost use Rattle.std.specs.Ordering.{nat_cmp};

use glob_tree::Entry;
use std::alloc::Allocator;

/// How many units of a limit were spent; never more than the limit.
#[derive(Clone, Copy)]
pub struct Meter {
    pub limit: u64,
    pub spent: u64,
    ghost within: { spent ≤ limit },
}

impl Meter {
    /// Charges one unit, if one is left.
    pub fn charge(&mut self) -> bool
        ensures limit { self.new.limit ≡ self.old.limit }
        ensures charged { result ≡ true → self.new.spent ≡ self.old.spent + 1 }
        ensures refused { result ≡ false
            → (self.new.spent ≡ self.old.spent) × (self.old.spent ≡ self.old.limit) }
    {
        if self.spent >= self.limit {
            return false;
        }
        self.spent += 1;
        true
    }

    /// Charges one unit for each of `count` entries. If they do not fit the limit, all of it is spent.
    pub fn charge_entries(&mut self, count: usize) -> bool
        ensures limit { self.new.limit ≡ self.old.limit }
        ensures charged { result ≡ true → self.new.spent ≡ self.old.spent + count }
        ensures refused { result ≡ false
            → (self.new.spent ≡ self.old.limit) × (self.old.limit < self.old.spent + count) }
    {
        let count = count as u64;
        if count > self.limit - self.spent {
            self.spent = self.limit;
            return false;
        }
        self.spent += count;
        true
    }
}

/// Sorts entries by the bytes of their names, in place.
pub fn sort_entries<A: Allocator>(entries: &mut Vec<Entry<A>, A>)
    ensures permutation { IsPermutation entries.old.items entries.new.items }
    ensures len { vec_len entries.new ≡ vec_len entries.old }
    ensures sorted { IsSortedByKey (λ e. e.name) (slice_cmp nat_cmp) entries.new.items }
{
    entries.sort_unstable_by(|a, b| a.name.as_str().cmp(b.name.as_str()));
}
