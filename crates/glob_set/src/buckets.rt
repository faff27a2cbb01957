//! The patterns without a key that may match a text, listed by the class of the text's last two bytes: a number below
//! 128 that `pair_class` makes of them. `rarest` says which patterns have keys.
ghost use Rattle.std.specs.Prelude.{◌≡◌, ◌<◌, ◌++◌, ◌∷◌, [], length, replicate, slice_index_or, None, IfOk, IfSome, OnOk, All};
ghost use Rattle.glob_set.specs.Private.Buckets.{AreBuckets, IsAll, with_another, with_number};
ghost use Rattle.glob_set.specs.Private.Keyed.{few_or_many};
ghost use Rattle.glob_set.specs.Private.Pairs.{HasSmallClass};

use crate::key::Key;
use crate::pairs::Need;
use std::alloc::{AllocError, Allocator, Global};
use std::marker::Model;

/// The number of classes: each is a bit of a `u128` (`class_bit`), so there cannot be more.
const CLASSES: usize = 128;

/// Numbers of patterns, in ascending order.
#[derive(Drop)]
pub struct Bucket<A: Allocator = Global> {
    numbers: Vec<usize, A>,
}

impl<A: Allocator> Model for Bucket<A> {
    ghost use Rattle.std.specs.Prelude.{List, ℕ};

    ghost Value = { List ℕ };

    ghost view = { λ bucket. bucket.numbers.items };
}

impl<A: Allocator> Bucket<A> {
    /// No numbers.
    fn new(alloc: A) -> Self
        ensures { result ≡ [] }
    {
        Bucket {
            numbers: Vec::new(alloc),
        }
    }

    /// The numbers of the patterns in this bucket.
    #[inline(always)]
    pub fn numbers(&self) -> &[usize]
        ensures { result.now ≡ self.now }
    {
        self.numbers.as_slice()
    }

    /// Adds a number.
    fn push(&mut self, number: usize) -> Result<(), AllocError>
        ensures { OnOk result (self.new ≡ self.old ++ number ∷ []) }
    {
        self.numbers.push(number)?;
        Ok(())
    }

    /// Adds a number. Before the first one it adds the numbers of `others`.
    fn push_behind(&mut self, others: &Bucket<A>, number: usize) -> Result<(), AllocError>
        ensures { OnOk result (self.new ≡ few_or_many others.now self.old ++ number ∷ []) }
    {
        if self.numbers.is_empty() {
            self.numbers.extend_from_slice(others.numbers())?;
        }
        self.push(number)
    }

    /// Adds a number, unless it would be the first.
    fn push_another(&mut self, number: usize) -> Result<(), AllocError>
        ensures { OnOk result (self.new ≡ with_another number self.old) }
    {
        if !self.numbers.is_empty() {
            self.push(number)?;
        }
        Ok(())
    }
}

/// The numbers of the patterns without a key, by the class of the texts that they may match.
#[derive(Drop)]
pub struct Buckets<A: Allocator = Global> {
    // for each class that some pattern needs: the patterns that need it, and the patterns that need no class; empty for
    // other classes
    classes: Vec<Bucket<A>, A>,
    // the patterns that need no class, for all other classes
    rest: Bucket<A>,
}

impl<A: Allocator> Model for Buckets<A> {
    ghost use Rattle.std.specs.Prelude.{◌≡◌, List, ℕ, length, map};
    ghost use Rattle.glob_set.specs.Private.Keyed.{few_or_many};

    ghost Value = { List (List ℕ) };

    ghost view = { λ buckets. map (few_or_many buckets.rest) buckets.classes.items };

    ghost invariant = { λ buckets. length buckets.classes.items ≡ 128 };
}

impl<A: Allocator> Buckets<A> {
    /// The patterns that may match a text of the class.
    #[inline(always)]
    pub fn of_class(&self, class: u8) -> &[usize]
        requires { class < 128 }
        ensures { result.now ≡ slice_index_or self.now class [] }
    {
        let own = self.classes[class as usize].numbers();
        if own.is_empty() {
            return self.rest.numbers();
        }
        own
    }

    /// Adds a pattern that needs the class, if there is one.
    fn push(&mut self, number: usize, class: Option<u8>) -> Result<(), AllocError>
        requires { IfSome class (λ k. k < 128) }
        ensures { OnOk result (self.new ≡ with_number number class self.old) }
    {
        match class {
            Some(class) => self.classes[class as usize].push_behind(&self.rest, number),
            None => self.push_to_all(number),
        }
    }

    /// Adds a pattern that needs no class.
    fn push_to_all(&mut self, number: usize) -> Result<(), AllocError>
        ensures { OnOk result (self.new ≡ with_number number None self.old) }
    {
        for bucket in self.classes.iter_mut() {
            bucket.push_another(number)?;
        }
        self.rest.push(number)
    }
}

impl<A: Allocator + Copy> Buckets<A> {
    /// Sorts the patterns without a key into buckets, by what a text needs to match them.
    pub fn new(alloc: A, needs: &[Need], keys: &[Option<Key>]) -> Result<Self, AllocError>
        requires keys { length keys.now ≡ length needs.now }
        requires classes { All HasSmallClass needs.now }
        ensures { IfOk result (AreBuckets needs.now keys.now (length needs.now)) }
    {
        let mut buckets = Buckets::empty(alloc)?;
        for number in 0..needs.len() {
            if keys[number].is_none() {
                buckets.push(number, needs[number].class)?;
            }
        }
        Ok(buckets)
    }

    /// No patterns.
    fn empty(alloc: A) -> Result<Self, AllocError>
        ensures { IfOk result (λ buckets. buckets ≡ replicate 128 []) }
    {
        let mut classes = Vec::new(alloc);
        for _class in 0..CLASSES {
            let own = Bucket::new(alloc);
            classes.push(own)?;
        }
        let rest = Bucket::new(alloc);
        Ok(Buckets { classes, rest })
    }
}

/// The numbers of all `count` patterns.
pub fn bucket_of_all<A: Allocator + Copy>(alloc: A, count: usize) -> Result<Bucket<A>, AllocError>
    ensures { IfOk result (IsAll count) }
{
    let mut numbers = Vec::new(alloc);
    for number in 0..count {
        numbers.push(number)?;
    }
    Ok(Bucket { numbers })
}
