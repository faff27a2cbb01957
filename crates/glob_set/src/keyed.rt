//! Patterns by their keys, in a hash table.
ghost use Rattle.std.specs.Prelude.{◌≡◌, ◌+◌, ◌-◌, ◌^◌, ◌<◌, ◌↔◌, ◌⊎◌, false, [], length, slice_index_or, replicate};
ghost use Rattle.std.specs.Prelude.{None, All, IfOk, IsTrue, IsSomeAnd};
ghost use Rattle.std.specs.List.Sorted.{IsNonDecreasing};
ghost use Rattle.glob_set.specs.Private.Keyed.{AreLinked, Finds, HasHash, IsReadBefore, Keeps, KeepsAll, key_slot};
ghost use Rattle.glob_set.specs.Private.Keys.{IsComponentOf, IsEndingOf, IsKeyOf};

use crate::components::{Component, hash_after, slot_of};
use crate::found::Found;
use crate::key::{Key, Kinds, has_length, kinds_of};
use std::alloc::{AllocError, Allocator, Global};
use std::marker::Model;

/// The keys of patterns, and the patterns by the slots of their keys.
#[derive(Drop)]
pub struct Keyed<A: Allocator = Global> {
    keys: Vec<Option<Key>, A>,
    // The first pattern of each slot, and for each pattern the next one in its slot. If there is none, it is the number
    // of patterns. The last slot has the patterns without a key.
    first: Vec<usize, A>,
    next: Vec<usize, A>,
    // the kinds of keys that occur; texts are looked up only by these
    kinds: Kinds,
}

impl<A: Allocator> Model for Keyed<A> {
    ghost use Rattle.std.specs.Prelude.{List, Option};
    ghost use Rattle.glob_set.specs.declared.key.Key.{Key};
    ghost use Rattle.glob_set.specs.Private.Keyed.{AreLinked};
    ghost use Rattle.glob_set.specs.Private.Keys.{AreKinds};

    ghost Value = { List (Option Key) };

    ghost view = { λ keyed. keyed.keys.items };

    ghost invariant = { λ keyed. AreLinked keyed.keys.items keyed.first.items keyed.next.items
        × AreKinds keyed.keys.items keyed.kinds };
}

impl<A: Allocator + Copy> Keyed<A> {
    /// The table of the patterns with these keys, with `slots` slots for keys. Fails only if allocation fails.
    pub fn new(alloc: A, keys: Vec<Option<Key>, A>, slots: usize) -> Result<Self, AllocError>
        requires some { 0 < slots }
        requires few { slots < 2 ^ 64 - 1 }
        ensures { IfOk result (λ keyed. keyed ≡ keys.items) }
    {
        let count = keys.len();
        let mut first = vec![in alloc; count; slots + 1]?;
        let mut next = vec![in alloc; count; count]?;
        link(keys.as_slice(), first.as_mut_slice(), next.as_mut_slice());
        let kinds = kinds_of(keys.as_slice());
        Ok(Keyed {
            keys,
            first,
            next,
            kinds,
        })
    }

    /// Puts the patterns that have a key of the text into `found`, perhaps with others of the same hash, in ascending
    /// order.
    #[inline(always)]
    pub fn find_in(&self, text: &[u8], found: &mut Found<A>)
        requires { found.old.items ≡ [] }
        ensures order { IsNonDecreasing found.new.items }
        ensures within { All (λ k. k < length self.now) found.new.items }
        ensures all { Finds self.now (IsKeyOf text.now) found.new }
    {
        self.find_components(text, found);
        self.find_endings(text, found);
        found.sort();
    }

    /// Adds the patterns whose key is a component of the text, or the beginning of one, if there are such keys.
    #[inline(always)]
    fn find_components(&self, text: &[u8], found: &mut Found<A>)
        requires { All (λ k. k < length self.now) found.old.items }
        ensures within { All (λ k. k < length self.now) found.new.items }
        ensures all { Finds self.now (IsComponentOf text.now) found.new }
    {
        if self.kinds.components {
            self.find_each(text, found);
        }
    }

    /// Adds the patterns whose key is an ending of the text.
    #[inline(always)]
    fn find_endings(&self, text: &[u8], found: &mut Found<A>)
        requires { All (λ k. k < length self.now) found.old.items }
        ensures within { All (λ k. k < length self.now) found.new.items }
        ensures kept { KeepsAll found.old found.new }
        ensures all { Finds self.now (IsEndingOf text.now) found.new }
    {
        let mut hash = 0;
        let mut len = 0;
        while (len as usize) < text.len() {
            let byte = text[text.len() - 1 - len as usize];
            let is_used = has_length(self.kinds.endings, len);
            self.find_if(is_asked(byte, b'.', is_used), hash, found);
            if len == self.kinds.longest {
                return;
            }
            hash = hash_after(hash, byte);
            len += 1;
        }
        self.find_if(has_length(self.kinds.endings, len), hash, found);
    }

    /// Adds the patterns whose key is a component of the text, or the beginning of one.
    fn find_each(&self, text: &[u8], found: &mut Found<A>)
        requires { All (λ k. k < length self.now) found.old.items }
        ensures within { All (λ k. k < length self.now) found.new.items }
        ensures all { Finds self.now (IsComponentOf text.now) found.new }
    {
        let mut component = Component::start();
        for byte in text {
            self.find_before(*byte, component, found);
            component = component.after(*byte);
        }
        self.find(component.hash, found);
    }

    /// Adds the patterns whose key is this component, if it ends before this byte, or is this beginning of a component.
    #[inline(always)]
    fn find_before(&self, byte: u8, component: Component, found: &mut Found<A>)
        requires { All (λ k. k < length self.now) found.old.items }
        ensures within { All (λ k. k < length self.now) found.new.items }
        ensures kept { KeepsAll found.old found.new }
        ensures all { Finds self.now (IsReadBefore component byte) found.new }
    {
        let is_used = has_length(self.kinds.beginnings, component.len);
        self.find_if(is_asked(byte, b'/', is_used), component.hash, found);
    }

    /// Adds the patterns whose keys have this hash, if `is_asked`.
    #[inline(always)]
    fn find_if(&self, is_asked: bool, hash: u32, found: &mut Found<A>)
        requires { All (λ k. k < length self.now) found.old.items }
        ensures within { All (λ k. k < length self.now) found.new.items }
        ensures kept { KeepsAll found.old found.new }
        ensures all { IsTrue is_asked → Finds self.now (HasHash hash) found.new }
    {
        if is_asked {
            self.find(hash, found);
        }
    }

    /// Adds the patterns whose keys have this hash.
    fn find(&self, hash: u32, found: &mut Found<A>)
        requires { All (λ k. k < length self.now) found.old.items }
        ensures within { All (λ k. k < length self.now) found.new.items }
        ensures kept { KeepsAll found.old found.new }
        ensures all { Finds self.now (HasHash hash) found.new }
    {
        let mut number = self.first[slot_of(hash, self.first.len() - 1)];
        while number < self.keys.len() {
            self.push_if(number, hash, found);
            number = self.next[number];
        }
    }

    /// Adds the pattern if its key has this hash.
    fn push_if(&self, number: usize, hash: u32, found: &mut Found<A>)
        requires within { number < length self.now }
        requires found { All (λ k. k < length self.now) found.old.items }
        ensures within { All (λ k. k < length self.now) found.new.items }
        ensures kept { KeepsAll found.old found.new }
        ensures pushed { IsSomeAnd (slice_index_or self.now number None) (HasHash hash)
            → Keeps found.new number }
    {
        if has_hash(self.keys[number], hash) {
            found.push(number);
        }
    }
}

/// Whether the text is looked up right before this byte: always before a mark, elsewhere only if a key has the length
/// read so far.
#[inline(always)]
fn is_asked(byte: u8, mark: u8, is_used: bool) -> bool
    ensures { IsTrue result ↔ (byte ≡ mark) ⊎ IsTrue is_used }
{
    byte == mark || is_used
}

/// Whether there is a key with this hash.
fn has_hash(key: Option<Key>, hash: u32) -> bool
    ensures { IsTrue result ↔ IsSomeAnd key (HasHash hash) }
{
    match key {
        Some(key) => key.hash() == hash,
        None => false,
    }
}

/// Links the patterns of each slot, starting with the last one.
fn link(keys: &[Option<Key>], first: &mut [usize], next: &mut [usize])
    requires some { 1 < length first.old }
    requires first { first.old ≡ replicate (length first.old) (length keys.now) }
    requires next { length next.old ≡ length keys.now }
    ensures { AreLinked keys.now first.new next.new }
{
    let mut number = keys.len();
    while number > 0 {
        number -= 1;
        let slot = key_slot(keys[number], first.len() - 1);
        next[number] = first[slot];
        first[slot] = number;
    }
}

/// The slot of a key in a table of `slots`. Patterns without a key have the slot after these.
fn key_slot(key: Option<Key>, slots: usize) -> usize
    requires { 0 < slots }
    ensures slot { result ≡ key_slot key slots }
    ensures within { result < slots + 1 }
{
    match key {
        Some(key) => slot_of(key.hash(), slots),
        None => slots,
    }
}

/// The number of slots for this many keys.
pub fn slots_for(keys: usize) -> usize
    ensures some { 0 < result }
    ensures few { result < 2 ^ 64 - 1 }
{
    keys.min(1 << 62).next_power_of_two()
}
