//! The key by which each pattern is found: the rarest of its keys.
ghost use Rattle.std.specs.Prelude.{◌≡◌, ◌<◌, ◌≤◌, length, slice_range, Contains, IfOk, IfSome};
ghost use Rattle.glob_set.specs.Private.Keys.{AreKeys, AreListed};

use crate::components::slot_of;
use crate::key::Key;
use crate::keyed::slots_for;
use crate::pattern_keys::find_keys;
use glob_pattern::Pattern;
use std::alloc::{AllocError, Allocator, Global};

/// The least number of patterns with keys. If there are fewer, no pattern gets one: asking them one by one is faster
/// than looking up keys.
const FEWEST_WITH_KEYS: usize = 64;

/// A key is rare if the number of keys in its slot plus the cost of its lookup is below this.
const COMMON: u8 = 32;

/// The number of slots per pattern, so that few rare keys share a slot with a common one.
const SLOTS: usize = 16;

/// The keys of patterns, one pattern after the other.
#[derive(Drop)]
struct Listed<A: Allocator = Global> {
    keys: Vec<Key, A>,
    // where the keys of each pattern begin, and where the last keys end
    starts: Vec<usize, A>,
}

impl<A: Allocator + Copy> Listed<A> {
    /// All keys of the patterns.
    fn new(alloc: A, patterns: &[Pattern<A>]) -> Result<Self, AllocError>
        ensures { IfOk result (λ listed.
            AreListed patterns.now (length patterns.now) listed.keys.items listed.starts.items) }
    {
        let mut keys = Vec::new(alloc);
        let mut starts = Vec::new(alloc);
        let mut found = Vec::new(alloc);
        for pattern in patterns {
            starts.push(keys.len())?;
            find_keys(pattern, &mut found)?;
            keys.append(&mut found)?;
        }
        starts.push(keys.len())?;
        Ok(Listed { keys, starts })
    }
}

/// The rarest key of each pattern, if it is rare enough: for `src/mod17/*.rs`, the key of `mod17`. If few patterns have
/// such a key, no pattern gets one.
pub fn keys_of<A: Allocator + Copy>(
    alloc: A,
    patterns: &[Pattern<A>],
) -> Result<Vec<Option<Key>, A>, AllocError>
    ensures { IfOk result (λ keys. AreKeys patterns.now keys.items) }
{
    if patterns.len() < FEWEST_WITH_KEYS {
        return no_keys(alloc, patterns);
    }
    let listed = Listed::new(alloc, patterns)?;
    let keys = rarest_of(alloc, patterns, &listed)?;
    if count_some(keys.as_slice()) < FEWEST_WITH_KEYS {
        return no_keys(alloc, patterns);
    }
    Ok(keys)
}

/// No key for any pattern.
fn no_keys<A: Allocator + Copy>(
    alloc: A,
    patterns: &[Pattern<A>],
) -> Result<Vec<Option<Key>, A>, AllocError>
    ensures { IfOk result (λ keys. AreKeys patterns.now keys.items) }
{
    vec![in alloc; None; patterns.len()]
}

/// The number of keys.
fn count_some(keys: &[Option<Key>]) -> usize {
    let mut count = 0;
    for key in keys {
        if key.is_some() {
            count += 1;
        }
    }
    count
}

/// The rarest key of each pattern, if it is rare.
fn rarest_of<A: Allocator + Copy>(
    alloc: A,
    patterns: &[Pattern<A>],
    listed: &Listed<A>,
) -> Result<Vec<Option<Key>, A>, AllocError>
    requires { AreListed patterns.now (length patterns.now)
        listed.now.keys.items listed.now.starts.items }
    ensures { IfOk result (λ keys. AreKeys patterns.now keys.items) }
{
    let all = listed.keys.as_slice();
    let starts = listed.starts.as_slice();
    let slots = slots_for(patterns.len().saturating_mul(SLOTS));
    let counts = counts_of(alloc, all, slots)?;
    let mut keys = Vec::new(alloc);
    for number in 0..patterns.len() {
        let own = keys_between(all, starts[number], starts[number + 1]);
        keys.push(rarest(own, counts.as_slice()))?;
    }
    Ok(keys)
}

/// The keys from `start` up to `end`.
fn keys_between(keys: &[Key], start: usize, end: usize) -> &[Key]
    requires { (start ≤ end) × (end ≤ length keys.now) }
    ensures { result.now ≡ slice_range keys.now start end }
{
    &keys[start..end]
}

/// The number of keys in each slot, which stops at 255.
fn counts_of<A: Allocator + Copy>(
    alloc: A,
    keys: &[Key],
    slots: usize,
) -> Result<Vec<u8, A>, AllocError>
    requires { 0 < slots }
    ensures { IfOk result (λ counts. length counts.items ≡ slots) }
{
    let mut counts = vec![in alloc; 0_u8; slots]?;
    for key in keys {
        let slot = count_slot(*key, slots);
        counts[slot] = counts[slot].saturating_add(1);
    }
    Ok(counts)
}

/// The key for which the number of keys in its slot plus the cost of its lookup is lowest, if that sum is low enough.
fn rarest(keys: &[Key], counts: &[u8]) -> Option<Key>
    requires { 0 < length counts.now }
    ensures { IfSome result (Contains keys.now) }
{
    let mut rarest = None;
    let mut least = COMMON;
    for key in keys {
        let count = counts[count_slot(*key, counts.len())];
        let cost = count.saturating_add(cost_of(*key));
        if cost < least {
            rarest = Some(*key);
            least = cost;
        }
    }
    rarest
}

/// The slot in which a key is counted. Keys of different kinds are counted apart, even if their hashes are equal.
fn count_slot(key: Key, slots: usize) -> usize
    requires { 0 < slots }
    ensures { result < slots }
{
    let salt = match key {
        Key::Component(_) => 0,
        Key::Beginning(..) => 0x5555_5555,
        Key::Ending(..) => 0xAAAA_AAAA,
        Key::Extension(..) => 0xFFFF_FFFF,
    };
    slot_of(key.hash() ^ salt, slots)
}

/// What it costs to look each text up by this key, measured in patterns asked. A text is looked up once for each length
/// of beginnings or endings that occurs.
fn cost_of(key: Key) -> u8 {
    match key {
        Key::Component(_) => 0,
        Key::Extension(..) => 1,
        Key::Beginning(..) | Key::Ending(..) => 16,
    }
}
