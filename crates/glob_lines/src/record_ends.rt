//! Finds the first end of a record, sixteen bytes at a time.
ghost use Rattle.std.specs.Prelude.{◌≡◌, ◌+◌, ◌≤◌, ◌==◌, length, position, take, drop};
ghost use Rattle.std.specs.List.{position_or_len};

use std::simd::prelude::*;

/// How many bytes are searched at once.
const LANES: usize = 16;

/// The offset of the first byte `end`.
pub fn first_end(bytes: &[u8], end: u8) -> Option<usize>
    ensures { result ≡ position (λ b. b == end) bytes.now }
{
    let mut start = 0;
    while bytes.len() - start >= LANES {
        let before = before_end(bytes, start, end);
        if before < LANES {
            return Some(start + before);
        }
        start += LANES;
    }
    let rest = first_end_by_one(&bytes[start..], end)?;
    Some(start + rest)
}

/// How many of the sixteen bytes from `start` on come before the first `end` among them; sixteen if there is none.
#[inline(always)]
fn before_end(bytes: &[u8], start: usize, end: u8) -> usize
    requires { start + 16 ≤ length bytes.now }
    ensures { result ≡ position_or_len (λ b. b == end) (take 16 (drop start bytes.now)) }
{
    let ends = u8x16::from_slice(&bytes[start..])
        .simd_eq(u8x16::splat(end))
        .to_bitmask();
    if ends == 0 {
        LANES
    } else {
        ends.trailing_zeros() as usize
    }
}

/// As [`first_end`], but a byte at a time.
fn first_end_by_one(bytes: &[u8], end: u8) -> Option<usize>
    ensures { result ≡ position (λ b. b == end) bytes.now }
{
    bytes.iter().position(|b| *b == end)
}
