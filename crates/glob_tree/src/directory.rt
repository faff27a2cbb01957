//! The names of an opened directory.
ghost use Rattle.std.specs.Prelude.{◌≡◌, ◌+◌, ◌<◌, length, map, vec_len, None, IfOk, IfErr, OnOk, IfSome, IsSome};
ghost use Rattle.glob_tree.specs.Directories.{HasEnded, ReadToEndMayFail, names_in as names_of_bytes};
ghost use Rattle.glob_tree.specs.Private.Gathering.{Gathers};

use crate::name::names_entry;
use crate::system::Directory;
use crate::tree::ListError;
use std::alloc::{AllocError, Allocator};

/// The size in bytes of the first two reads of a directory. About a hundred names fit. Each listing zeroes the block,
/// so for a small directory a larger one would cost more than it saves in system calls.
const BLOCK: usize = 4096;

/// The size in bytes of all further reads. Their block is allocated, since the stack may be small.
const LARGE_BLOCK: usize = 32768;

/// Reads an opened directory to its end, and returns its bytes: its names, each followed by a NUL, such as
/// `a\0..\0b\0`. Most directories take two reads: one that returns all names, and one that returns nothing.
///
/// The error is `Read` with the error of the read that failed, or `Memory` if an allocation failed, here or in the
/// system. A failed read never counts as the end: what was read before it is dropped.
pub fn read_directory<D: Directory, A: Allocator + Copy>(
    alloc: A,
    directory: &mut D,
) -> Result<Vec<u8, A>, ListError>
    ensures bytes { IfOk result (λ read. IfSome (D.left directory.old)
        (λ bytes. read.items ≡ bytes)) }
    ensures end { OnOk result (HasEnded (D.left directory.new) (D.fault directory.new)) }
    ensures whole { IsSome (D.left directory.old)
        → OnOk result (D.fault directory.old ≡ None) }
    ensures fails { IsSome (D.left directory.old)
        → IfErr result (λ e. ReadToEndMayFail (D.fault directory.old) e) }
{
    let mut bytes = Vec::new(alloc);
    let mut block = [0; BLOCK];
    for _ in 0..2 {
        if read_block(directory, &mut block, &mut bytes)? == 0 {
            return Ok(bytes);
        }
    }
    read_rest(directory, &mut bytes)?;
    Ok(bytes)
}

/// Appends all that is left of the directory.
fn read_rest<D: Directory, A: Allocator + Copy>(
    directory: &mut D,
    bytes: &mut Vec<u8, A>,
) -> Result<(), ListError>
    ensures bytes { OnOk result (Gathers (D.left directory.old) (D.left directory.new)
        bytes.old.items bytes.new.items) }
    ensures end { OnOk result (HasEnded (D.left directory.new) (D.fault directory.new)) }
    ensures whole { IsSome (D.left directory.old)
        → OnOk result (D.fault directory.old ≡ None) }
    ensures fails { IsSome (D.left directory.old)
        → IfErr result (λ e. ReadToEndMayFail (D.fault directory.old) e) }
{
    let mut block = zeros(*bytes.allocator(), LARGE_BLOCK)?;
    while read_block(directory, block.as_mut_slice(), bytes)? > 0 {}
    Ok(())
}

/// A block of this many zeros.
fn zeros<A: Allocator>(alloc: A, len: usize) -> Result<Vec<u8, A>, AllocError>
    ensures { IfOk result (λ block. vec_len block ≡ len) }
{
    vec![in alloc; 0; len]
}

/// Appends what one read returns, and returns the number of bytes: 0 if the directory has ended.
fn read_block<D: Directory, A: Allocator>(
    directory: &mut D,
    block: &mut [u8],
    bytes: &mut Vec<u8, A>,
) -> Result<usize, ListError>
    requires { 0 < length block.old }
    ensures bytes { OnOk result (Gathers (D.left directory.old) (D.left directory.new)
        bytes.old.items bytes.new.items) }
    ensures count { IfOk result (λ n. vec_len bytes.new ≡ vec_len bytes.old + n) }
    ensures end { IfOk result (λ n. n ≡ 0
        → HasEnded (D.left directory.new) (D.fault directory.new)) }
    ensures known { OnOk result (IsSome (D.left directory.old) → IsSome (D.left directory.new)) }
    ensures kept { D.fault directory.new ≡ D.fault directory.old }
    ensures fails { IsSome (D.left directory.old)
        → IfErr result (λ e. ReadToEndMayFail (D.fault directory.old) e) }
{
    let count = directory.read(block)?;
    bytes.extend_from_slice(&block[..count])?;
    Ok(count)
}

/// The names of the entries in the bytes of a directory, in order and without `.` and `..`: `a` and `b` for
/// `a\0..\0b\0`. The error is an allocation failure.
pub fn names_in<A: Allocator>(alloc: A, bytes: &[u8]) -> Result<Vec<&[u8], A>, AllocError>
    ensures { IfOk result (λ names. map (λ name. name.now) names.items
        ≡ names_of_bytes bytes.now) }
{
    bytes
        .split(|&byte| byte == 0)
        .filter(|name| names_entry(name))
        .collect(alloc)
}
