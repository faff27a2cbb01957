//! Writes answers to the buffers of the page.
ghost use Rattle.std.specs.Prelude.{◌≡◌, ◌<◌, ◌≤◌, true, false, length, take};

pub(crate) const NO: u32 = 0;

pub(crate) const YES: u32 = 1;

pub(crate) const FAULT: u32 = 2;

pub(crate) const OUT_OF_MEMORY: u32 = 3;

pub(crate) const NOT_UTF8: u32 = 4;

pub(crate) const TOO_LARGE: u32 = 5;

pub(crate) const NO_PATH: u32 = 6;

/// Writes the bytes to the start of `out`, unless they do not fit, and their number to `count`. Returns whether they
/// fit.
pub(crate) fn write(bytes: &[u8], out: &mut [u8], count: &mut usize) -> bool
    ensures count { count.new ≡ length bytes.now }
    ensures written { result ≡ true → take count.new out.new ≡ bytes.now }
    ensures fits { result ≡ true → count.new ≤ length out.old }
    ensures short { result ≡ false → length out.old < count.new }
{
    *count = bytes.len();
    if out.len() < bytes.len() {
        return false;
    }
    out[..bytes.len()].copy_from_slice(bytes);
    true
}

/// The same for numbers.
pub(crate) fn write_numbers(numbers: &[usize], out: &mut [usize], count: &mut usize) -> bool
    ensures count { count.new ≡ length numbers.now }
    ensures written { result ≡ true → take count.new out.new ≡ numbers.now }
    ensures fits { result ≡ true → count.new ≤ length out.old }
    ensures short { result ≡ false → length out.old < count.new }
{
    *count = numbers.len();
    if out.len() < numbers.len() {
        return false;
    }
    out[..numbers.len()].copy_from_slice(numbers);
    true
}
