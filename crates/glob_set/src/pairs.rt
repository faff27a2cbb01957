//! Pairs of neighbouring bytes, as bits of one word.
ghost use Rattle.std.specs.Prelude.{◌≡◌, ◌<◌};
ghost use Rattle.glob_set.specs.Private.Pairs.{pair_class, class_bit, text_bits, text_class};

/// What all texts matched by a pattern have.
#[derive(Clone, Copy)]
pub struct Need {
    /// The bits of neighbouring bytes.
    pub bits: u128,
    /// The class of the last two bytes, if the pattern ends in two ASCII literals or is a single one.
    pub class: Option<u8>,
}

/// The class of two neighbouring bytes, below 128. `.o` and `.O` have the same.
#[inline(always)]
pub fn pair_class(a: u8, b: u8) -> u8
    ensures class { result ≡ pair_class a b }
    ensures small { result < 128 }
{
    ((u32::from(a % 32) * 13 + u32::from(b % 32) * 3) % 128) as u8
}

/// The bit that a class has in a word.
#[inline(always)]
pub fn class_bit(class: u8) -> u128
    requires { class < 128 }
    ensures { result ≡ class_bit class }
{
    1 << class
}

/// The class of a text's last two bytes, as if a byte 0 preceded the text.
#[inline(always)]
pub fn text_class(bytes: &[u8]) -> u8
    ensures class { result ≡ text_class bytes.now }
    ensures small { result < 128 }
{
    match bytes {
        [] => 0,
        [last] => pair_class(0, *last),
        [.., before, last] => pair_class(*before, *last),
    }
}

/// The bits of all neighbouring bytes of a text, as if a byte 0 preceded it.
#[inline(always)]
pub fn text_bits(bytes: &[u8]) -> u128
    ensures { result ≡ text_bits bytes.now }
{
    let mut bits = 0;
    let mut last = 0;
    for byte in bytes {
        bits |= class_bit(pair_class(last, *byte));
        last = *byte;
    }
    bits
}
