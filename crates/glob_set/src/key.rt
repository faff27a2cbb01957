//! Keys, by which a text finds the few patterns that may match it.
ghost use Rattle.std.specs.Prelude.{◌≡◌, ◌↔◌, IfSome, IsTrue};
ghost use Rattle.glob_set.specs.Private.Keys.{AreKinds, HasKind, HasLength, KeepsKinds, hash_of, length_bit};

/// Something that all texts matched by a pattern have.
#[derive(Clone, Copy)]
pub enum Key {
    /// A component with this hash.
    Component(u32),
    /// A component that begins with this many bytes, with this hash.
    Beginning(u32, u8),
    /// An ending of the text, of this many bytes, with this hash when read backwards.
    Ending(u32, u8),
    /// Such an ending right after a `.`.
    Extension(u32, u8),
}

impl Key {
    /// The hash.
    #[inline(always)]
    pub fn hash(self) -> u32
        ensures { result ≡ hash_of self }
    {
        match self {
            Key::Component(hash) => hash,
            Key::Beginning(hash, _) => hash,
            Key::Ending(hash, _) => hash,
            Key::Extension(hash, _) => hash,
        }
    }
}

/// Which kinds of keys occur.
#[derive(Clone, Copy)]
pub struct Kinds {
    /// Whether components or beginnings of components occur.
    pub components: bool,
    /// The lengths of the beginnings in bytes, one bit each.
    pub beginnings: u64,
    /// The lengths of the endings in bytes, one bit each.
    pub endings: u64,
    /// The length of the longest ending or extension, in bytes.
    pub longest: u8,
}

impl Kinds {
    /// Adds the kind of a key, if there is a key.
    #[tactic(auto, using(crate::proofs::KindLemmas::length_added))]
    fn add(&mut self, key: Option<Key>)
        ensures own { IfSome key (HasKind self.new) }
        ensures kept { KeepsKinds self.old self.new }
    {
        match key {
            Some(Key::Component(_)) => self.components = true,
            Some(Key::Beginning(_, len)) => {
                self.components = true;
                self.beginnings |= length_bit(len);
            }
            Some(Key::Ending(_, len)) => {
                self.endings |= length_bit(len);
                self.longest = self.longest.max(len);
            }
            Some(Key::Extension(_, len)) => self.longest = self.longest.max(len),
            None => {}
        }
    }
}

/// The kinds of the keys.
pub fn kinds_of(keys: &[Option<Key>]) -> Kinds
    ensures { AreKinds keys.now result }
{
    let mut kinds = Kinds {
        components: false,
        beginnings: 0,
        endings: 0,
        longest: 0,
    };
    for key in keys {
        kinds.add(*key);
    }
    kinds
}

/// The bit of a length in bytes. Lengths from 64 on share the bits of shorter ones, and texts are then looked up by
/// both.
#[inline(always)]
fn length_bit(len: u8) -> u64
    ensures { result ≡ length_bit len }
{
    1 << (len % 64)
}

/// Whether the bit of this length is among these.
#[inline(always)]
pub fn has_length(lengths: u64, len: u8) -> bool
    ensures { IsTrue result ↔ HasLength lengths len }
{
    lengths | length_bit(len) == lengths
}
