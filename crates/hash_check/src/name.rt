// A name with its key.

ghost use Rattle.std.specs.Prelude.{◌≡◌, ◌↔◌, IsTrue};
ghost use Rattle.hash_check.specs.inside.Key.{key_of};

use crate::key::key_of;
use std::marker::Model;

/// The bytes of a name with their key. In contracts, the value is the bytes.
#[derive(Drop)]
pub(crate) struct Name<'a> {
    key: u64,
    bytes: &'a [u8],
}

impl<'a> Model for Name<'a> {
    ghost use Rattle.std.specs.Prelude.{List, ℕ, ◌≡◌};
    ghost use Rattle.hash_check.specs.inside.Key.{key_of};

    ghost Value = { List ℕ };

    ghost view = { λ n. n.bytes.now };

    ghost invariant = { λ n. n.key ≡ key_of n.bytes.now };
}

impl<'a> Name<'a> {
    /// Returns the name whose bytes are `bytes`.
    pub(crate) fn new(bytes: &'a [u8]) -> Name<'a>
        ensures { result ≡ bytes.now }
    {
        Name {
            key: key_of(bytes),
            bytes,
        }
    }

    /// The bytes of the name.
    pub(crate) fn bytes(&self) -> &'a [u8]
        ensures { result.now ≡ self.now }
    {
        self.bytes
    }

    /// The key of the name.
    pub(crate) fn key(&self) -> u64
        ensures { result ≡ key_of self.now }
    {
        self.key
    }

    /// Returns whether `other` has the same bytes. Compares the bytes only if both names have the
    /// same key.
    pub(crate) fn is(&self, other: &Name<'_>) -> bool
        ensures { IsTrue result ↔ (self.now ≡ other.now) }
    {
        self.key == other.key && self.bytes == other.bytes
    }
}
