ghost use Rattle.std.specs.Prelude.{◌≡◌, ◌≤◌, ◌++◌, [], length, map};
ghost use Rattle.std.specs.Char.{to_ascii_lowercase};

use arrayvec::ArrayVec;
use std::marker::Model;

/// How many bytes a name has at most.
pub const LONGEST_NAME: usize = 31;

/// A name as it was spelt.
#[derive(Drop)]
pub struct Name {
    bytes: ArrayVec<u8, 31>,
}

impl Model for Name {
    ghost use Rattle.std.specs.Prelude.{List, ℕ, length, ◌≤◌};

    ghost Value = { List ℕ };

    ghost view = { λ n. n.bytes.items };

    ghost invariant = { λ n. length n.bytes.items ≤ 31 };
}

/// A name with its ASCII letters in lower case, by which words are found.
pub(crate) type Key = ArrayVec<u8, 31>;

/// The key of a name.
pub(crate) fn key_of(name: &[u8]) -> Key
    requires { length name.now ≤ 31 }
    ensures { result.items ≡ map to_ascii_lowercase name.now }
{
    let mut key = ArrayVec::new();
    for byte in name {
        key.push(byte.to_ascii_lowercase());
    }
    key
}

impl Name {
    /// A name of these bytes, of which there are 31 at most.
    pub fn spelt(text: &[u8]) -> Name
        requires { length text.now ≤ 31 }
        ensures { result ≡ text.now }
    {
        let mut bytes = ArrayVec::new();
        for byte in text {
            bytes.push(*byte);
        }
        Name { bytes }
    }

    /// The bytes of the name.
    #[inline]
    pub fn as_bytes(&self) -> &[u8]
        ensures value { result.now ≡ self.now }
        ensures fits { length result.now ≤ 31 }
    {
        self.bytes.as_slice()
    }
}
