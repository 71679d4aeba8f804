ghost use Rattle.std.specs.Prelude.{◌≡◌, ◌↔◌, IsTrue, [], length, IfOk};

use crate::Memory;
use std::alloc::Global;
use std::marker::Model;

/// Bytes in a field of a public type, which contracts see as a list.
#[derive(Drop, Debug)]
pub struct Octets {
    items: Vec<u8>,
}

impl Model for Octets {
    ghost use Rattle.std.specs.Prelude.{ℕ, List};

    ghost Value = { List ℕ };

    ghost view = { λ a. a.items.items };
}

impl Octets {
    /// No bytes. Takes no memory.
    pub fn new(alloc: Global) -> Octets
        ensures { result ≡ [] }
    {
        Octets {
            items: Vec::new(alloc),
        }
    }

    /// A copy of these bytes.
    pub fn from_slice(alloc: Global, bytes: &[u8]) -> Result<Octets, Memory>
        ensures { IfOk result (λ octets. octets ≡ bytes.now) }
    {
        Ok(Octets {
            items: Vec::from_slice(alloc, bytes)?,
        })
    }

    /// The bytes as a `Vec`. Takes no memory.
    pub fn into_vec(self) -> Vec<u8>
        ensures { result.items ≡ self }
    {
        self.items
    }

    pub fn as_slice(&self) -> &[u8]
        ensures { result.now ≡ self.now }
    {
        self.items.as_slice()
    }

    pub fn len(&self) -> usize
        ensures { result ≡ length self.now }
    {
        self.items.len()
    }

    pub fn is_empty(&self) -> bool
        ensures { IsTrue result ↔ (self.now ≡ []) }
    {
        self.items.is_empty()
    }
}

impl From<Vec<u8>> for Octets {
    ghost from_gives = { λ items octets. octets ≡ items.items };

    /// Takes no memory.
    fn from(items: Vec<u8>) -> Octets {
        Octets { items }
    }
}
