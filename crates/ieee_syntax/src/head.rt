ghost use Rattle.std.specs.Prelude.{◌≡◌, ◌++◌, ◌∷◌, [], ◌<◌, length};

use std::marker::Model;

/// The most bytes of a name, a `*` before it not counted.
pub(crate) const NAME_MOST: usize = 12;

/// The most bytes of a head: a `*`, and a name.
pub(crate) const HEAD_MOST: usize = 13;

/// The name of a program header, at most 13 bytes with a leading `*`, in upper case (IEEE 488.2, 7.6.1).
/// Contracts see it as a list of bytes.
#[derive(Debug, Drop)]
pub struct Head {
    bytes: [u8; HEAD_MOST],
    len: usize,
}

impl Model for Head {
    ghost use Rattle.std.specs.Prelude.{ℕ, List, ◌≤◌, take};

    ghost Value = { List ℕ };

    ghost view = { λ h. take h.len h.bytes };

    ghost invariant = { λ h. h.len ≤ 13 };
}

impl Head {
    /// A head with no bytes yet.
    pub(crate) fn new() -> Head
        ensures { result ≡ [] }
    {
        Head {
            bytes: [0; HEAD_MOST],
            len: 0,
        }
    }

    /// One more byte at the end.
    pub(crate) fn push(&mut self, byte: u8)
        requires { length self.old < HEAD_MOST }
        ensures { self.new ≡ self.old ++ byte ∷ [] }
    {
        self.bytes[self.len] = byte;
        self.len += 1;
    }

    /// How many bytes there are.
    pub(crate) fn len(&self) -> usize
        ensures { result ≡ length self.now }
    {
        self.len
    }

    /// The bytes of the name, from 1 to 13 in what `units` answers.
    pub fn as_bytes(&self) -> &[u8]
        ensures { result.now ≡ self.now }
    {
        &self.bytes[..self.len]
    }
}
