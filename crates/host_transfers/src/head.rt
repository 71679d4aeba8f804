ghost use Rattle.std.specs.Prelude.{◌≡◌, ◌<◌, ◌≤◌, ◌++◌, ◌∷◌, [], length, take};
ghost use Rattle.tmc_wire.specs.Standard.{header_size};

use std::marker::Model;
use tmc_wire::BULK_HEADER;

/// The bytes of a header, as far as they came. It takes no memory.
#[derive(Drop)]
pub(crate) struct Head {
    bytes: [u8; BULK_HEADER],
    len: usize,
}

impl Model for Head {
    ghost use Rattle.std.specs.Prelude.{ℕ, List, take, ◌≤◌};
    ghost use Rattle.tmc_wire.specs.Standard.{header_size};

    ghost Value = { List ℕ };

    ghost view = { λ a. take a.len a.bytes };

    ghost invariant = { λ a. a.len ≤ header_size };
}

impl Head {
    /// No bytes.
    pub(crate) fn new() -> Head
        ensures { result ≡ [] }
    {
        Head {
            bytes: [0; BULK_HEADER],
            len: 0,
        }
    }

    /// Adds the first of these bytes, as far as the header wants them.
    pub(crate) fn fill(&mut self, bytes: &[u8])
        ensures { self.new ≡ take header_size (self.old ++ bytes.now) }
    {
        let wanted = BULK_HEADER - self.as_slice().len();
        for byte in &bytes[..wanted.min(bytes.len())] {
            self.push(*byte);
        }
    }

    pub(crate) fn as_slice(&self) -> &[u8]
        ensures items { result.now ≡ self.now }
        ensures most { length result.now ≤ header_size }
    {
        &self.bytes[..self.len]
    }

    fn push(&mut self, byte: u8)
        requires { length self.old < header_size }
        ensures { self.new ≡ self.old ++ byte ∷ [] }
    {
        self.bytes[self.len] = byte;
        self.len += 1;
    }
}
