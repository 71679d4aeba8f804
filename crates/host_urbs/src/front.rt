ghost use Rattle.std.specs.Prelude.{◌≡◌, ◌↔◌, IsTrue, ◌<◌, ◌≤◌, ◌++◌, ◌∷◌, [], length, take};
ghost use Rattle.host_urbs.specs.Attach.{list_head};

use std::marker::Model;

/// The version and the code with which a device list begins.
const LIST_HEAD: [u8; 4] = [0x01, 0x11, 0x00, 0x05];

/// The first four bytes of an operation's answer, its version and its code, as far as they came.
#[derive(Drop)]
pub(crate) struct Front {
    bytes: [u8; 4],
    len: usize,
}

impl Model for Front {
    ghost use Rattle.std.specs.Prelude.{ℕ, List, take, ◌≤◌};

    ghost Value = { List ℕ };

    ghost view = { λ a. take a.len a.bytes };

    ghost invariant = { λ a. a.len ≤ 4 };
}

impl Front {
    /// No bytes.
    pub(crate) fn new() -> Front
        ensures { result ≡ [] }
    {
        Front {
            bytes: [0; 4],
            len: 0,
        }
    }

    /// The next byte came.
    pub(crate) fn note(&mut self, byte: u8)
        ensures { self.new ≡ take 4 (self.old ++ byte ∷ []) }
    {
        if self.as_slice().len() < 4 {
            self.push(byte);
        }
    }

    /// Whether a device list begins so.
    pub(crate) fn is_list(&self) -> bool
        ensures { IsTrue result ↔ (self.now ≡ list_head) }
    {
        self.as_slice() == LIST_HEAD.as_slice()
    }

    fn as_slice(&self) -> &[u8]
        ensures items { result.now ≡ self.now }
        ensures most { length result.now ≤ 4 }
    {
        &self.bytes[..self.len]
    }

    fn push(&mut self, byte: u8)
        requires { length self.old < 4 }
        ensures { self.new ≡ self.old ++ byte ∷ [] }
    {
        self.bytes[self.len] = byte;
        self.len += 1;
    }
}
