ghost use Rattle.std.specs.Prelude.{◌≡◌, ◌-◌, ◌≤◌, ◌++◌, [], true, length};

use std::alloc::Global;
use std::marker::Model;

/// Bytes that were taken, with room for so many more.
#[derive(Drop)]
pub(crate) struct Tape {
    bytes: Vec<u8>,
    room: usize,
}

impl Model for Tape {
    ghost use Rattle.std.specs.Prelude.{◌+◌, ◌≤◌, vec_capacity, length};
    ghost use Rattle.tmc_world.specs.Crossing.{Taped};

    ghost Value = { Taped };

    ghost view = { λ a. record { bytes = a.bytes.items; room = a.room } };

    ghost invariant = { λ a. length a.bytes.items + a.room ≤ vec_capacity a.bytes };
}

impl Tape {
    /// Nothing was taken. Takes no memory.
    pub(crate) fn new(alloc: Global) -> Tape
        ensures { result ≡ record { bytes = []; room = 0 } }
    {
        Tape {
            bytes: Vec::new(alloc),
            room: 0,
        }
    }

    pub(crate) fn as_slice(&self) -> &[u8]
        ensures { result.now ≡ self.now.bytes }
    {
        self.bytes.as_slice()
    }

    /// Makes room for so many bytes. False where memory is wanting.
    pub(crate) fn reserve(&mut self, count: usize) -> bool
        ensures bytes { self.new.bytes ≡ self.old.bytes }
        ensures room { result ≡ true → self.new.room ≡ count }
    {
        self.room = 0;
        if self.bytes.reserve(count).is_err() {
            return false;
        }
        self.room = count;
        true
    }

    /// These bytes are taken. Takes no memory.
    pub(crate) fn push(&mut self, bytes: &[u8])
        requires { length bytes.now ≤ self.old.room }
        ensures { self.new ≡ record { bytes = self.old.bytes ++ bytes.now; room = self.old.room - length bytes.now } }
    {
        match self.bytes.extend_from_slice(bytes) {
            Ok(()) => self.room -= bytes.len(),
            Err(_) => unreachable!(),
        }
    }
}
