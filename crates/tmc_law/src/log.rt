ghost use Rattle.std.specs.Prelude.{◌≡◌, ◌-◌, ◌<◌, ◌++◌, [], ◌∷◌, OnOk};

use crate::LogEntry;
use std::alloc::Global;
use std::marker::Model;
use tmc_base::Memory;

/// The log of a device: what happened at its instrument, in order.
#[derive(Drop, Debug)]
pub struct Log {
    entries: Vec<LogEntry>,
    room: usize,
}

impl Model for Log {
    ghost use Rattle.std.specs.Prelude.{◌+◌, ◌≤◌, vec_capacity, length};
    ghost use Rattle.tmc_law.specs.Log.{Entries};

    ghost Value = { Entries };

    ghost view = { λ a. record { entries = a.entries.items; room = a.room } };

    ghost invariant = { λ a. length a.entries.items + a.room ≤ vec_capacity a.entries };
}

impl Log {
    /// The log of an instrument at power-on. Takes no memory.
    pub fn new(alloc: Global) -> Log
        ensures { result ≡ record { entries = []; room = 0 } }
    {
        Log {
            entries: Vec::new(alloc),
            room: 0,
        }
    }

    /// Makes room for one more entry.
    pub fn reserve(&mut self) -> Result<(), Memory>
        ensures entries { self.new.entries ≡ self.old.entries }
        ensures room { OnOk result (self.new.room ≡ 1) }
    {
        self.room = 0;
        self.entries.reserve(1)?;
        self.room = 1;
        Ok(())
    }

    /// Adds an entry. Takes no memory.
    pub fn push(&mut self, entry: LogEntry)
        requires { 0 < self.old.room }
        ensures { self.new ≡ record { entries = self.old.entries ++ entry ∷ []; room = self.old.room - 1 } }
    {
        match self.entries.push(entry) {
            Ok(()) => self.room -= 1,
            Err(_) => unreachable!(),
        }
    }

    pub fn entries(&self) -> &[LogEntry]
        ensures { result.now ≡ self.now.entries }
    {
        self.entries.as_slice()
    }
}
