ghost use Rattle.std.specs.Prelude.{◌≡◌, ℕ, ◌<◌, ◌≤◌, ◌++◌, ◌∷◌, [], length};
ghost use Rattle.usbip_wire.specs.declared.dirs.TheConstants.{DIRS_MAX};
ghost use Rattle.usbip_wire.specs.Awaited.{entries_of};
ghost use Rattle.host_urbs.specs.Entries.{AreKept, sent, moved, others, target_of, unlinked};

use crate::entry::{Entry, Unanswered};
use std::marker::Model;
use usbip_wire::{DIRS_MAX, Dirs};

/// The messages that are not answered yet, in the order in which they were written. It takes no memory.
#[derive(Drop)]
pub(crate) struct Entries {
    entries: [Entry; DIRS_MAX],
    len: usize,
}

impl Model for Entries {
    ghost use Rattle.std.specs.Prelude.{List, take, ◌≤◌};
    ghost use Rattle.host_urbs.specs.declared.entry.Entry.{Entry};
    ghost use Rattle.usbip_wire.specs.declared.dirs.TheConstants.{DIRS_MAX};

    ghost Value = { List Entry };

    ghost view = { λ a. take a.len a.entries };

    ghost invariant = { λ a. a.len ≤ DIRS_MAX };
}

impl Entries {
    /// No entries.
    pub(crate) fn new() -> Entries
        ensures { result ≡ [] }
    {
        let none = Entry {
            message: Unanswered::Unlink {
                seqnum: 0,
                target: 0,
            },
            unsent: 0,
        };
        Entries {
            entries: [none; DIRS_MAX],
            len: 0,
        }
    }

    /// Adds an entry behind the others.
    pub(crate) fn push(&mut self, entry: Entry)
        requires { length self.old < DIRS_MAX }
        ensures { self.new ≡ self.old ++ entry ∷ [] }
    {
        self.entries[self.len] = entry;
        self.len += 1;
    }

    /// Takes the entry of this number out.
    pub(crate) fn remove(&mut self, seqnum: u32)
        ensures { self.new ≡ others seqnum self.old }
    {
        let mut kept = Entries::new();
        for entry in self.as_slice() {
            if entry.message.seqnum() != seqnum {
                kept.push(*entry);
            }
        }
        *self = kept;
    }

    /// Takes the unlink of this number out, and the submit that it names.
    pub(crate) fn remove_unlinked(&mut self, seqnum: u32)
        ensures { self.new ≡ unlinked seqnum self.old }
    {
        let target = self.target(seqnum);
        self.remove(seqnum);
        if let Some(target) = target {
            self.remove(target);
        }
    }

    /// The submit that the unlink of this number names.
    fn target(&self, seqnum: u32) -> Option<u32>
        ensures { result ≡ target_of seqnum self.now }
    {
        for entry in self.as_slice() {
            if entry.message.seqnum() == seqnum {
                return entry.message.target();
            }
        }
        None
    }

    /// Notes that `n` more bytes were sent.
    pub(crate) fn moved(&mut self, n: usize)
        ensures { self.new ≡ moved n self.old }
    {
        let mut moved = Entries::new();
        for entry in self.as_slice() {
            moved.push(Entry {
                message: entry.message,
                unsent: entry.unsent.saturating_sub(n),
            });
        }
        *self = moved;
    }

    /// Those whose bytes were all sent.
    pub(crate) fn sent(&self) -> Dirs
        requires { (next : ℕ) × AreKept next self.now }
        ensures { result ≡ entries_of (sent self.now) }
    {
        let mut dirs = Dirs::new();
        for entry in self.as_slice() {
            if entry.unsent == 0 {
                entry.message.add_to(&mut dirs);
            }
        }
        dirs
    }

    fn as_slice(&self) -> &[Entry]
        ensures items { result.now ≡ self.now }
        ensures most { length result.now ≤ DIRS_MAX }
    {
        &self.entries[..self.len]
    }
}
