ghost use Rattle.std.specs.Prelude.{◌≡◌, ◌≤◌, [], ◌∷◌, ◌++◌, length, None, is_some, true};
ghost use Rattle.tmc_base.specs.declared.limits.TheConstants.{SUBMIT_MAX};

use crate::urb::Dir;
use std::marker::Model;

/// The most submits and unlinks that may be outstanding at once.
pub const DIRS_MAX: usize = 16;

/// A message that was sent and is not answered yet.
#[derive(Clone, Copy, Debug, PartialEq, Eq)]
pub enum Outstanding {
    /// A submit of `length` bytes, which is at most `SUBMIT_MAX`.
    Submit { seqnum: u32, dir: Dir, length: u32 },
    /// An unlink.
    Unlink { seqnum: u32 },
}

impl Outstanding {
    ghost use Rattle.std.specs.Prelude.{◌≡◌};
    ghost use Rattle.usbip_wire.specs.Dirs.{number_of};

    /// Its sequence number.
    pub fn seqnum(&self) -> u32
        ensures { result ≡ number_of self.now }
    {
        match *self {
            Outstanding::Submit { seqnum, .. } => seqnum,
            Outstanding::Unlink { seqnum } => seqnum,
        }
    }
}

/// The outstanding submits and unlinks, in the order in which they were added. It takes no memory.
#[derive(Drop)]
pub struct Dirs {
    entries: [Outstanding; DIRS_MAX],
    len: usize,
}

impl Model for Dirs {
    ghost use Rattle.std.specs.Prelude.{List, take, ◌≤◌};
    ghost use Rattle.usbip_wire.specs.declared.dirs.Outstanding.{Outstanding};

    ghost Value = { List Outstanding };

    ghost use Rattle.usbip_wire.specs.Dirs.{AreShort};
    ghost use Rattle.usbip_wire.specs.declared.dirs.TheConstants.{DIRS_MAX};

    ghost view = { λ a. take a.len a.entries };

    ghost invariant = { λ a. (a.len ≤ DIRS_MAX) × AreShort (take a.len a.entries) };
}

impl Dirs {
    ghost use Rattle.usbip_wire.specs.declared.dirs.Outstanding.TheVariants.{Submit, Unlink};
    ghost use Rattle.usbip_wire.specs.Dirs.{HasRoom, IsShort, AreShort, find, others};

    /// No entries.
    pub fn new() -> Dirs
        ensures { result ≡ [] }
    {
        Dirs {
            entries: [Outstanding::Unlink { seqnum: 0 }; DIRS_MAX],
            len: 0,
        }
    }

    /// Adds a submit of `length` bytes.
    pub fn add_submit(&mut self, seqnum: u32, dir: Dir, length: u32)
        requires free { HasRoom self.old }
        requires new { find seqnum self.old ≡ None }
        requires short { length ≤ SUBMIT_MAX }
        ensures { self.new ≡ self.old ++ Submit seqnum dir length ∷ [] }
    {
        self.push(Outstanding::Submit {
            seqnum,
            dir,
            length,
        });
    }

    /// Adds an unlink.
    pub fn add_unlink(&mut self, seqnum: u32)
        requires free { HasRoom self.old }
        requires new { find seqnum self.old ≡ None }
        ensures { self.new ≡ self.old ++ Unlink seqnum ∷ [] }
    {
        self.push(Outstanding::Unlink { seqnum });
    }

    /// Takes the entry of this number out.
    pub fn remove(&mut self, seqnum: u32)
        requires { is_some (find seqnum self.old) ≡ true }
        ensures { self.new ≡ others seqnum self.old }
    {
        let mut kept = Dirs::new();
        for entry in self.as_slice() {
            if entry.seqnum() != seqnum {
                kept.push(*entry);
            }
        }
        *self = kept;
    }

    /// Whether the number is in the list.
    pub fn holds(&self, seqnum: u32) -> bool
        ensures { result ≡ is_some (find seqnum self.now) }
    {
        self.find(seqnum).is_some()
    }

    /// The number of entries.
    pub fn len(&self) -> usize
        ensures count { result ≡ length self.now }
        ensures most { result ≤ DIRS_MAX }
    {
        self.as_slice().len()
    }

    /// The entry of this number.
    pub(crate) fn find(&self, seqnum: u32) -> Option<Outstanding>
        ensures { result ≡ find seqnum self.now }
    {
        for entry in self.as_slice() {
            if entry.seqnum() == seqnum {
                return Some(*entry);
            }
        }
        None
    }

    /// What the list keeps.
    pub(crate) fn know(&self)
        ensures { AreShort self.now }
    {
        let _entries = self.as_slice();
    }

    fn as_slice(&self) -> &[Outstanding]
        ensures items { result.now ≡ self.now }
        ensures most { length result.now ≤ DIRS_MAX }
        ensures short { AreShort self.now }
    {
        &self.entries[..self.len]
    }

    fn push(&mut self, entry: Outstanding)
        requires free { HasRoom self.old }
        requires short { IsShort entry }
        ensures { self.new ≡ self.old ++ entry ∷ [] }
    {
        self.entries[self.len] = entry;
        self.len += 1;
    }
}
