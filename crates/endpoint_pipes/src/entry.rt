ghost use Rattle.std.specs.Prelude.{◌≡◌, ◌-◌, ◌≤◌, length, take, drop, IfOk};
ghost use Rattle.usbip_wire.specs.declared.urb.Dir.TheVariants.{In};
ghost use Rattle.usbip_wire.specs.Submit.{Carries};
ghost use Rattle.tmc_law.specs.State.{arrived};
ghost use Rattle.tmc_law.specs.Packets.{moved_on, filled_by};
ghost use Rattle.endpoint_pipes.specs.Kept.{submit_of, IsWhole};
ghost use Rattle.endpoint_pipes.specs.Outcome.{Ends};

use crate::outcome::{Over, Pending};
use std::alloc::Global;
use tmc_base::Memory;
use usbip_wire::{Dir, SubmitHead};

/// A submit that is kept. `bytes` is the data of an OUT submit, of which the first `index` bytes were taken; of an IN submit
/// it is what was given, all `index` bytes of it, with memory for the rest.
#[derive(Drop)]
pub(crate) struct Entry {
    pub(crate) head: SubmitHead,
    pub(crate) bytes: Vec<u8>,
    pub(crate) index: usize,
}

impl Entry {
    /// A submit as it came, with the memory that its answer will need.
    pub(crate) fn new(alloc: Global, head: SubmitHead, bytes: &[u8]) -> Result<Entry, Memory>
        requires { Carries head.dir head.length bytes.now }
        ensures submit { IfOk result (λ entry. submit_of entry ≡ arrived head bytes.now) }
        ensures whole { IfOk result (λ entry. IsWhole entry) }
    {
        let bytes = match head.dir {
            Dir::Out => Vec::from_slice(alloc, bytes)?,
            Dir::In => Vec::with_capacity(alloc, head.length as usize)?,
        };
        Ok(Entry {
            head,
            bytes,
            index: 0,
        })
    }

    /// The next `n` bytes are taken, or all that are left.
    pub(crate) fn pass(&mut self, n: usize)
        requires { IsWhole self.old }
        ensures submit { submit_of self.new ≡ moved_on (submit_of self.old) (take n (submit_of self.old).left) (drop n (submit_of self.old).left) }
        ensures whole { IsWhole self.new }
    {
        let left = self.bytes.len() - self.index;
        self.index += n.min(left);
    }

    /// A packet comes behind the bytes that were given.
    pub(crate) fn fill(&mut self, packet: &[u8])
        requires whole { IsWhole self.old }
        requires way { self.old.head.dir ≡ In }
        requires room { length packet.now ≤ self.old.head.length - length (submit_of self.old).moved }
        ensures submit { submit_of self.new ≡ filled_by (submit_of self.old) packet.now }
        ensures whole { IsWhole self.new }
    {
        match self.bytes.extend_from_slice(packet) {
            Ok(()) => (),
            Err(_) => unreachable!(),
        }
        self.index = self.bytes.len();
    }

    /// The submit, and how many bytes of it were moved.
    pub(crate) fn pending(&self) -> Pending
        requires { IsWhole self.now }
        ensures { result ≡ record { head = self.now.head; moved = length (submit_of self.now).moved } }
    {
        let _asked = self.head.length;
        Pending {
            head: self.head,
            moved: self.index as u32,
        }
    }

    /// The bytes that were not taken.
    pub(crate) fn left(&self) -> &[u8]
        requires { IsWhole self.now }
        ensures { result.now ≡ (submit_of self.now).left }
    {
        &self.bytes[self.index..]
    }

    /// What goes into its answer. The bytes of an IN submit are handed over, and those of an OUT submit are dropped.
    pub(crate) fn end(mut self) -> Over
        requires { IsWhole self }
        ensures { Ends (submit_of self) result }
    {
        match self.head.dir {
            Dir::Out => self.bytes.clear(),
            Dir::In => (),
        }
        Over {
            seqnum: self.head.seqnum,
            actual: self.index as u32,
            bytes: self.bytes,
        }
    }
}
