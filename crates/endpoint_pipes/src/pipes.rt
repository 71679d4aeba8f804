ghost use Rattle.std.specs.Prelude.{◌≡◌, ◌+◌, ◌*◌, ◌<◌, ◌≤◌, ◌++◌, ◌∷◌, [], length, take, drop, true, false, IfOk, IfErr, IfSome, IfNone, IsSome, OnOk, OnErr, MatchBool};
ghost use Rattle.usbip_wire.specs.Submit.{Carries};
ghost use Rattle.tmc_law.specs.Endpoint.{BulkOut, packet_size};
ghost use Rattle.tmc_law.specs.State.{arrived, Avoids};
ghost use Rattle.tmc_law.specs.State as law;
ghost use Rattle.tmc_law.specs.BulkOut.{packets_of};
ghost use Rattle.tmc_law.specs.Queues.{pending_most};
ghost use Rattle.tmc_law.specs.Packets.{moved_on, filled_by};
ghost use Rattle.tmc_law.specs.Reached.{AreDistinct};
ghost use Rattle.endpoint_pipes.specs.Held.{endpoint_of, nothing_held, list_of, with_list, all_of, is_marked, with_mark, IsPending, AreUnpolled};
ghost use Rattle.endpoint_pipes.specs.Kept.{IsWhole, StandsAt, submit_of};
ghost use Rattle.endpoint_pipes.specs.Outcome.{IsFree, Refuses, Unlinks, first_of, left_of, HasRoom, Ends};

use crate::entry::Entry;
use crate::outcome::{Over, Pending, PipeFault, Unlinked};
use crate::queues::Queues;
use slab::Slab;
use std::alloc::Global;
use std::marker::Model;
use tmc_base::Memory;
use usbip_wire::SubmitHead;

/// The most pending submits.
const PENDING_MAX: usize = 256;

/// The bytes of a full packet of the bulk endpoints.
const PACKET_SIZE: usize = 64;

/// The number of the Bulk-OUT endpoint.
const BULK_OUT: u8 = 1;

/// The pending submits of the endpoints 0 to 3 with the bytes that were moved, and which endpoints are halted.
#[derive(Drop)]
pub struct Pipes {
    alloc: Global,
    slab: Slab<Entry>,
    queues: Queues,
    bulk_out_halted: bool,
    bulk_in_halted: bool,
    interrupt_in_halted: bool,
}

impl Model for Pipes {
    ghost use Rattle.endpoint_pipes.specs.Held.{Held};
    ghost use Rattle.endpoint_pipes.specs.Kept.{held_of, IsSound};

    ghost Value = { Held };

    ghost view = { λ a. held_of a.slab.slots a.queues
        (record { bulk_out = a.bulk_out_halted; bulk_in = a.bulk_in_halted; interrupt_in = a.interrupt_in_halted }) };

    ghost invariant = { λ a. IsSound a.slab.slots a.queues };
}

impl Pipes {
    /// Nothing is pending, and no endpoint is halted. Takes the memory of 256 places.
    pub fn new(alloc: Global) -> Result<Pipes, Memory>
        ensures { IfOk result (λ pipes. pipes ≡ nothing_held) }
    {
        Ok(Pipes {
            alloc,
            slab: Slab::with_capacity(alloc, PENDING_MAX)?,
            queues: Queues::with_room(alloc, PENDING_MAX)?,
            bulk_out_halted: false,
            bulk_in_halted: false,
            interrupt_in_halted: false,
        })
    }

    /// A submit arrives, and is the last one of its endpoint's queue. Takes the memory that its answer will need. Where it
    /// is refused, nothing has changed.
    pub fn submit(&mut self, head: SubmitHead, bytes: &[u8]) -> Result<(), PipeFault>
        requires endpoint { head.ep < 4 }
        requires carried { Carries head.dir head.length bytes.now }
        ensures free { OnOk result (IsFree self.old head.seqnum) }
        ensures queued { OnOk result
            (self.new ≡ with_list (endpoint_of head.ep) (list_of (endpoint_of head.ep) self.old ++ arrived head bytes.now ∷ []) self.old) }
        ensures refused { IfErr result (λ fault. Refuses self.old head.seqnum fault) }
        ensures err { OnErr result (self.new ≡ self.old) }
    {
        if self.len() as usize == PENDING_MAX {
            return Err(PipeFault::Full);
        }
        if self.holds(head.seqnum) {
            return Err(PipeFault::Twice);
        }
        let entry = Entry::new(self.alloc, head, bytes)?;
        self.put(head.ep as u8, entry)?;
        Ok(())
    }

    /// A submit comes behind the others of its endpoint.
    fn put(&mut self, ep: u8, entry: Entry) -> Result<(), Memory>
        requires whole { IsWhole entry }
        requires free { IsFree self.old entry.head.seqnum }
        ensures ok { OnOk result
            (self.new ≡ with_list (endpoint_of ep) (list_of (endpoint_of ep) self.old ++ submit_of entry ∷ []) self.old) }
        ensures err { OnErr result (self.new ≡ self.old) }
    {
        self.slab.reserve(1)?;
        self.queues.push(ep, self.slab.vacant_key())?;
        self.slab.insert_reserved(entry);
        Ok(())
    }

    /// The pending submit with this number leaves its queue.
    pub fn unlink(&mut self, target: u32) -> Unlinked
        ensures { Unlinks target self.old self.new result }
    {
        match self.locate(target) {
            Some((ep, place)) => {
                self.take_at(ep, place);
                Unlinked::Hit
            }
            None => Unlinked::Miss,
        }
    }

    /// The endpoint of the pending submit with this number, and its place there.
    fn locate(&self, seqnum: u32) -> Option<(u8, usize)>
        ensures found { IfSome result (λ at. StandsAt seqnum (list_of (endpoint_of at.0) self.now) at.1) }
        ensures absent { IfNone result (Avoids seqnum (all_of self.now)) }
    {
        for ep in 0..4 {
            if let Some(place) = self.find(ep, seqnum) {
                return Some((ep, place));
            }
        }
        None
    }

    /// The place of this number in an endpoint's queue.
    fn find(&self, ep: u8, seqnum: u32) -> Option<usize>
        ensures found { IfSome result (λ place. StandsAt seqnum (list_of (endpoint_of ep) self.now) place) }
        ensures absent { IfNone result (Avoids seqnum (list_of (endpoint_of ep) self.now)) }
    {
        for place in 0..self.queues.len_at(ep) {
            if let Some(entry) = self.slab.get(self.queues.key(ep, place)) {
                if entry.head.seqnum == seqnum {
                    return Some(place);
                }
            }
        }
        None
    }

    /// The submit at this place of an endpoint's queue leaves it.
    fn take_at(&mut self, ep: u8, place: usize) -> Entry
        requires { place < length (list_of (endpoint_of ep) self.old) }
        ensures whole { IsWhole result }
        ensures taken { (before : _) (submit : law.Pending) (behind : _) → list_of (endpoint_of ep) self.old ≡ before ++ submit ∷ behind →
            length before ≡ place → submit_of result ≡ submit }
        ensures left { (before : _) (submit : law.Pending) (behind : _) → list_of (endpoint_of ep) self.old ≡ before ++ submit ∷ behind →
            length before ≡ place → self.new ≡ with_list (endpoint_of ep) (before ++ behind) self.old }
        ensures gone { Avoids result.head.seqnum (all_of self.new) }
    {
        let key = self.queues.key(ep, place);
        self.queues.remove(ep, place);
        self.slab.remove(key)
    }

    /// The first pending submit of an endpoint.
    pub fn first(&self, ep: u8) -> Option<Pending>
        requires { ep < 4 }
        ensures { result ≡ first_of (list_of (endpoint_of ep) self.now) }
    {
        let entry = self.first_entry(ep)?;
        Some(entry.pending())
    }

    /// The bytes of the first Bulk-OUT submit that were not taken.
    pub fn rest_out(&self) -> &[u8]
        ensures { result.now ≡ left_of self.now.bulk_out }
    {
        match self.first_entry(BULK_OUT) {
            Some(entry) => entry.left(),
            None => &[],
        }
    }

    /// The next packets of the first Bulk-OUT submit are taken.
    pub fn take_out(&mut self, packets: u32)
        requires some { 1 ≤ packets }
        requires there { IsSome (first_of self.old.bulk_out) }
        requires left { packets ≤ packets_of (length (left_of self.old.bulk_out)) }
        ensures { (submit : law.Pending) (behind : _) → self.old.bulk_out ≡ submit ∷ behind →
            self.new ≡ record self.old {
              bulk_out = moved_on submit (take (packets * packet_size) submit.left) (drop (packets * packet_size) submit.left) ∷ behind;
            } }
    {
        let key = self.queues.key(BULK_OUT, 0);
        self.slab[key].pass(packets as usize * PACKET_SIZE);
    }

    /// A packet goes into the first submit of an endpoint.
    pub fn give_in(&mut self, ep: u8, packet: &[u8])
        requires endpoint { ep < 4 }
        requires there { HasRoom (length packet.now) (first_of (list_of (endpoint_of ep) self.old)) }
        ensures { (submit : law.Pending) (behind : _) → list_of (endpoint_of ep) self.old ≡ submit ∷ behind →
            self.new ≡ with_list (endpoint_of ep) (filled_by submit packet.now ∷ behind) self.old }
    {
        let key = self.queues.key(ep, 0);
        self.slab[key].fill(packet);
    }

    /// The first submit of an endpoint leaves its queue.
    pub fn answer(&mut self, ep: u8) -> Over
        requires endpoint { ep < 4 }
        requires there { IsSome (first_of (list_of (endpoint_of ep) self.old)) }
        ensures over { (submit : law.Pending) (behind : _) → list_of (endpoint_of ep) self.old ≡ submit ∷ behind → Ends submit result }
        ensures left { (submit : law.Pending) (behind : _) → list_of (endpoint_of ep) self.old ≡ submit ∷ behind →
            self.new ≡ with_list (endpoint_of ep) behind self.old }
        ensures gone { Avoids result.seqnum (all_of self.new) }
    {
        self.take_at(ep, 0).end()
    }

    /// Marks an endpoint as halted; the control endpoint never is.
    pub fn halt(&mut self, ep: u8)
        requires { ep < 4 }
        ensures { self.new ≡ with_mark (endpoint_of ep) true self.old }
    {
        self.mark(ep, true);
    }

    /// Takes the mark of a halt back.
    pub fn unhalt(&mut self, ep: u8)
        requires { ep < 4 }
        ensures { self.new ≡ with_mark (endpoint_of ep) false self.old }
    {
        self.mark(ep, false);
    }

    fn mark(&mut self, ep: u8, halted: bool)
        ensures { self.new ≡ with_mark (endpoint_of ep) halted self.old }
    {
        match ep {
            0 => (),
            1 => self.bulk_out_halted = halted,
            2 => self.bulk_in_halted = halted,
            _ => self.interrupt_in_halted = halted,
        }
    }

    /// Whether an endpoint is halted.
    pub fn halted(&self, ep: u8) -> bool
        requires { ep < 4 }
        ensures { result ≡ is_marked (endpoint_of ep) self.now }
    {
        match ep {
            0 => false,
            1 => self.bulk_out_halted,
            2 => self.bulk_in_halted,
            _ => self.interrupt_in_halted,
        }
    }

    /// Whether a submit with this number is pending.
    pub fn holds(&self, seqnum: u32) -> bool
        ensures { MatchBool result (IsPending seqnum (all_of self.now)) (Avoids seqnum (all_of self.now)) }
    {
        match self.locate(seqnum) {
            Some(_) => true,
            None => false,
        }
    }

    /// How many submits are pending. Their numbers are distinct.
    pub fn len(&self) -> u32
        ensures len { result ≡ length (all_of self.now) }
        ensures few { result ≤ pending_most }
        ensures distinct { AreDistinct (all_of self.now) }
        ensures unpolled { AreUnpolled (all_of self.now) }
    {
        self.queues.len() as u32
    }

    /// The first entry of an endpoint.
    fn first_entry(&self, ep: u8) -> Option<&Entry>
        ensures whole { IfSome result (λ entry. IsWhole entry.now) }
        ensures first { IfSome result (λ entry. (behind : _) × (list_of (endpoint_of ep) self.now ≡ submit_of entry.now ∷ behind)) }
        ensures none { IfNone result (list_of (endpoint_of ep) self.now ≡ []) }
    {
        if self.queues.len_at(ep) == 0 {
            return None;
        }
        Some(&self.slab[self.queues.key(ep, 0)])
    }
}
