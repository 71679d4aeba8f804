ghost use Rattle.std.specs.Prelude.{◌≡◌, ℕ, ◌≤◌, ◌++◌, ◌∷◌, [], List, length, take, drop, true, false, is_some, IfOk};
ghost use Rattle.host_urbs.specs.declared.limits.TheConstants.{LAST_SUBMIT};
ghost use Rattle.host_urbs.specs.Entries.{awaited, sent, moved, others, unlinked};
ghost use Rattle.host_urbs.specs.Held.{HasPlace, HasRoom, Follows, joined, submit_by, submit_out, unlink_by, bytes_of, wrote};
ghost use Rattle.host_urbs.specs.Law.{is_named};
ghost use Rattle.host_urbs.specs.Record.{Past, Wrote, Took};
ghost use Rattle.tmc_base.specs.declared.limits.TheConstants.{SUBMIT_MAX};
ghost use Rattle.usbip_wire.specs.declared.urb.TheConstants.{ENDPOINT_MAX};
ghost use Rattle.usbip_wire.specs.Awaited.{entries_of, left_by};
ghost use Rattle.usbip_wire.specs.Dirs.{find, submit_of, is_unlink};
ghost use Rattle.usbip_wire.specs.Down.{SpellsAnswer, RetSubmit, RetUnlink};
ghost use Rattle.usbip_wire.specs.Submit.{Carries};
ghost use Rattle.usbip_wire.specs.Up.{Spells};

use crate::entries::Entries;
use crate::entry::{Entry, Unanswered};
use crate::outbox::Outbox;
use std::alloc::Global;
use std::marker::Model;
use tmc_base::Memory;
use usbip_wire::{Dir, Dirs, RetSubmitHead, RetUnlinkHead, SubmitHead, UnlinkHead};

/// The submits and unlinks of a client: their numbers, their bytes until they are sent, and which are not answered yet.
///
/// Only `new` takes memory.
#[derive(Drop)]
pub struct Urbs {
    devid: u32,
    next: u32,
    entries: Entries,
    /// Of the entries, those whose bytes were all sent.
    dirs: Dirs,
    outbox: Outbox,
}

impl Model for Urbs {
    ghost use Rattle.host_urbs.specs.Held.{Held};

    ghost Value = { Held };

    ghost use Rattle.host_urbs.specs.Kept.{IsKept};

    ghost view = { λ a. record { devid = a.devid; next = a.next; entries = a.entries; outbox = a.outbox } };

    ghost invariant = { λ a. IsKept (record { devid = a.devid; next = a.next; entries = a.entries; outbox = a.outbox }) a.dirs };
}

impl Urbs {
    /// Nothing was written. The first message will have the number `first`, and all are for the device `devid`. Takes all
    /// the memory that will be needed.
    pub fn new(alloc: Global, devid: u32, first: u32) -> Result<Urbs, Memory>
        requires { 1 ≤ first }
        ensures begun { IfOk result (λ urbs. urbs ≡ record { devid = devid; next = first; entries = []; outbox = [] }) }
        ensures recorded { IfOk result (λ urbs. Follows first [] [] urbs) }
    {
        Ok(Urbs {
            devid,
            next: first,
            entries: Entries::new(),
            dirs: Dirs::new(),
            outbox: Outbox::new(alloc)?,
        })
    }

    /// Writes a submit of `length` bytes on the endpoint `ep`, with these bytes where it is OUT. `setup` is the setup packet
    /// on endpoint 0, and zeros elsewhere. Gives its number.
    pub fn submit(&mut self, dir: Dir, ep: u32, length: u32, setup: [u8; 8], bytes: &[u8]) -> u32
        requires last { self.old.next ≤ LAST_SUBMIT }
        requires place { HasPlace self.old }
        requires endpoint { ep ≤ ENDPOINT_MAX }
        requires short { length ≤ SUBMIT_MAX }
        requires carried { Carries dir length bytes.now }
        requires room { HasRoom self.old bytes.now }
        ensures number { result ≡ self.old.next }
        ensures written { self.new ≡ wrote (submit_by self.old dir ep length setup bytes.now) self.old }
        ensures spelled { let message = submit_by self.old dir ep length setup bytes.now in Spells self.old.devid message (bytes_of message) }
        ensures recorded { (first : ℕ) (past : Past) (front : List ℕ) → Follows first past front self.old
            → Follows first (Wrote (submit_by self.old dir ep length setup bytes.now) ∷ past) front self.new }
    {
        let seqnum = self.next;
        let head = SubmitHead {
            seqnum,
            devid: self.devid,
            dir,
            ep,
            length,
            setup,
        };
        self.outbox.put_submit(head, bytes);
        self.entries.push(Entry {
            message: Unanswered::Submit {
                seqnum,
                dir,
                length,
            },
            unsent: self.outbox.as_slice().len(),
        });
        self.next += 1;
        seqnum
    }

    /// Writes an OUT submit on the endpoint `ep`, whose data is these pieces, one behind the other, and whose setup packet is
    /// zeros. Each piece is copied once. Gives its number.
    pub fn submit_pieces(&mut self, ep: u32, front: &[u8], text: &[u8], behind: &[u8]) -> u32
        requires last { self.old.next ≤ LAST_SUBMIT }
        requires place { HasPlace self.old }
        requires endpoint { ep ≤ ENDPOINT_MAX }
        requires room { HasRoom self.old (joined front.now text.now behind.now) }
        ensures number { result ≡ self.old.next }
        ensures written { self.new ≡ wrote (submit_out self.old ep (joined front.now text.now behind.now)) self.old }
        ensures spelled { let message = submit_out self.old ep (joined front.now text.now behind.now) in Spells self.old.devid message (bytes_of message) }
        ensures recorded { (first : ℕ) (past : Past) (sent : List ℕ) → Follows first past sent self.old
            → Follows first (Wrote (submit_out self.old ep (joined front.now text.now behind.now)) ∷ past) sent self.new }
    {
        let seqnum = self.next;
        let length = (front.len() + text.len() + behind.len()) as u32;
        let head = SubmitHead {
            seqnum,
            devid: self.devid,
            dir: Dir::Out,
            ep,
            length,
            setup: [0; 8],
        };
        self.outbox.put_pieces(head, front, text, behind);
        self.entries.push(Entry {
            message: Unanswered::Submit {
                seqnum,
                dir: Dir::Out,
                length,
            },
            unsent: self.outbox.as_slice().len(),
        });
        self.next += 1;
        seqnum
    }

    /// Writes an unlink of the submit `target`, and gives its number.
    pub fn unlink(&mut self, target: u32) -> u32
        requires place { HasPlace self.old }
        requires room { HasRoom self.old [] }
        requires there { is_some (submit_of (find target (entries_of (awaited self.old.entries)))) ≡ true }
        requires once { is_named target (awaited self.old.entries) ≡ false }
        ensures number { result ≡ self.old.next }
        ensures written { self.new ≡ wrote (unlink_by self.old target) self.old }
        ensures spelled { Spells self.old.devid (unlink_by self.old target) (bytes_of (unlink_by self.old target)) }
        ensures recorded { (first : ℕ) (past : Past) (front : List ℕ) → Follows first past front self.old
            → Follows first (Wrote (unlink_by self.old target) ∷ past) front self.new }
    {
        let seqnum = self.next;
        let head = UnlinkHead {
            seqnum,
            devid: self.devid,
            target,
        };
        self.outbox.put_unlink(head);
        self.entries.push(Entry {
            message: Unanswered::Unlink { seqnum, target },
            unsent: self.outbox.as_slice().len(),
        });
        self.next += 1;
        seqnum
    }

    /// Takes the submit that this answers out.
    pub fn answer(&mut self, head: RetSubmitHead)
        requires { is_some (submit_of (find head.seqnum (entries_of (sent self.old.entries)))) ≡ true }
        ensures taken { self.new ≡ record self.old { entries = others head.seqnum self.old.entries } }
        ensures recorded { (first : ℕ) (past : Past) (front transferred bytes : List ℕ) → Follows first past front self.old
            → SpellsAnswer (entries_of (sent self.old.entries)) (RetSubmit head transferred) bytes
            → Follows first (Took (RetSubmit head transferred) ∷ past) front self.new }
    {
        self.entries.remove(head.seqnum);
        self.dirs = self.entries.sent();
    }

    /// Takes the unlink that this answers out, and the submit that it names, where that is not answered yet.
    pub fn unlinked(&mut self, head: RetUnlinkHead)
        requires { is_unlink (find head.seqnum (entries_of (sent self.old.entries))) ≡ true }
        ensures taken { self.new ≡ record self.old { entries = unlinked head.seqnum self.old.entries } }
        ensures left { awaited self.new.entries ≡ left_by (awaited self.old.entries) (RetUnlink head) }
        ensures recorded { (first : ℕ) (past : Past) (front : List ℕ) → Follows first past front self.old
            → Follows first (Took (RetUnlink head) ∷ past) front self.new }
    {
        self.entries.remove_unlinked(head.seqnum);
        self.dirs = self.entries.sent();
    }

    /// The outstanding messages that were sent whole: answers are to these alone.
    pub fn dirs(&self) -> &Dirs
        ensures { result.now ≡ entries_of (sent self.now.entries) }
    {
        &self.dirs
    }

    /// The bytes that were not sent yet.
    pub fn outbox(&self) -> &[u8]
        ensures { result.now ≡ self.now.outbox }
    {
        self.outbox.as_slice()
    }

    /// Takes the first `n` bytes out of the outbox.
    pub fn sent(&mut self, n: usize)
        requires { n ≤ length self.old.outbox }
        ensures moved { self.new ≡ record self.old { entries = moved n self.old.entries; outbox = drop n self.old.outbox } }
        ensures recorded { (first : ℕ) (past : Past) (front : List ℕ) → Follows first past front self.old
            → Follows first past (front ++ take n self.old.outbox) self.new }
    {
        self.outbox.sent(n);
        self.entries.moved(n);
        self.dirs = self.entries.sent();
    }

    /// The number of the next message.
    pub fn next(&self) -> u32
        ensures { result ≡ self.now.next }
    {
        self.next
    }
}
