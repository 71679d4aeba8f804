ghost use Rattle.std.specs.Prelude.{◌≡◌, ◌+◌, ◌-◌, ◌*◌, ◌≤◌, ◌++◌, [], length, take, drop, IfOk};
ghost use Rattle.host_urbs.specs.declared.limits.TheConstants.{OUTBOX_MAX};
ghost use Rattle.tmc_base.specs.declared.limits.TheConstants.{SUBMIT_MAX};
ghost use Rattle.usbip_wire.specs.declared.urb.Dir.TheVariants.{Out};
ghost use Rattle.usbip_wire.specs.declared.urb.TheConstants.{ENDPOINT_MAX, URB_HEADER};
ghost use Rattle.usbip_wire.specs.Submit as submit;
ghost use Rattle.usbip_wire.specs.Submit.{Carries, submit_bytes, submit_words};
ghost use Rattle.usbip_wire.specs.Unlink as unlink;
ghost use Rattle.usbip_wire.specs.Unlink.{unlink_bytes};
ghost use Rattle.usbip_wire.specs.Up.{Spells, Submit, Unlink};
ghost use Rattle.usbip_wire.specs.Urb.{AreWide};

use crate::limits::OUTBOX_MAX;
use bytes::BytesMut;
use std::alloc::Global;
use std::marker::Model;
use tmc_base::Memory;
use usbip_wire::{SubmitHead, URB_HEADER, UnlinkHead, put_submit, put_unlink};

/// The bytes that were not sent yet.
///
/// The buffer is twice as long as what may wait. So bytes are moved to its front only where at least as many as these
/// were sent since they were last moved, and sending moves none.
#[derive(Drop)]
pub(crate) struct Outbox {
    bytes: BytesMut,
    /// How many of the buffer's bytes were sent.
    start: usize,
}

impl Model for Outbox {
    ghost use Rattle.std.specs.Prelude.{ℕ, List, length, drop, ◌+◌, ◌*◌, ◌≤◌};
    ghost use Rattle.host_urbs.specs.declared.limits.TheConstants.{OUTBOX_MAX};

    ghost Value = { List ℕ };

    ghost view = { λ a. drop a.start a.bytes.items };

    ghost invariant = { λ a. (a.start ≤ length a.bytes.items) × (2 * OUTBOX_MAX ≤ length a.bytes.items + a.bytes.spare) };
}

impl Outbox {
    /// No bytes. Takes all the memory that it will need.
    pub(crate) fn new(alloc: Global) -> Result<Outbox, Memory>
        ensures { IfOk result (λ outbox. outbox ≡ []) }
    {
        Ok(Outbox {
            bytes: BytesMut::with_capacity(alloc, 2 * OUTBOX_MAX)?,
            start: 0,
        })
    }

    pub(crate) fn as_slice(&self) -> &[u8]
        ensures { result.now ≡ self.now }
    {
        &self.bytes.as_slice()[self.start..]
    }

    /// Appends a CMD_SUBMIT.
    pub(crate) fn put_submit(&mut self, head: SubmitHead, data: &[u8])
        requires endpoint { head.ep ≤ ENDPOINT_MAX }
        requires short { head.length ≤ SUBMIT_MAX }
        requires carried { Carries head.dir head.length «data».now }
        requires room { length self.old + (URB_HEADER + length «data».now) ≤ OUTBOX_MAX }
        ensures written { self.new ≡ self.old ++ submit_bytes head submit.unused «data».now }
        ensures spelled { Spells head.devid (Submit head «data».now) (submit_bytes head submit.unused «data».now) }
    {
        make_room(&mut self.bytes, &mut self.start, URB_HEADER + data.len());
        put_submit(head, data, &mut self.bytes);
    }

    /// Appends a CMD_SUBMIT of an OUT submit, whose data is these pieces, one behind the other.
    pub(crate) fn put_pieces(&mut self, head: SubmitHead, front: &[u8], text: &[u8], behind: &[u8])
        requires out { head.dir ≡ Out }
        requires endpoint { head.ep ≤ ENDPOINT_MAX }
        requires short { head.length ≤ SUBMIT_MAX }
        requires carried { length (front.now ++ (text.now ++ behind.now)) ≡ head.length }
        requires room { length self.old + (URB_HEADER + length (front.now ++ (text.now ++ behind.now))) ≤ OUTBOX_MAX }
        ensures written { self.new ≡ self.old ++ submit_bytes head submit.unused (front.now ++ (text.now ++ behind.now)) }
        ensures spelled { Spells head.devid (Submit head (front.now ++ (text.now ++ behind.now)))
            (submit_bytes head submit.unused (front.now ++ (text.now ++ behind.now))) }
    {
        make_room(
            &mut self.bytes,
            &mut self.start,
            URB_HEADER + head.length as usize,
        );
        put_head(head, &mut self.bytes);
        self.bytes.extend_reserved(front);
        self.bytes.extend_reserved(text);
        self.bytes.extend_reserved(behind);
    }

    /// Appends a CMD_UNLINK.
    pub(crate) fn put_unlink(&mut self, head: UnlinkHead)
        requires { length self.old + URB_HEADER ≤ OUTBOX_MAX }
        ensures written { self.new ≡ self.old ++ unlink_bytes head unlink.unused }
        ensures spelled { Spells head.devid (Unlink head) (unlink_bytes head unlink.unused) }
    {
        make_room(&mut self.bytes, &mut self.start, URB_HEADER);
        put_unlink(head, &mut self.bytes);
    }

    /// Takes the first `n` bytes out. It moves none.
    pub(crate) fn sent(&mut self, n: usize)
        requires { n ≤ length self.old }
        ensures { self.new ≡ drop n self.old }
    {
        let end = self.bytes.len();
        self.start += n;
        if self.start == end {
            self.bytes.clear();
            self.start = 0;
        }
    }
}

/// Where the length of the data stands in a CMD_SUBMIT.
const LENGTH_AT: usize = 24;

/// Appends the header of an OUT submit, without its data: that of one without any, and then its length is set.
fn put_head(head: SubmitHead, out: &mut BytesMut)
    requires out { head.dir ≡ Out }
    requires endpoint { head.ep ≤ ENDPOINT_MAX }
    requires short { head.length ≤ SUBMIT_MAX }
    requires room { URB_HEADER ≤ out.old.spare }
    ensures written { out.new.items ≡ out.old.items ++ submit_bytes head submit.unused [] }
    ensures spare { out.new.spare + URB_HEADER ≡ out.old.spare }
    ensures setup { length head.setup ≡ 8 }
    ensures wide { AreWide (submit_words head submit.unused) }
{
    let at = out.len() + LENGTH_AT;
    let size = head.length.to_be_bytes();
    put_submit(SubmitHead { length: 0, ..head }, &[], out);
    out.as_mut_slice()[at..at + 4].copy_from_slice(&size);
}

/// Makes room for `more` bytes.
fn make_room(bytes: &mut BytesMut, start: &mut usize, more: usize)
    requires within { start.old ≤ length bytes.old.items }
    requires whole { 2 * OUTBOX_MAX ≤ length bytes.old.items + bytes.old.spare }
    requires room { (length bytes.old.items - start.old) + more ≤ OUTBOX_MAX }
    ensures items { drop start.new bytes.new.items ≡ drop start.old bytes.old.items }
    ensures within { start.new ≤ length bytes.new.items }
    ensures whole { 2 * OUTBOX_MAX ≤ length bytes.new.items + bytes.new.spare }
    ensures room { more ≤ bytes.new.spare }
{
    if bytes.capacity() - bytes.len() < more {
        remove_front(bytes, *start);
        *start = 0;
    }
}

/// Moves the bytes behind the first `n` to the front.
fn remove_front(bytes: &mut BytesMut, n: usize)
    requires { n ≤ length bytes.old.items }
    ensures items { bytes.new.items ≡ drop n bytes.old.items }
    ensures whole { length bytes.new.items + bytes.new.spare ≡ length bytes.old.items + bytes.old.spare }
{
    let len = bytes.len();
    bytes.as_mut_slice().copy_within(n..len, 0);
    bytes.truncate(len - n);
}
