ghost use Rattle.std.specs.Prelude.{◌≡◌, ◌^◌, ◌+◌, ℕ, ◌<◌, ◌≤◌, ◌∷◌, ◌++◌, List, length, take, drop, min, false, None, Some, IsSome};
ghost use Rattle.tmc_law.specs.declared.dev_event.DevEvent.TheVariants as event;
ghost use Rattle.tmc_wire.specs.Standard.{header_size};
ghost use Rattle.tmc_wire.specs.Transfer.{OutText, data_size};
ghost use Rattle.tmc_law.specs.State.{State, Transfer, Pending as Submit, transfer_size};
ghost use Rattle.tmc_law.specs.BulkOut.{message_most, TakesEffect, packets_of as law_packets};
ghost use Rattle.msg_exchange.specs.Held.{Holds, led_to};
ghost use Rattle.msg_exchange.specs.Parts.{alignment_most};
ghost use Rattle.tmc_law.specs.Logging.{Logs};
ghost use Rattle.tmc_law.specs.Step.{Take};
ghost use Rattle.instr_plain.specs.declared.log.LogEntry.TheVariants as entry;
ghost use Rattle.tmc_wire.specs.declared.header.OutHeader.TheVariants.{Message, Request, Trigger};
ghost use Rattle.endpoint_pipes.specs.Outcome.{first_of, left_of};
ghost use Rattle.tmc_law.specs.Reached.{AreFew};
ghost use Rattle.tmc_device.specs.Sound.{IsSound};
ghost use Rattle.tmc_device.specs.Parts.{header_in, transfer_of, taken_in, bytes_of};
ghost use Rattle.tmc_device.specs.Seen.{Makes};
ghost use Rattle.tmc_device.specs.Events.{Does, packets_there};

use crate::Drove;
use crate::body::Body;
use crate::endings::end_first;
use crate::endpoints::{BULK_OUT, PACKET_SIZE, SUCCESS};
use crate::transfer::{OutTransfer, out_len};
use endpoint_pipes::{Pending, Pipes};
use msg_exchange::Exchange;
use tmc_wire::{BULK_HEADER, OutHeader};

/// The packets in which so many bytes go, the last one shorter; no bytes are one packet.
pub(crate) fn packets_of(size: usize) -> usize
    requires { size < 2 ^ 63 }
    ensures { result ≡ law_packets size }
{
    ((size + (PACKET_SIZE - 1)) / PACKET_SIZE).max(1)
}

/// More bytes of the transfer with this header; it begins with them where none is in progress.
fn gather(exchange: &mut Exchange, transfer: &mut OutTransfer, header: OutHeader, bytes: &[u8])
    requires none_waits { exchange.old.held.waiting ≡ None }
    requires goes_on { (other : OutHeader) → header_in transfer.old ≡ Some other → other ≡ header }
    requires begins { header_in transfer.old ≡ None → header_size ≤ length bytes.now }
    requires fits { length exchange.old.held.part + (length (taken_in (transfer_of transfer.old exchange.old.coming)) + length bytes.now) ≤ message_most + (header_size + alignment_most) }
    ensures grown { transfer_of transfer.new exchange.new.coming ≡
        Some (record { header = header; taken = taken_in (transfer_of transfer.old exchange.old.coming) ++ bytes.now }) }
    ensures held { exchange.new.held ≡ exchange.old.held }
    ensures room { exchange.new.room ≡ exchange.old.room }
{
    match transfer.header() {
        Some(_) => exchange.extend_part(bytes),
        None => {
            transfer.begin(header, &bytes[..BULK_HEADER]);
            exchange.begin_part();
            exchange.extend_part(&bytes[BULK_HEADER..]);
        }
    }
}

/// The data of a whole transfer are a part of a message: what came of it, or where none is in progress, what the first
/// Bulk-OUT submit holds.
fn accept_data(
    exchange: &mut Exchange,
    transfer: &OutTransfer,
    pipes: &Pipes,
    seqnum: u32,
    size: usize,
    eom: bool,
)
    requires room { 0 < exchange.old.room }
    requires none_waits { exchange.old.held.waiting ≡ None }
    requires some { 0 < size }
    requires whole { header_size + size ≤ length (bytes_of (transfer_of transfer.now exchange.old.coming) pipes.now.bulk_out) }
    requires fits { length exchange.old.held.part + size ≤ message_most }
    ensures { (s : State) (whole : Transfer) (tag most : ℕ) → Holds s exchange.old.held → whole.header ≡ Message tag most eom →
        OutText whole.header (take size (drop header_size (bytes_of (transfer_of transfer.now exchange.old.coming) pipes.now.bulk_out))) whole.taken →
        TakesEffect seqnum whole s (led_to s exchange.new.held) }
{
    match transfer.header() {
        Some(_) => exchange.end_part(seqnum, size, eom),
        None => {
            let data = &pipes.rest_out()[BULK_HEADER..BULK_HEADER + size];
            exchange.accept_part(seqnum, data, eom);
        }
    }
}

impl Body {
    ghost use Rattle.tmc_device.specs.Body.{state_of, seen_of, IsReady, IsJudged, IsWhole, HasEffect};

    /// Takes so many packets of the first Bulk-OUT submit.
    pub(crate) fn take(&mut self, packets: u32) -> Drove
        requires sound { IsSound (state_of self.old) }
        requires plugged { self.old.unplugged ≡ false }
        ensures { Does (event.Take packets) (seen_of self.old) result (seen_of self.new) }
    {
        if packets == 0 || self.exchange.waits() {
            return Drove::NotEnabled;
        }
        let Some(first) = self.pipes.first(BULK_OUT) else {
            return Drove::NotEnabled;
        };
        if self.prepare().is_err() {
            return Drove::Memory;
        }
        self.take_first(&first, packets);
        Drove::Applied
    }

    /// The packets are taken, or Bulk-OUT halts in place of the first.
    fn take_first(&mut self, first: &Pending, packets: u32)
        requires ready { IsReady self.old }
        requires some { 0 < packets }
        requires none_waits { self.old.exchange.held.waiting ≡ None }
        requires first { first_of self.old.pipes.bulk_out ≡ Some first.now }
        ensures { Makes (Take (min packets (packets_there (state_of self.old)))) (seen_of self.old) (seen_of self.new) }
    {
        if first.head.length == 0 {
            end_first(&mut self.pipes, &mut self.outputs, BULK_OUT, SUCCESS);
            return;
        }
        match self.judge(first) {
            Some(header) => self.take_packets(header, first, packets),
            None => self.halts(BULK_OUT),
        }
    }

    /// The packets are taken: the submit has more, or it ends.
    fn take_packets(&mut self, header: OutHeader, first: &Pending, packets: u32)
        requires ready { IsReady self.old }
        requires some { 0 < packets }
        requires none_waits { self.old.exchange.held.waiting ≡ None }
        requires first { first_of self.old.pipes.bulk_out ≡ Some first.now }
        requires length { 0 < first.now.head.length }
        requires judged { (submit : Submit) (behind : List Submit) → self.old.pipes.bulk_out ≡ submit ∷ behind → IsJudged self.old submit (Some header) }
        ensures { Makes (Take (min packets (packets_there (state_of self.old)))) (seen_of self.old) (seen_of self.new) }
    {
        let rest = self.pipes.rest_out().len();
        let there = packets_of(rest) as u32;
        if packets < there {
            self.take_some(header, packets);
        } else if self.transfer.header().is_none() && rest == out_len(header) {
            self.take_whole(header, first.head.seqnum, there);
        } else {
            self.take_rest(header, first.head.seqnum, there);
        }
    }

    /// Packets are taken behind which the submit has more.
    fn take_some(&mut self, header: OutHeader, packets: u32)
        requires ready { IsReady self.old }
        requires some { 0 < packets }
        requires none_waits { self.old.exchange.held.waiting ≡ None }
        requires more { packets < law_packets (length (left_of self.old.pipes.bulk_out)) }
        requires length { (submit : Submit) (behind : List Submit) → self.old.pipes.bulk_out ≡ submit ∷ behind → 0 < submit.head.length }
        requires judged { (submit : Submit) (behind : List Submit) → self.old.pipes.bulk_out ≡ submit ∷ behind → IsJudged self.old submit (Some header) }
        ensures { Makes (Take packets) (seen_of self.old) (seen_of self.new) }
    {
        let size = packets as usize * PACKET_SIZE;
        gather(
            &mut self.exchange,
            &mut self.transfer,
            header,
            &self.pipes.rest_out()[..size],
        );
        self.pipes.take_out(packets);
    }

    /// The submit is a whole transfer: it takes effect from there, and is answered.
    fn take_whole(&mut self, header: OutHeader, seqnum: u32, packets: u32)
        requires ready { IsReady self.old }
        requires none_waits { self.old.exchange.held.waiting ≡ None }
        requires all { packets ≡ law_packets (length (left_of self.old.pipes.bulk_out)) }
        requires there { IsSome (first_of self.old.pipes.bulk_out) }
        requires length { (submit : Submit) (behind : List Submit) → self.old.pipes.bulk_out ≡ submit ∷ behind →
            (0 < submit.head.length) × (submit.head.seqnum ≡ seqnum) }
        requires judged { (submit : Submit) (behind : List Submit) → self.old.pipes.bulk_out ≡ submit ∷ behind → IsJudged self.old submit (Some header) }
        requires begins { self.old.transfer ≡ None }
        requires whole { length (left_of self.old.pipes.bulk_out) ≡ transfer_size (data_size header) }
        ensures { Makes (Take packets) (seen_of self.old) (seen_of self.new) }
    {
        self.take_effect(header, seqnum);
        self.pipes.take_out(packets);
        end_first(&mut self.pipes, &mut self.outputs, BULK_OUT, SUCCESS);
    }

    /// The rest of the submit is taken, and it is answered; where the transfer is whole, it takes effect.
    fn take_rest(&mut self, header: OutHeader, seqnum: u32, packets: u32)
        requires ready { IsReady self.old }
        requires none_waits { self.old.exchange.held.waiting ≡ None }
        requires all { packets ≡ law_packets (length (left_of self.old.pipes.bulk_out)) }
        requires there { IsSome (first_of self.old.pipes.bulk_out) }
        requires length { (submit : Submit) (behind : List Submit) → self.old.pipes.bulk_out ≡ submit ∷ behind →
            (0 < submit.head.length) × (submit.head.seqnum ≡ seqnum) }
        requires judged { (submit : Submit) (behind : List Submit) → self.old.pipes.bulk_out ≡ submit ∷ behind → IsJudged self.old submit (Some header) }
        ensures { Makes (Take packets) (seen_of self.old) (seen_of self.new) }
    {
        gather(
            &mut self.exchange,
            &mut self.transfer,
            header,
            self.pipes.rest_out(),
        );
        self.pipes.take_out(packets);
        end_first(&mut self.pipes, &mut self.outputs, BULK_OUT, SUCCESS);
        if self.taken_len() == out_len(header) {
            self.take_effect(header, seqnum);
        }
    }

    /// A whole transfer takes effect under the number of its submit.
    fn take_effect(&mut self, header: OutHeader, seqnum: u32)
        requires whole { IsWhole self.old header }
        requires room { 0 < self.old.exchange.room }
        requires none_waits { self.old.exchange.held.waiting ≡ None }
        requires few { AreFew self.old.packets }
        ensures effect { HasEffect seqnum header self.old self.new }
        ensures pipes { self.new.pipes ≡ self.old.pipes }
        ensures outputs { self.new.outputs ≡ self.old.outputs }
    {
        match header {
            OutHeader::Message { size, eom, .. } => self.accept_message(seqnum, size, eom),
            OutHeader::Request { tag, size } => self.accept_request(tag, size),
            OutHeader::Trigger { .. } => self.accept_trigger(seqnum),
        }
    }

    /// A part of a message takes effect.
    fn accept_message(&mut self, seqnum: u32, size: u32, eom: bool)
        requires whole { (tag : ℕ) × IsWhole self.old (Message tag size eom) }
        requires some { 0 < size }
        requires room { 0 < self.old.exchange.room }
        requires none_waits { self.old.exchange.held.waiting ≡ None }
        requires few { AreFew self.old.packets }
        ensures effect { (tag : ℕ) → IsWhole self.old (Message tag size eom) → HasEffect seqnum (Message tag size eom) self.old self.new }
        ensures pipes { self.new.pipes ≡ self.old.pipes }
        ensures outputs { self.new.outputs ≡ self.old.outputs }
    {
        let before = self.exchange.status();
        accept_data(
            &mut self.exchange,
            &self.transfer,
            &self.pipes,
            seqnum,
            size as usize,
            eom,
        );
        self.packets.notice(before, self.exchange.status());
        self.transfer.clear();
    }

    /// A request takes effect.
    fn accept_request(&mut self, tag: u8, size: u32)
        requires room { 0 < self.old.exchange.room }
        requires few { AreFew self.old.packets }
        ensures effect { (seqnum : ℕ) → HasEffect seqnum (Request tag size) self.old self.new }
        ensures pipes { self.new.pipes ≡ self.old.pipes }
        ensures outputs { self.new.outputs ≡ self.old.outputs }
    {
        self.transfer.clear();
        self.side.owe(tag, size);
        if self.exchange.unread().is_empty() {
            self.request_nothing();
        }
    }

    /// A response is requested where none is unread.
    fn request_nothing(&mut self)
        requires room { 0 < self.old.exchange.room }
        requires few { AreFew self.old.packets }
        ensures bare { Logs entry.Bare (state_of self.old) (state_of self.new) }
        ensures pipes { self.new.pipes ≡ self.old.pipes }
        ensures outputs { self.new.outputs ≡ self.old.outputs }
    {
        let before = self.exchange.status();
        self.exchange.bare();
        self.packets.notice(before, self.exchange.status());
    }

    /// A trigger takes effect.
    fn accept_trigger(&mut self, seqnum: u32)
        requires room { 0 < self.old.exchange.room }
        requires few { AreFew self.old.packets }
        ensures effect { (tag : ℕ) → HasEffect seqnum (Trigger tag) self.old self.new }
        ensures pipes { self.new.pipes ≡ self.old.pipes }
        ensures outputs { self.new.outputs ≡ self.old.outputs }
    {
        let before = self.exchange.status();
        self.exchange.trigger(seqnum);
        self.packets.notice(before, self.exchange.status());
        self.transfer.clear();
    }
}
