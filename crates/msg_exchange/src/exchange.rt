ghost use Rattle.std.specs.Prelude.{◌≡◌, ◌≢◌, ℕ, ◌+◌, ◌-◌, ◌<◌, ◌≤◌, ◌==◌, ◌++◌, List, [], length, take, Bool, true, false, None, IfOk, OnOk, OnErr};
ghost use Rattle.std.specs.Option.{is_some};
ghost use Rattle.tmc_wire.specs.declared.header.OutHeader.TheVariants.{Message};
ghost use Rattle.tmc_wire.specs.Transfer.{OutText};
ghost use Rattle.instr_plain.specs.declared.log.LogEntry.TheVariants as entry;
ghost use Rattle.instr_plain.specs.Standing.{polled_byte};
ghost use Rattle.instr_plain.specs.Exec.{response_most};
ghost use Rattle.tmc_law.specs.Endpoint.{BulkOut};
ghost use Rattle.tmc_law.specs.State.{State, Transfer};
ghost use Rattle.tmc_law.specs.Logging.{Logs};
ghost use Rattle.tmc_law.specs.Halts.{halts};
ghost use Rattle.tmc_law.specs.Aborts.{cleared};
ghost use Rattle.tmc_law.specs.BulkOut.{message_most, Interrupts, TakesEffect, Executes};
ghost use Rattle.msg_exchange.specs.Held.{nothing_held, Holds, led_to};
ghost use Rattle.msg_exchange.specs.Parts.{alignment_most};

use bytes::BytesMut;
use instr_plain::{Instrument, RemoteAct};
use std::alloc::Global;
use std::marker::Model;
use tmc_base::{Memory, Octets};
use tmc_law::{Log, LogEntry};

/// The most bytes of a program message.
const MESSAGE_MAX: usize = 4_096;

/// The most alignment bytes of a transfer, which come behind its data.
const ALIGNMENT_MAX: usize = 3;

/// The instrument, the message that is unfinished or waits, and the log.
///
/// A call that logs has the condition that [`reserve`](Exchange::reserve) made room for an entry since the last one
/// that did, and then cannot fail.
#[derive(Drop)]
pub struct Exchange {
    alloc: Global,
    instrument: Instrument,
    /// The message that is unfinished or waits, and behind one that is unfinished what has come of its next part.
    message: Vec<u8>,
    /// How many of these bytes took effect.
    part_len: usize,
    /// The number of the submit that ended the message, where it waits.
    ended_by: Option<u32>,
    log: Log,
}

impl Model for Exchange {
    ghost use Rattle.std.specs.Prelude.{ℕ, ◌≤◌, List, [], Option, Some, None, length, vec_capacity};
    ghost use Rattle.msg_exchange.specs.Held.{Kept};
    ghost use Rattle.msg_exchange.specs.Parts.{part_of, waiting_of, coming_of, IsBuffer};

    ghost Value = { Kept };

    ghost view = { λ a. record {
      held = record {
        part = part_of a.ended_by a.part_len a.message.items;
        waiting = waiting_of a.ended_by a.part_len a.message.items;
        log = a.log.entries;
        standing = a.instrument;
      };
      coming = coming_of a.ended_by a.part_len a.message.items;
      room = a.log.room;
    } };

    ghost invariant = { λ a. IsBuffer a.part_len (length a.message.items) (vec_capacity a.message) };
}

impl Exchange {
    /// At power-on. Takes the memory of the longest message and of the longest response.
    pub fn new(alloc: Global) -> Result<Exchange, Memory>
        ensures { IfOk result (λ exchange. exchange.held ≡ nothing_held) }
    {
        Ok(Exchange {
            alloc,
            instrument: Instrument::new(alloc)?,
            message: Vec::with_capacity(alloc, MESSAGE_MAX + ALIGNMENT_MAX)?,
            part_len: 0,
            ended_by: None,
            log: Log::new(alloc),
        })
    }

    /// Makes room for one log entry. After [`Memory`] nothing has changed.
    pub fn reserve(&mut self) -> Result<(), Memory>
        ensures room { OnOk result (self.new.room ≡ 1) }
        ensures held { self.new.held ≡ self.old.held }
        ensures coming { self.new.coming ≡ self.old.coming }
    {
        self.log.reserve()
    }

    /// The transfer of a part begins, and nothing has come of it. What had come of another one is dropped.
    pub fn begin_part(&mut self)
        ensures held { self.new.held ≡ self.old.held }
        ensures coming { self.new.coming ≡ [] }
        ensures room { self.new.room ≡ self.old.room }
    {
        self.message.truncate(self.part_len);
    }

    /// More bytes of that transfer have come, behind its header. They have no effect yet.
    pub fn extend_part(&mut self, bytes: &[u8])
        requires none_waits { self.old.held.waiting ≡ None }
        requires fits { length self.old.held.part + length self.old.coming + length bytes.now ≤ message_most + alignment_most }
        ensures held { self.new.held ≡ self.old.held }
        ensures coming { self.new.coming ≡ self.old.coming ++ bytes.now }
        ensures room { self.new.room ≡ self.old.room }
    {
        match self.message.extend_from_slice(bytes) {
            Ok(()) => (),
            Err(_) => unreachable!(),
        }
    }

    /// The part that has come takes effect, that of the submit `seq`: the first `size` bytes, since alignment bytes come behind
    /// them. Where it is the first part of a message, it drops a response that is unread (IEEE 488.2, section 6.3.2.3); with
    /// `eom` it is the last one, and the message waits for execution.
    pub fn end_part(&mut self, seq: u32, size: usize, eom: bool)
        requires room { 0 < self.old.room }
        requires none_waits { self.old.held.waiting ≡ None }
        requires some { 0 < size }
        requires come { size ≤ length self.old.coming }
        requires fits { length self.old.held.part + size ≤ message_most }
        ensures takes_effect { (s : State) (transfer : Transfer) (tag most : ℕ) → Holds s self.old.held →
            transfer.header ≡ Message tag most eom → OutText transfer.header (take size self.old.coming) transfer.taken →
            TakesEffect seq transfer s (led_to s self.new.held) }
        ensures coming { self.new.coming ≡ [] }
        ensures room { self.old.room ≤ self.new.room + 1 }
    {
        self.interrupt_unread();
        self.part_len += size;
        self.message.truncate(self.part_len);
        if eom {
            self.ended_by = Some(seq);
        }
    }

    /// A part of a message takes effect as [`end_part`](Exchange::end_part) says, one that comes whole. What had come of
    /// another one is dropped.
    pub fn accept_part(&mut self, seq: u32, part: &[u8], eom: bool)
        requires room { 0 < self.old.room }
        requires none_waits { self.old.held.waiting ≡ None }
        requires some { 0 < length part.now }
        requires fits { length self.old.held.part + length part.now ≤ message_most }
        ensures takes_effect { (s : State) (transfer : Transfer) (tag size : ℕ) → Holds s self.old.held →
            transfer.header ≡ Message tag size eom → OutText transfer.header part.now transfer.taken →
            TakesEffect seq transfer s (led_to s self.new.held) }
        ensures coming { self.new.coming ≡ [] }
        ensures room { self.old.room ≤ self.new.room + 1 }
    {
        self.begin_part();
        self.extend_part(part);
        self.end_part(seq, part.len(), eom);
    }

    /// Before the first part of a message, a response that is unread is dropped.
    fn interrupt_unread(&mut self)
        requires { 0 < self.old.room }
        ensures interrupts { (s : State) → Holds s self.old.held → Interrupts s (led_to s self.new.held) }
        ensures part { self.new.held.part ≡ self.old.held.part }
        ensures waiting { self.new.held.waiting ≡ self.old.held.waiting }
        ensures coming { self.new.coming ≡ self.old.coming }
        ensures room { self.old.room ≤ self.new.room + 1 }
    {
        if self.part().is_empty() && !self.instrument.response().is_empty() {
            self.instrument.interrupt();
            self.log.push(LogEntry::Interrupt);
        }
    }

    /// Executes the message that waits. Its response becomes the unread output, and is empty where nothing answers. After
    /// [`Memory`] nothing has changed.
    pub fn run(&mut self) -> Result<(), Memory>
        requires { self.old.held.waiting ≢ None }
        ensures executes { OnOk result ((s : State) → Holds s self.old.held → Executes s (led_to s self.new.held)) }
        ensures err { OnErr result (self.new.held ≡ self.old.held) }
        ensures coming { self.new.coming ≡ self.old.coming }
    {
        let Some(seq) = self.ended_by else {
            unreachable!()
        };
        let bytes = &self.message[..self.part_len];
        let message = Octets::from_slice(self.alloc, bytes)?;
        self.log.reserve()?;
        self.instrument.execute(bytes)?;
        self.log.push(LogEntry::Exec { seq, message });
        self.message.clear();
        self.part_len = 0;
        self.ended_by = None;
        Ok(())
    }

    /// A piece of the response begins: its next `n` bytes are read, and appended to `out`. Whether they end the response.
    pub fn give(&mut self, n: usize, out: &mut BytesMut) -> bool
        requires room { 0 < self.old.room }
        requires some { 0 < n }
        requires unread { n ≤ length self.old.held.standing.unread }
        requires spare { n ≤ out.old.spare }
        ensures took { (s : State) → Holds s self.old.held → Logs (entry.Took n) s (led_to s self.new.held) }
        ensures given { out.new.items ≡ out.old.items ++ take n self.old.held.standing.unread }
        ensures spare { out.new.spare + n ≡ out.old.spare }
        ensures ends { result ≡ (n == length self.old.held.standing.unread) }
        ensures room { self.new.room + 1 ≡ self.old.room }
        ensures coming { self.new.coming ≡ self.old.coming }
    {
        let unread = self.instrument.response();
        let ends = n == unread.len();
        out.extend_reserved(&unread[..n]);
        self.instrument.took(n);
        self.log.push(LogEntry::Took { n: n as u32 });
        ends
    }

    /// Bulk-OUT halts, which drops the unfinished message and what has come of its next part.
    pub fn drop_part(&mut self)
        ensures halts { (s : State) → Holds s self.old.held → Holds (halts BulkOut s) self.new.held }
        ensures coming { self.new.coming ≡ [] }
        ensures room { self.new.room ≡ self.old.room }
    {
        if self.ended_by.is_none() {
            self.message.clear();
            self.part_len = 0;
        }
    }

    /// A clear drops the unfinished message with what has come of its next part, the one that waits and the unread output.
    pub fn clear(&mut self)
        requires { 0 < self.old.room }
        ensures clears { (s : State) → Holds s self.old.held → Logs entry.Clear (cleared s) (led_to (cleared s) self.new.held) }
        ensures coming { self.new.coming ≡ [] }
        ensures room { self.new.room + 1 ≡ self.old.room }
    {
        self.message.clear();
        self.part_len = 0;
        self.ended_by = None;
        self.instrument.clear();
        self.log.push(LogEntry::Clear);
    }

    /// A response is requested where none is unread (IEEE 488.2, section 6.3.2.2).
    pub fn bare(&mut self)
        requires { 0 < self.old.room }
        ensures bare { (s : State) → Holds s self.old.held → Logs entry.Bare s (led_to s self.new.held) }
        ensures room { self.new.room + 1 ≡ self.old.room }
        ensures coming { self.new.coming ≡ self.old.coming }
    {
        self.instrument.bare();
        self.log.push(LogEntry::Bare);
    }

    /// The transfer of the submit `seq` triggers one acquisition.
    pub fn trigger(&mut self, seq: u32)
        requires { 0 < self.old.room }
        ensures triggers { (s : State) → Holds s self.old.held → Logs (entry.Trigger seq) s (led_to s self.new.held) }
        ensures room { self.new.room + 1 ≡ self.old.room }
        ensures coming { self.new.coming ≡ self.old.coming }
    {
        self.instrument.trigger();
        self.log.push(LogEntry::Trigger { seq });
    }

    /// Polls the status byte for the submit `seq`, which takes RQS back behind it (IEEE 488.2, section 11.2.2.1).
    pub fn poll(&mut self, seq: u32) -> u8
        requires { 0 < self.old.room }
        ensures byte { result ≡ polled_byte self.old.held.standing }
        ensures polls { (s : State) → Holds s self.old.held → Logs (entry.Poll seq) s (led_to s self.new.held) }
        ensures room { self.new.room + 1 ≡ self.old.room }
        ensures coming { self.new.coming ≡ self.old.coming }
    {
        let byte = self.instrument.poll_status();
        self.log.push(LogEntry::Poll { seq });
        byte
    }

    /// Changes who may operate the instrument.
    pub fn remote(&mut self, act: RemoteAct)
        requires { 0 < self.old.room }
        ensures changes { (s : State) → Holds s self.old.held → Logs (entry.Remote act) s (led_to s self.new.held) }
        ensures room { self.new.room + 1 ≡ self.old.room }
        ensures coming { self.new.coming ≡ self.old.coming }
    {
        self.instrument.remote(act);
        self.log.push(LogEntry::Remote { act });
    }

    /// Whether a message waits for execution.
    pub fn waits(&self) -> bool
        ensures { result ≡ is_some self.now.held.waiting }
    {
        self.ended_by.is_some()
    }

    /// The unfinished message, empty where there is none.
    pub fn part(&self) -> &[u8]
        ensures { result.now ≡ self.now.held.part }
    {
        match self.ended_by {
            None => &self.message[..self.part_len],
            Some(_) => &[],
        }
    }

    /// What has come of the transfer of the next part.
    pub fn coming(&self) -> &[u8]
        ensures { result.now ≡ self.now.coming }
    {
        match self.ended_by {
            None => &self.message[self.part_len..],
            Some(_) => &[],
        }
    }

    /// The bytes of the response that were not read, at most 65,535.
    pub fn unread(&self) -> &[u8]
        ensures unread { result.now ≡ self.now.held.standing.unread }
        ensures short { length result.now ≤ response_most }
    {
        self.instrument.response()
    }

    /// The status byte, with RQS as bit 6. Clears nothing.
    pub fn status(&self) -> u8
        ensures { result ≡ polled_byte self.now.held.standing }
    {
        self.instrument.status()
    }

    /// What happened at the instrument, in order.
    pub fn log(&self) -> &Log
        ensures { result.now.entries ≡ self.now.held.log }
    {
        &self.log
    }
}
