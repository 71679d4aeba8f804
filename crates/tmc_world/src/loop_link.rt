ghost use Rattle.std.specs.Prelude.{◌≡◌, ◌≢◌, ◌⊎◌, ◌↔◌, ◌<◌, ◌≤◌, [], true, false, length, take, IfOk, IsTrue};
ghost use Rattle.tmc_base.specs.Link.{got_count, SendCounts, PollCounts};
ghost use Rattle.usbip_export.specs.Seen.{standing};
ghost use Rattle.tmc_world.specs.declared.pace.Pace.TheVariants as pace;
ghost use Rattle.tmc_world.specs.declared.loop_act.LoopAct.TheVariants as act;
ghost use Rattle.usbip_export.specs.Events.{IsCalm};
ghost use Rattle.usbip_export.specs.Steps.{AreArrivals, AreCalming};
ghost use Rattle.tmc_world.specs.Crossing.{IsShut};
ghost use Rattle.tmc_world.specs.LoopLink.{begun_loop, IsTold, Sends, Polls, PollEnds, Readies, MayHaveMoved, HasMoved, ActEnds, Tends};

use crate::LoopAct;
use crate::history::History;
use crate::line::Line;
use crate::pace::{Pace, Rooms};
use crate::tally::Tally;
use std::alloc::Global;
use std::marker::Model;
use tmc_base::{Link, Memory, PollStep, SendStep, TendStep};
use tmc_device::Drove;
use usbip_export::{DevEvent, Log};

/// A link in memory that holds the instrument's node, what was sent to it and what was taken from it.
///
/// A paced link moves the bytes that its rooms allow: each room is for the next send, or the next poll, and is used up by
/// it. Its instrument moves by acts alone. A calm link has no rooms, and its instrument makes its calm moves at each poll.
///
/// Where a send wants memory, so does the poll behind it, whatever else is to become of that.
///
/// It always tells its run: a lawful run of the instrument from power-on.
#[derive(Drop)]
pub struct LoopLink {
    line: Line,
    history: History<Line>,
    /// The acts by which the instrument made its steps.
    acts: History<DevEvent>,
    pace: Pace,
    send_fails: bool,
    poll_fails: bool,
    /// Whether a send wanted memory, so that the next poll is to want it too.
    wants: bool,
    tally: Tally,
}

impl Model for LoopLink {
    ghost use Rattle.std.specs.Prelude.{[]};
    ghost use Rattle.tmc_world.specs.LoopLink.{Looped};
    ghost use Rattle.tmc_world.specs.Telling.{told_of, IsTelling};

    ghost Value = { Looped };

    ghost view = { λ a. record {
      pace = a.pace;
      send_fails = a.send_fails;
      poll_fails = a.poll_fails;
      wants = a.wants;
      node = a.line.node;
      sent = a.line.sent;
      taken = a.line.taken;
      acts = a.acts.moments;
      run = told_of [] a.history.moments;
      late = a.line.late;
      counts = a.tally;
    } };

    ghost invariant = { λ a. IsTelling a.acts.moments (told_of [] a.history.moments) a.line };
}

impl LoopLink {
    /// Goes by rooms, which are 0.
    pub fn paced(alloc: Global) -> Result<LoopLink, Memory>
        ensures { IfOk result (λ link. link ≡ begun_loop (pace.Paced (record { send = 0; poll = 0 }))) }
    {
        LoopLink::with(alloc, Pace::Paced(Rooms { send: 0, poll: 0 }))
    }

    /// Has no rooms, and makes the node's calm moves at each poll.
    pub fn calm(alloc: Global) -> Result<LoopLink, Memory>
        ensures { IfOk result (λ link. link ≡ begun_loop pace.Calm) }
    {
        LoopLink::with(alloc, Pace::Calm)
    }

    /// A link that goes at this pace, at power-on.
    fn with(alloc: Global, pace: Pace) -> Result<LoopLink, Memory>
        ensures { IfOk result (λ link. link ≡ begun_loop pace) }
    {
        Ok(LoopLink {
            line: Line::new(alloc)?,
            history: History::new(),
            acts: History::new(),
            pace,
            send_fails: false,
            poll_fails: false,
            wants: false,
            tally: Tally::new(),
        })
    }

    /// The bytes that were sent.
    pub fn sent(&self) -> &[u8]
        ensures { result.now ≡ self.now.sent }
    {
        self.line.sent()
    }

    /// The bytes that were taken.
    pub fn taken(&self) -> &[u8]
        ensures { result.now ≡ self.now.taken }
    {
        self.line.taken()
    }

    /// What happened at the instrument, in order: the log of the run that the link tells.
    pub fn log(&self) -> &Log
        ensures log { result.now.entries ≡ (standing self.now.node).log }
        ensures told { IsTold self.now }
    {
        self.line.log()
    }

    /// Whether a byte waits to be taken, or the node is closed.
    pub(crate) fn has_more(&self) -> bool
        ensures { IsTrue result ↔ ((self.now.node.out ≢ []) ⊎ IsShut self.now.node) }
    {
        self.line.waiting() > 0 || self.line.closed()
    }

    /// Whether something in the node waits for memory.
    pub(crate) fn is_late(&self) -> bool
        ensures { result ≡ self.now.late }
    {
        self.line.is_late()
    }

    /// What the link tells is so at any time. Does nothing.
    fn tells(&self)
        ensures { IsTold self.now }
    {
        self.log();
    }

    /// One send.
    fn send_on(&mut self, piece: &[u8]) -> SendStep
        requires { 0 < length piece.now }
        ensures goes { Sends self.old piece.now result self.new }
        ensures counts { SendCounts result self.old.counts self.new.counts }
    {
        if self.send_fails {
            self.send_fails = false;
            self.pace = self.pace.send_shut();
            self.tally.fault();
            return SendStep::Failed;
        }
        let count = self.pace.send_room(piece.len());
        if count == 0 {
            self.tally.idle();
            return SendStep::Idle;
        }
        if self.line.send(&piece[..count]).is_err() {
            self.wants = true;
            return SendStep::Memory;
        }
        self.history = self.history.and(&self.line);
        self.pace = self.pace.send_shut();
        SendStep::Took(count)
    }

    /// One poll.
    fn poll_on(&mut self, buf: &mut [u8]) -> PollStep
        requires { 0 < length buf.old }
        ensures goes { Polls self.old (length buf.old) result (take (got_count result) buf.new) self.new }
        ensures counts { PollCounts result self.old.counts self.new.counts }
    {
        if self.wants {
            self.wants = false;
            return PollStep::Memory;
        }
        if self.poll_fails {
            self.poll_fails = false;
            self.pace = self.pace.poll_shut();
            self.tally.fault();
            return PollStep::Failed;
        }
        let room = self.pace.poll_room(buf.len());
        if room == 0 {
            self.tally.idle();
            return PollStep::Idle;
        }
        self.ready();
        self.tells();
        if self.line.is_late() {
            return PollStep::Memory;
        }
        self.take(buf, room)
    }

    /// What the node does before bytes are taken from it.
    fn ready(&mut self)
        ensures readies { self.new.late ≡ false → Readies self.old.pace self.old.late self.old self.new }
        ensures moved { self.new.late ≡ true → MayHaveMoved self.old.pace self.old.late self.old self.new }
    {
        match self.pace {
            Pace::Calm => self.calm_down(),
            Pace::Paced(_) if self.line.is_late() => self.catch_up(),
            Pace::Paced(_) => (),
        }
    }

    /// The node makes its calm moves.
    fn calm_down(&mut self)
        ensures moved { HasMoved AreCalming self.old self.new }
        ensures calm { self.new.late ≡ false → IsCalm self.new.node }
    {
        self.line.calm();
        self.history = self.history.and(&self.line);
    }

    /// The node takes in and spells what waits for memory.
    fn catch_up(&mut self)
        ensures moved { HasMoved AreArrivals self.old self.new }
    {
        self.line.catch_up();
        self.history = self.history.and(&self.line);
    }

    /// Takes bytes that wait, where there are some. Takes no memory.
    fn take(&mut self, buf: &mut [u8], room: usize) -> PollStep
        requires some { 0 < room }
        requires within { room ≤ length buf.old }
        requires unlate { self.old.late ≡ false }
        ensures ends { PollEnds room self.old result (take (got_count result) buf.new) self.new }
        ensures counts { PollCounts result self.old.counts self.new.counts }
    {
        let count = room.min(self.line.waiting());
        if count == 0 {
            self.pace = self.pace.poll_shut();
            if self.line.closed() {
                self.tally.closing();
                return PollStep::Closed;
            }
            self.tally.idle();
            return PollStep::Idle;
        }
        self.line.take(buf, count);
        self.pace = self.pace.poll_shut();
        PollStep::Got(count)
    }

    /// One step of the instrument, behind what waits for memory in its node.
    fn act(&mut self, event: DevEvent) -> TendStep
        ensures goes { Tends self.old (act.Dev event) result self.new }
    {
        if !self.line.is_late() {
            return self.step(event);
        }
        self.catch_up();
        if self.line.is_late() {
            return TendStep::Memory;
        }
        self.step(event)
    }

    /// One step of the instrument.
    fn step(&mut self, event: DevEvent) -> TendStep
        ensures ends { ActEnds event self.old result self.new }
    {
        match self.line.act(event) {
            Drove::Applied => {
                self.history = self.history.and(&self.line);
                self.acts = self.acts.and(&event);
                TendStep::Did
            }
            Drove::NotEnabled => TendStep::NotNow,
            Drove::Memory => TendStep::Memory,
        }
    }

    /// One act.
    fn tend_on(&mut self, act: LoopAct) -> TendStep
        ensures goes { Tends self.old act result self.new }
    {
        match act {
            LoopAct::Dev(event) => self.act(event),
            LoopAct::RoomSend(room) => {
                self.pace = self.pace.with_send_room(room);
                TendStep::Did
            }
            LoopAct::RoomPoll(room) => {
                self.pace = self.pace.with_poll_room(room);
                TendStep::Did
            }
            LoopAct::FailSend => {
                self.send_fails = true;
                TendStep::Did
            }
            LoopAct::FailPoll => {
                self.poll_fails = true;
                TendStep::Did
            }
        }
    }
}

impl Link for LoopLink {
    ghost use Rattle.tmc_base.specs.Told.{Peer};
    ghost use Rattle.tmc_world.specs.LoopLink.{Sends, Polls, Tends};

    type Act = LoopAct;

    ghost told = { λ a. Peer a.sent a.taken a.run };

    ghost counts = { λ a. a.counts };

    ghost sends = { Sends };

    ghost polls = { Polls };

    ghost tends = { Tends };

    fn send(&mut self, piece: &[u8]) -> SendStep {
        let step = self.send_on(piece);
        self.tells();
        step
    }

    fn poll(&mut self, buf: &mut [u8]) -> PollStep {
        let step = self.poll_on(buf);
        self.tells();
        step
    }

    fn tend(&mut self, act: LoopAct) -> TendStep {
        let step = self.tend_on(act);
        self.tells();
        step
    }
}
