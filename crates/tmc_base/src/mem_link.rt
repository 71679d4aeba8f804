ghost use Rattle.std.specs.Prelude.{◌≡◌, ◌<◌, [], IfOk};

use crate::count::Count;
use crate::fail_plan::FailPlan;
use crate::{Link, Memory, PollStep, SendStep, TendStep};
use std::alloc::Global;
use std::marker::Model;

/// A link in memory. It gives its bytes and then says that it is closed, keeps what is sent over it, and fails at the
/// calls that it is told to and where its room is full. It has no acts.
#[derive(Drop)]
pub struct MemLink {
    gives: Vec<u8>,
    at: usize,
    sent: Vec<u8>,
    room: usize,
    most_send: usize,
    most_poll: usize,
    send_plan: FailPlan,
    poll_plan: FailPlan,
    faults: Count,
    closings: Count,
}

impl Model for MemLink {
    ghost use Rattle.std.specs.Prelude.{◌+◌, ◌<◌, ◌≤◌, drop, length, take, vec_capacity};
    ghost use Rattle.tmc_base.specs.MemLink.{Linked};

    ghost Value = { Linked };

    ghost view = { λ a. record {
      sent = a.sent.items;
      taken = take a.at a.gives.items;
      left = drop a.at a.gives.items;
      room = a.room;
      most_send = a.most_send;
      most_poll = a.most_poll;
      send_plan = a.send_plan;
      poll_plan = a.poll_plan;
      counts = record { faults = a.faults; idles = 0; closings = a.closings };
    } };

    ghost invariant = { λ a. (length a.sent.items + a.room ≤ vec_capacity a.sent) × (a.at ≤ length a.gives.items) × (0 < a.most_send) × (0 < a.most_poll) };
}

impl MemLink {
    ghost use Rattle.tmc_base.specs.MemLink.{Linked};

    /// Gives `gives` in pieces of at most `most_poll` bytes, and takes at most `room` bytes in pieces of at most
    /// `most_send` bytes. The sends in `fail_sends` and the polls in `fail_polls`, each counted from 1, fail.
    pub fn new(
        alloc: Global,
        gives: Vec<u8>,
        room: usize,
        most_send: usize,
        most_poll: usize,
        fail_sends: Vec<u32>,
        fail_polls: Vec<u32>,
    ) -> Result<MemLink, Memory>
        requires send { 0 < most_send }
        requires poll { 0 < most_poll }
        ensures { IfOk result (λ link. link ≡ record {
          sent = [];
          taken = [];
          left = gives.items;
          room = room;
          most_send = most_send;
          most_poll = most_poll;
          send_plan = record { fails = fail_sends.items; calls = 0 };
          poll_plan = record { fails = fail_polls.items; calls = 0 };
          counts = record { faults = 0; idles = 0; closings = 0 };
        }) }
    {
        Ok(MemLink {
            sent: Vec::with_capacity(alloc, room)?,
            gives,
            at: 0,
            room,
            most_send,
            most_poll,
            send_plan: FailPlan::new(fail_sends),
            poll_plan: FailPlan::new(fail_polls),
            faults: Count::new(),
            closings: Count::new(),
        })
    }

    /// What was sent.
    pub fn sent(&self) -> &[u8]
        ensures { result.now ≡ self.now.sent }
    {
        self.sent.as_slice()
    }
}

impl Link for MemLink {
    ghost use Rattle.tmc_base.specs.Told.{Bytes};
    ghost use Rattle.tmc_base.specs.MemLink.{Sends, Polls, Tends};

    type Act = ();

    ghost told = { λ a. Bytes a.sent a.taken };

    ghost counts = { λ a. a.counts };

    ghost sends = { Sends };

    ghost polls = { Polls };

    ghost tends = { λ old _ step new. Tends old step new };

    fn send(&mut self, piece: &[u8]) -> SendStep {
        let fails = self.send_plan.next_fails();
        if fails || self.room == 0 {
            self.faults.raise();
            return SendStep::Failed;
        }
        let n = piece.len().min(self.most_send.min(self.room));
        match self.sent.extend_from_slice(&piece[..n]) {
            Ok(()) => self.room -= n,
            Err(_) => unreachable!(),
        }
        SendStep::Took(n)
    }

    fn poll(&mut self, buf: &mut [u8]) -> PollStep {
        if self.poll_plan.next_fails() {
            self.faults.raise();
            return PollStep::Failed;
        }
        let left = &self.gives[self.at..];
        if left.is_empty() {
            self.closings.raise();
            return PollStep::Closed;
        }
        let n = buf.len().min(self.most_poll.min(left.len()));
        buf[..n].copy_from_slice(&left[..n]);
        self.at += n;
        PollStep::Got(n)
    }

    fn tend(&mut self, _act: ()) -> TendStep {
        TendStep::NotNow
    }
}
