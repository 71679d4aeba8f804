ghost use Rattle.std.specs.Prelude.{◌≡◌, ◌-◌, ◌+◌, ◌<◌, ◌≤◌, ◌++◌, [], ◌∷◌, ℕ, List, drop, length, MatchOption, OnOk};
ghost use Rattle.tmc_law.specs.Put.{Put, answer_of, unlink_answer, returned};
ghost use Rattle.tmc_device.specs.Parts.{Outbox, put_of};
ghost use Rattle.tmc_device.specs.Seen.{output_of, data_of};

use std::alloc::Global;
use std::collections::VecDeque;
use std::marker::Model;
use tmc_base::Memory;
use tmc_law::Output;
use usbip_wire::{Dir, RetSubmitHead, RetUnlinkHead, SubmitHead, UnlinkHead};

/// An answer, beside what it answers. The bytes are those of an IN submit.
#[derive(Drop)]
pub(crate) enum Sent {
    Submitted {
        asked: SubmitHead,
        answer: RetSubmitHead,
        bytes: Vec<u8>,
    },
    Unlinked {
        asked: UnlinkHead,
        answer: RetUnlinkHead,
    },
}

/// The answers that were put out and not yet dropped, in order.
///
/// An answer that joins has the condition that [`reserve`](Outputs::reserve) made room for it.
#[derive(Drop)]
pub(crate) struct Outputs {
    sent: VecDeque<Sent>,
    room: usize,
}

impl Model for Outputs {
    ghost use Rattle.std.specs.Prelude.{◌+◌, ◌≤◌, map};
    ghost use Rattle.std.specs.VecDeque.{deque_len, deque_capacity};
    ghost use Rattle.tmc_device.specs.Parts.{Outbox, put_of};

    ghost Value = { Outbox };

    ghost view = { λ a. record { puts = map put_of a.sent.items; room = a.room } };

    ghost invariant = { λ a. deque_len a.sent + a.room ≤ deque_capacity a.sent };
}

impl Outputs {
    /// Nothing was put out. Takes no memory.
    pub(crate) fn new(alloc: Global) -> Outputs
        ensures { result ≡ record { puts = []; room = 0 } }
    {
        Outputs {
            sent: VecDeque::new(alloc),
            room: 0,
        }
    }

    /// Makes room for so many answers.
    pub(crate) fn reserve(&mut self, count: usize) -> Result<(), Memory>
        ensures puts { self.new.puts ≡ self.old.puts }
        ensures room { OnOk result (self.new.room ≡ count) }
    {
        self.room = 0;
        self.sent.reserve(count)?;
        self.room = count;
        Ok(())
    }

    /// The answer to a submit joins, with the bytes that were moved; data goes back where it is IN.
    pub(crate) fn answer(&mut self, asked: SubmitHead, status: i32, actual: u32, bytes: Vec<u8>)
        requires { 0 < self.old.room }
        ensures put { (moved : List ℕ) → actual ≡ length moved → bytes.items ≡ returned asked.dir moved →
            self.new.puts ≡ self.old.puts ++ answer_of asked status moved ∷ [] }
        ensures room { self.new.room + 1 ≡ self.old.room }
    {
        self.push(Sent::Submitted {
            asked,
            answer: RetSubmitHead {
                seqnum: asked.seqnum,
                status,
                actual,
            },
            bytes,
        });
    }

    /// The answer to an unlink joins.
    pub(crate) fn unlink(&mut self, asked: UnlinkHead, status: i32)
        requires { 0 < self.old.room }
        ensures put { self.new.puts ≡ self.old.puts ++ unlink_answer asked status ∷ [] }
        ensures room { self.new.room + 1 ≡ self.old.room }
    {
        self.push(Sent::Unlinked {
            asked,
            answer: RetUnlinkHead {
                seqnum: asked.seqnum,
                status,
            },
        });
    }

    fn push(&mut self, sent: Sent)
        requires { 0 < self.old.room }
        ensures put { self.new.puts ≡ self.old.puts ++ put_of sent ∷ [] }
        ensures room { self.new.room + 1 ≡ self.old.room }
    {
        match self.sent.push_back(sent) {
            Ok(()) => self.room -= 1,
            Err(_) => unreachable!(),
        }
    }

    /// The first answer, with its data.
    pub(crate) fn first(&self) -> Option<(Output, &[u8])>
        ensures { MatchOption result (self.now.puts ≡ [])
            (λ first. (put : Put) × (rest : List Put) × (self.now.puts ≡ put ∷ rest) × (first.0 ≡ output_of put) × (first.1.now ≡ data_of put)) }
    {
        match self.sent.front() {
            Some(Sent::Submitted { answer, bytes, .. }) => {
                Some((Output::Submit(*answer), bytes.as_slice()))
            }
            Some(Sent::Unlinked { answer, .. }) => Some((Output::Unlink(*answer), &[])),
            None => None,
        }
    }

    /// The first answer is dropped.
    pub(crate) fn drop_first(&mut self)
        requires { 0 < length self.old.puts }
        ensures puts { self.new.puts ≡ drop 1 self.old.puts }
        ensures room { self.old.room ≤ self.new.room }
    {
        let _first = self.sent.pop_front();
    }
}

/// The bytes of an IN submit, and none of an OUT submit.
pub(crate) fn data_back(dir: Dir, bytes: &[u8]) -> &[u8]
    ensures { result.now ≡ returned dir bytes.now }
{
    match dir {
        Dir::Out => &[],
        Dir::In => bytes,
    }
}
