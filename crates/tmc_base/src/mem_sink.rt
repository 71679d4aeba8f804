ghost use Rattle.std.specs.Prelude.{◌≡◌, ◌<◌, [], IfOk};

use crate::count::Count;
use crate::fail_plan::FailPlan;
use crate::{Memory, Sink, WriteStep};
use std::alloc::Global;
use std::marker::Model;

/// A sink in memory. It takes its room when it is made, and fails at the calls that it is told to and
/// where its room is full.
#[derive(Drop)]
pub struct MemSink {
    bytes: Vec<u8>,
    room: usize,
    most: usize,
    plan: FailPlan,
    faults: Count,
}

impl Model for MemSink {
    ghost use Rattle.std.specs.Prelude.{◌+◌, ◌<◌, ◌≤◌, length, vec_capacity};
    ghost use Rattle.tmc_base.specs.MemSink.{Held};

    ghost Value = { Held };

    ghost view = { λ a. record { put = a.bytes.items; room = a.room; most = a.most; plan = a.plan; faults = a.faults } };

    ghost invariant = { λ a. (length a.bytes.items + a.room ≤ vec_capacity a.bytes) × (0 < a.most) };
}

impl MemSink {
    ghost use Rattle.tmc_base.specs.MemSink.{Held};

    /// Takes at most `room` bytes, in pieces of at most `most` bytes. The calls in `fails`, counted from
    /// 1, fail; with none it fails only where its room is full.
    pub fn new(alloc: Global, room: usize, most: usize, fails: Vec<u32>) -> Result<MemSink, Memory>
        requires { 0 < most }
        ensures { IfOk result (λ sink. sink ≡ record { put = []; room = room; most = most; plan = record { fails = fails.items; calls = 0 }; faults = 0 }) }
    {
        Ok(MemSink {
            bytes: Vec::with_capacity(alloc, room)?,
            room,
            most,
            plan: FailPlan::new(fails),
            faults: Count::new(),
        })
    }

    /// What was put.
    pub fn bytes(&self) -> &[u8]
        ensures { result.now ≡ self.now.put }
    {
        self.bytes.as_slice()
    }
}

impl Sink for MemSink {
    ghost use Rattle.std.specs.Prelude.{Some};
    ghost use Rattle.tmc_base.specs.MemSink.{Writes};

    ghost put = { λ s. Some s.put };

    ghost faults = { λ s. s.faults };

    ghost writes = { Writes };

    fn write(&mut self, piece: &[u8]) -> WriteStep {
        let fails = self.plan.next_fails();
        if fails || self.room == 0 {
            self.faults.raise();
            return WriteStep::Failed;
        }
        let n = piece.len().min(self.most.min(self.room));
        match self.bytes.extend_from_slice(&piece[..n]) {
            Ok(()) => self.room -= n,
            Err(_) => unreachable!(),
        }
        WriteStep::Took(n)
    }
}
