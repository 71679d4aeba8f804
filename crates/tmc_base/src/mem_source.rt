ghost use Rattle.std.specs.Prelude.{◌≡◌, ◌<◌, []};

use crate::count::Count;
use crate::fail_plan::FailPlan;
use crate::{ReadStep, Source};
use std::marker::Model;

/// A source in memory. It gives its bytes in pieces, and fails at the calls that it is told to.
#[derive(Drop)]
pub struct MemSource {
    bytes: Vec<u8>,
    at: usize,
    most: usize,
    plan: FailPlan,
    faults: Count,
}

impl Model for MemSource {
    ghost use Rattle.std.specs.Prelude.{◌<◌, ◌≤◌, drop, length};
    ghost use Rattle.tmc_base.specs.MemSource.{Held};

    ghost Value = { Held };

    ghost view = { λ a. record { left = drop a.at a.bytes.items; most = a.most; plan = a.plan; faults = a.faults } };

    ghost invariant = { λ a. (a.at ≤ length a.bytes.items) × (0 < a.most) };
}

impl MemSource {
    ghost use Rattle.tmc_base.specs.MemSource.{Held};

    /// Gives `bytes` in pieces of at most `most` bytes. The calls in `fails`, counted from 1, fail; with
    /// none it never fails.
    pub fn new(bytes: Vec<u8>, most: usize, fails: Vec<u32>) -> MemSource
        requires { 0 < most }
        ensures { result ≡ record { left = bytes.items; most = most; plan = record { fails = fails.items; calls = 0 }; faults = 0 } }
    {
        MemSource {
            bytes,
            at: 0,
            most,
            plan: FailPlan::new(fails),
            faults: Count::new(),
        }
    }
}

impl Source for MemSource {
    ghost use Rattle.std.specs.Prelude.{Some};
    ghost use Rattle.tmc_base.specs.MemSource.{Reads};

    ghost left = { λ s. Some s.left };

    ghost faults = { λ s. s.faults };

    ghost reads = { Reads };

    fn read(&mut self, buf: &mut [u8]) -> ReadStep {
        if self.plan.next_fails() {
            self.faults.raise();
            return ReadStep::Failed;
        }
        let left = &self.bytes[self.at..];
        if left.is_empty() {
            return ReadStep::End;
        }
        let n = buf.len().min(self.most.min(left.len()));
        buf[..n].copy_from_slice(&left[..n]);
        self.at += n;
        ReadStep::Got(n)
    }
}
