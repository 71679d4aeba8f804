ghost use Rattle.std.specs.Prelude.{◌≡◌};
ghost use Rattle.tmc_base.specs.FailPlan.{after_call, next_fails};

use std::marker::Model;

/// Counts the calls of an object in memory, and knows which of them are to fail.
#[derive(Drop)]
pub(crate) struct FailPlan {
    fails: Vec<u32>,
    calls: u32,
}

impl Model for FailPlan {
    ghost use Rattle.tmc_base.specs.FailPlan.{Plan};

    ghost Value = { Plan };

    ghost view = { λ a. record { fails = a.fails.items; calls = a.calls } };
}

impl FailPlan {
    /// The calls with these numbers, counted from 1, are to fail.
    pub(crate) fn new(fails: Vec<u32>) -> FailPlan
        ensures { result ≡ record { fails = fails.items; calls = 0 } }
    {
        FailPlan { fails, calls: 0 }
    }

    /// Counts one more call, and tells whether it is to fail.
    pub(crate) fn next_fails(&mut self) -> bool
        ensures answer { result ≡ next_fails self.old }
        ensures counted { self.new ≡ after_call self.old }
    {
        self.calls = self.calls.saturating_add(1);
        self.fails.contains(&self.calls)
    }
}
