ghost use Rattle.std.specs.Prelude.{◌≡◌, ◌≤◌};
ghost use Rattle.tmc_base.specs.Faults.{raised};

use std::marker::Model;

/// A count of the answers of one kind, as of faults. It stops at the greatest `u64`.
#[derive(Drop)]
pub(crate) struct Count {
    count: u64,
}

impl Model for Count {
    ghost use Rattle.std.specs.Prelude.{ℕ};

    ghost Value = { ℕ };

    ghost view = { λ a. a.count };
}

impl Count {
    pub(crate) fn new() -> Count
        ensures { result ≡ 0 }
    {
        Count { count: 0 }
    }

    pub(crate) fn raise(&mut self)
        ensures raised { self.new ≡ raised self.old }
        ensures grew { self.old ≤ self.new }
    {
        self.count = self.count.saturating_add(1);
    }
}
