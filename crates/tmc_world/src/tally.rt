ghost use Rattle.std.specs.Prelude.{◌≡◌, ◌≤◌};
ghost use Rattle.tmc_world.specs.Counting.{uncounted, one_fault, one_idle, one_closing};

use std::marker::Model;

/// How many calls answered a fault, idleness and a closing, each up to the greatest `u64`.
#[derive(Drop)]
pub(crate) struct Tally {
    faults: u64,
    idles: u64,
    closings: u64,
}

impl Model for Tally {
    ghost use Rattle.tmc_base.specs.Link.{Counts};

    ghost Value = { Counts };

    ghost view = { λ a. record { faults = a.faults; idles = a.idles; closings = a.closings } };
}

impl Tally {
    pub(crate) fn new() -> Tally
        ensures { result ≡ uncounted }
    {
        Tally {
            faults: 0,
            idles: 0,
            closings: 0,
        }
    }

    pub(crate) fn fault(&mut self)
        ensures counted { self.new ≡ one_fault self.old }
        ensures grew { self.old.faults ≤ self.new.faults }
    {
        self.faults = self.faults.saturating_add(1);
    }

    pub(crate) fn idle(&mut self)
        ensures counted { self.new ≡ one_idle self.old }
        ensures grew { self.old.idles ≤ self.new.idles }
    {
        self.idles = self.idles.saturating_add(1);
    }

    pub(crate) fn closing(&mut self)
        ensures counted { self.new ≡ one_closing self.old }
        ensures grew { self.old.closings ≤ self.new.closings }
    {
        self.closings = self.closings.saturating_add(1);
    }
}
