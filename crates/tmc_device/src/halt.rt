ghost use Rattle.std.specs.Prelude.{◌≡◌, ◌+◌, ◌<◌, ◌≤◌, ◌++◌, length, false};
ghost use Rattle.tmc_law.specs.declared.dev_event.DevEvent.TheVariants as event;
ghost use Rattle.tmc_law.specs.Halts.{halts, halt_answers, without_transfer};
ghost use Rattle.tmc_law.specs.Reached.{FirstBegins};
ghost use Rattle.endpoint_pipes.specs.Held.{endpoint_of, list_of};
ghost use Rattle.tmc_device.specs.Sound.{IsSound};
ghost use Rattle.tmc_device.specs.Events.{Does};

use crate::Drove;
use crate::body::Body;
use crate::endings::end_all;
use crate::endpoints::{BULK_IN, BULK_OUT, STALLED};

impl Body {
    ghost use Rattle.tmc_device.specs.Body.{state_of, seen_of};

    /// An endpoint halts by itself.
    pub(crate) fn halt(&mut self, ep: u8) -> Drove
        requires sound { IsSound (state_of self.old) }
        requires plugged { self.old.unplugged ≡ false }
        ensures { Does (event.Halt ep) (seen_of self.old) result (seen_of self.new) }
    {
        if !matches!(ep, 1..=3) || self.pipes.halted(ep) {
            return Drove::NotEnabled;
        }
        if self.prepare().is_err() {
            return Drove::Memory;
        }
        self.halts(ep);
        Drove::Applied
    }

    /// An endpoint halts: its submits are answered, and what is in progress there ends.
    pub(crate) fn halts(&mut self, ep: u8)
        requires endpoint { (0 < ep) × (ep < 4) }
        requires sound { FirstBegins (list_of (endpoint_of ep) self.old.pipes) }
        requires room { length (list_of (endpoint_of ep) self.old.pipes) ≤ self.old.outputs.room }
        ensures state { state_of self.new ≡ halts (endpoint_of ep) (state_of self.old) }
        ensures puts { self.new.outputs.puts ≡ self.old.outputs.puts ++ halt_answers (endpoint_of ep) (state_of self.old) }
        ensures room { self.new.exchange.room ≡ self.old.exchange.room }
    {
        end_all(&mut self.pipes, &mut self.outputs, ep, STALLED);
        self.pipes.halt(ep);
        self.end_transfer(ep);
    }

    /// A halt of Bulk-OUT drops the transfer in progress and the unfinished message, a halt of Bulk-IN ends the transfer in
    /// progress.
    fn end_transfer(&mut self, ep: u8)
        ensures state { state_of self.new ≡ without_transfer (endpoint_of ep) (state_of self.old) }
        ensures outputs { self.new.outputs ≡ self.old.outputs }
        ensures room { self.new.exchange.room ≡ self.old.exchange.room }
    {
        match ep {
            BULK_OUT => {
                self.transfer.clear();
                self.exchange.drop_part();
            }
            BULK_IN => self.side.end(),
            _ => (),
        }
    }
}
