ghost use Rattle.std.specs.Prelude.{◌≡◌, false};
ghost use Rattle.tmc_law.specs.declared.dev_event.DevEvent.TheVariants as event;
ghost use Rattle.tmc_device.specs.Sound.{IsSound};
ghost use Rattle.tmc_device.specs.Events.{Does};

use crate::Drove;
use crate::body::Body;

impl Body {
    ghost use Rattle.tmc_device.specs.Body.{state_of, seen_of};

    /// Executes the message that waits.
    pub(crate) fn exec(&mut self) -> Drove
        requires sound { IsSound (state_of self.old) }
        requires plugged { self.old.unplugged ≡ false }
        ensures { Does event.Exec (seen_of self.old) result (seen_of self.new) }
    {
        if !self.exchange.waits() {
            return Drove::NotEnabled;
        }
        let before = self.exchange.status();
        if self.exchange.run().is_err() {
            return Drove::Memory;
        }
        self.packets.notice(before, self.exchange.status());
        Drove::Applied
    }
}
