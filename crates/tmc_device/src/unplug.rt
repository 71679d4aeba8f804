ghost use Rattle.std.specs.Prelude.{◌≡◌, false};
ghost use Rattle.tmc_law.specs.declared.dev_event.DevEvent.TheVariants as event;
ghost use Rattle.tmc_device.specs.Sound.{IsSound};
ghost use Rattle.tmc_device.specs.Events.{Does};

use crate::Drove;
use crate::body::Body;
use crate::endings::end_all;
use crate::endpoints::{BULK_IN, BULK_OUT, CONTROL, INTERRUPT_IN, UNPLUGGED};

impl Body {
    ghost use Rattle.tmc_device.specs.Body.{state_of, seen_of};

    /// The device is unplugged: all pending submits are answered, endpoint by endpoint.
    pub(crate) fn unplug(&mut self) -> Drove
        requires sound { IsSound (state_of self.old) }
        requires plugged { self.old.unplugged ≡ false }
        ensures { Does event.Unplug (seen_of self.old) result (seen_of self.new) }
    {
        if self.prepare().is_err() {
            return Drove::Memory;
        }
        end_all(&mut self.pipes, &mut self.outputs, CONTROL, UNPLUGGED);
        end_all(&mut self.pipes, &mut self.outputs, BULK_OUT, UNPLUGGED);
        end_all(&mut self.pipes, &mut self.outputs, BULK_IN, UNPLUGGED);
        end_all(&mut self.pipes, &mut self.outputs, INTERRUPT_IN, UNPLUGGED);
        self.unplugged = true;
        Drove::Applied
    }
}
