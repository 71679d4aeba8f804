ghost use Rattle.std.specs.Prelude.{◌≡◌, false};
ghost use Rattle.tmc_device.specs.Sound.{IsSound};
ghost use Rattle.tmc_device.specs.Events.{Does};

use crate::Drove;
use crate::body::Body;
use tmc_law::DevEvent;

impl Body {
    ghost use Rattle.tmc_device.specs.Body.{state_of, seen_of};

    /// Does what the event says.
    pub(crate) fn drive(&mut self, event: DevEvent) -> Drove
        requires sound { IsSound (state_of self.old) }
        requires plugged { self.old.unplugged ≡ false }
        ensures { Does event (seen_of self.old) result (seen_of self.new) }
    {
        match event {
            DevEvent::Take(packets) => self.take(packets),
            DevEvent::Exec => self.exec(),
            DevEvent::Begin(most) => self.begin(most),
            DevEvent::Fill(packets) => self.fill(packets),
            DevEvent::Answer => self.answer(),
            DevEvent::Pending => self.postpone(),
            DevEvent::Poll => self.poll(),
            DevEvent::Notify => self.notify(),
            DevEvent::Halt(ep) => self.halt(ep),
            DevEvent::Unplug => self.unplug(),
        }
    }
}
