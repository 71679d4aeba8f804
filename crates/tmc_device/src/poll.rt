ghost use Rattle.std.specs.Prelude.{◌≡◌, false};
ghost use Rattle.tmc_law.specs.declared.dev_event.DevEvent.TheVariants as event;
ghost use Rattle.tmc_device.specs.Sound.{IsSound};
ghost use Rattle.tmc_device.specs.Events.{Does};

use crate::Drove;
use crate::body::Body;
use crate::endpoints::ENDS;
use crate::status::is_status_tag;
use tmc_wire::{ClassRequest, read_class};

impl Body {
    ghost use Rattle.tmc_device.specs.Body.{state_of, seen_of};

    /// Polls the status byte for the first control submit, READ_STATUS_BYTE, which is answered later.
    pub(crate) fn poll(&mut self) -> Drove
        requires sound { IsSound (state_of self.old) }
        requires plugged { self.old.unplugged ≡ false }
        ensures { Does event.Poll (seen_of self.old) result (seen_of self.new) }
    {
        let Some(asked) = self.asked() else {
            return Drove::NotEnabled;
        };
        let Some(request) = read_class(&asked.setup, &ENDS) else {
            return Drove::NotEnabled;
        };
        let ClassRequest::ReadStatus { tag } = request else {
            return Drove::NotEnabled;
        };
        if !is_status_tag(tag) || asked.polled || self.packets.has_status() {
            return Drove::NotEnabled;
        }
        if self.prepare().is_err() {
            return Drove::Memory;
        }
        self.polled = true;
        self.poll_for(asked.head.seqnum, tag);
        Drove::Applied
    }
}
