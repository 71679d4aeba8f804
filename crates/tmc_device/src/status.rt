ghost use Rattle.std.specs.Prelude.{◌≡◌, ◌<◌, ◌≤◌, [], false, MatchBool, vec_capacity};
ghost use Rattle.tmc_wire.specs.declared.class_request.ClassRequest.TheVariants as request;
ghost use Rattle.tmc_law.specs.Reached.{AreFew};
ghost use Rattle.tmc_law.specs.Logging.{is_queued};
ghost use Rattle.tmc_law.specs.Status.{IsStatusTag, Polls, is_status, status_layout as law_layout};

use crate::answer::Asked;
use crate::body::Body;
use tmc_wire::{STATUS_FAILED, STATUS_INTERRUPT_IN_BUSY, STATUS_SUCCESS};

/// The answer to READ_STATUS_BYTE: its status, the tag, and 0, since the status byte goes in a packet.
pub(crate) fn status_layout(status: u8, tag: u8) -> [u8; 3]
    ensures { result ≡ law_layout status tag }
{
    [status, tag, 0]
}

/// The tag of a status request is 2 to 127.
pub(crate) fn is_status_tag(tag: u8) -> bool
    ensures { MatchBool result (IsStatusTag tag) (¬ IsStatusTag tag) }
{
    2 <= tag && tag <= 127
}

impl Body {
    ghost use Rattle.tmc_device.specs.Body.{state_of, IsReady};
    ghost use Rattle.tmc_device.specs.Control.{IsAsked, ServesFirst};
    ghost use Rattle.tmc_device.specs.declared.answer.TheConstants.{LAYOUT_MAX};

    /// READ_STATUS_BYTE (USB488 1.0, section 4.3.1): the status byte is polled and goes in a packet, unless it was polled
    /// before, or a packet is queued.
    pub(crate) fn read_status(&mut self, asked: &Asked, tag: u8, buffer: Vec<u8>)
        requires ready { IsReady self.old }
        requires asked { IsAsked (state_of self.old) asked.now }
        requires empty { buffer.items ≡ [] }
        requires capacity { LAYOUT_MAX ≤ vec_capacity buffer }
        ensures { ServesFirst (request.ReadStatus tag) asked.now self.old self.new }
    {
        if !is_status_tag(tag) {
            self.reply(asked, &status_layout(STATUS_FAILED, tag), buffer);
        } else if asked.polled {
            self.reply(asked, &status_layout(STATUS_SUCCESS, tag), buffer);
        } else if self.packets.has_status() {
            self.reply(asked, &status_layout(STATUS_INTERRUPT_IN_BUSY, tag), buffer);
        } else {
            self.reply(asked, &status_layout(STATUS_SUCCESS, tag), buffer);
            self.poll_for(asked.head.seqnum, tag);
        }
    }

    /// The status byte is polled for a request with this number and this tag, and a packet with it is queued.
    pub(crate) fn poll_for(&mut self, seqnum: u32, tag: u8)
        requires room { 0 < self.old.exchange.room }
        requires few { AreFew self.old.packets }
        requires none_queued { is_queued is_status self.old.packets ≡ false }
        ensures polls { Polls seqnum tag (state_of self.old) (state_of self.new) }
        ensures outputs { self.new.outputs ≡ self.old.outputs }
    {
        let before = self.exchange.status();
        let byte = self.exchange.poll(seqnum);
        self.packets.notice(before, self.exchange.status());
        self.packets.push_status(tag, byte);
    }
}
