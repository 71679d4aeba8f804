ghost use Rattle.std.specs.Prelude.{◌≡◌, ◌+◌, ◌<◌, ◌≤◌, ◌∷◌, ◌++◌, [], Some, MatchOption, vec_capacity};
ghost use Rattle.tmc_wire.specs.declared.class_request.ClassRequest.TheVariants as request;
ghost use Rattle.tmc_law.specs.State.{Nothing};
ghost use Rattle.tmc_law.specs.Aborts.{Declined, told_tag, part_answer, without_part};
ghost use Rattle.tmc_device.specs.Parts.{running_of};

use crate::answer::Asked;
use crate::body::Body;
use crate::endings::end_first;
use crate::endpoints::{BULK_IN, BULK_OUT, SUCCESS};
use crate::running::Running;
use tmc_wire::{
    STATUS_FAILED, STATUS_SPLIT_IN_PROGRESS, STATUS_SUCCESS, STATUS_TRANSFER_NOT_IN_PROGRESS,
};

impl Body {
    ghost use Rattle.tmc_device.specs.Body.{state_of, IsReady};
    ghost use Rattle.tmc_device.specs.Control.{IsAsked, ServesFirst};
    ghost use Rattle.tmc_device.specs.declared.answer.TheConstants.{LAYOUT_MAX};

    /// INITIATE_ABORT_BULK_OUT (USBTMC 1.0, section 4.2.1.2): the transfer and the whole unfinished message are dropped,
    /// and Bulk-OUT halts.
    pub(crate) fn abort_out(&mut self, asked: &Asked, tag: u8, buffer: Vec<u8>)
        requires ready { IsReady self.old }
        requires asked { IsAsked (state_of self.old) asked.now }
        requires empty { buffer.items ≡ [] }
        requires capacity { LAYOUT_MAX ≤ vec_capacity buffer }
        ensures { ServesFirst (request.AbortOut tag) asked.now self.old self.new }
    {
        let current = self.transfer.tag();
        match declined(self.running, current, tag) {
            Some(status) => self.reply(asked, &[status, current.unwrap_or(0)], buffer),
            None => {
                self.reply(asked, &[STATUS_SUCCESS, tag], buffer);
                self.halts(BULK_OUT);
                self.running = Running::AbortsOut;
            }
        }
    }

    /// INITIATE_ABORT_BULK_IN (USBTMC 1.0, section 4.2.1.4): the bytes of the piece that were not given are dropped, and
    /// the next packet, of length 0, ends the transfer.
    pub(crate) fn abort_in(&mut self, asked: &Asked, tag: u8, buffer: Vec<u8>)
        requires ready { IsReady self.old }
        requires asked { IsAsked (state_of self.old) asked.now }
        requires empty { buffer.items ≡ [] }
        requires capacity { LAYOUT_MAX ≤ vec_capacity buffer }
        ensures { ServesFirst (request.AbortIn tag) asked.now self.old self.new }
    {
        let current = self.side.tag();
        match declined(self.running, current, tag) {
            Some(status) => self.reply(asked, &[status, current.unwrap_or(0)], buffer),
            None => {
                self.reply(asked, &[STATUS_SUCCESS, tag], buffer);
                let given = self.side.cut();
                self.running = Running::AbortsIn {
                    wanting: true,
                    given,
                };
            }
        }
    }

    /// INITIATE_CLEAR (USBTMC 1.0, section 4.2.1.6): all that is in progress on the bulk endpoints is dropped, with the
    /// messages and the unread output. A part-filled Bulk-IN submit is answered with its bytes, and Bulk-OUT halts.
    pub(crate) fn clear(&mut self, asked: &Asked, buffer: Vec<u8>)
        requires ready { IsReady self.old }
        requires asked { IsAsked (state_of self.old) asked.now }
        requires empty { buffer.items ≡ [] }
        requires capacity { LAYOUT_MAX ≤ vec_capacity buffer }
        ensures { ServesFirst request.Clear asked.now self.old self.new }
    {
        self.reply(asked, &[STATUS_SUCCESS], buffer);
        let before = self.exchange.status();
        self.exchange.clear();
        self.packets.notice(before, self.exchange.status());
        self.end_part();
        self.halts(BULK_OUT);
        self.side.end();
        self.running = Running::Clears;
    }

    /// A part-filled Bulk-IN submit is answered with its bytes.
    fn end_part(&mut self)
        requires { 0 < self.old.outputs.room }
        ensures pipes { self.new.pipes ≡ record self.old.pipes { bulk_in = without_part self.old.pipes.bulk_in } }
        ensures puts { self.new.outputs.puts ≡ self.old.outputs.puts ++ part_answer self.old.pipes.bulk_in }
        ensures room { self.old.outputs.room ≤ self.new.outputs.room + 1 }
        ensures others { self.new ≡ record self.old { pipes = self.new.pipes; outputs = self.new.outputs } }
    {
        if let Some(first) = self.pipes.first(BULK_IN) {
            if first.moved > 0 {
                end_first(&mut self.pipes, &mut self.outputs, BULK_IN, SUCCESS);
            }
        }
    }
}

/// Why an abort of the transfer with this tag does not begin.
fn declined(running: Running, current: Option<u8>, tag: u8) -> Option<u8>
    ensures { MatchOption result
        ((running_of running ≡ Nothing) × (current ≡ Some tag))
        (λ status. Declined (running_of running) current tag (status ∷ told_tag current ∷ [])) }
{
    if !matches!(running, Running::Nothing) {
        return Some(STATUS_SPLIT_IN_PROGRESS);
    }
    match current {
        None => Some(STATUS_FAILED),
        Some(other) if other != tag => Some(STATUS_TRANSFER_NOT_IN_PROGRESS),
        Some(_) => None,
    }
}
