ghost use Rattle.std.specs.Prelude.{◌≡◌, ℕ, ◌++◌, ◌∷◌, ◌<◌, ◌≤◌, [], List, false, IfErr, OnOk, OnErr, MatchBool, vec_capacity};
ghost use Rattle.usbip_wire.specs.Submit.{Carries};
ghost use Rattle.usbip_wire.specs.Up as up;
ghost use Rattle.tmc_law.specs.declared.input.Input.TheVariants as arrival;
ghost use Rattle.tmc_law.specs.Endpoint.{Endpoint, way_of_request as law_way};
ghost use Rattle.tmc_law.specs.State.{Pending, arrived, queue_of, with_queue};
ghost use Rattle.tmc_law.specs.Put.{answer_of, stalled};
ghost use Rattle.endpoint_pipes.specs.Held.{endpoint_of};
ghost use Rattle.endpoint_pipes.specs.Outcome.{IsFree};
ghost use Rattle.tmc_law.specs.Queues.{IsTaken};
ghost use Rattle.tmc_law.specs.Step.{Comes};
ghost use Rattle.tmc_device.specs.Arrival.{Refuses};
ghost use Rattle.tmc_device.specs.Sound.{IsSound};
ghost use Rattle.tmc_device.specs.Seen.{Makes};

use crate::DeviceFault;
use crate::answer::LAYOUT_MAX;
use crate::body::Body;
use crate::endpoints::{
    BULK_IN, BULK_OUT, CONTROL, ENDS, INTERRUPT_IN, STALLED, SUCCESS, UNLINKED,
};
use crate::status::status_layout;
use endpoint_pipes::Unlinked;
use tmc_wire::{ClassRequest, STATUS_SUCCESS, read_class};
use usbip_wire::{Dir, SubmitHead, UnlinkHead};

/// The most pending submits.
const PENDING_MAX: u32 = 256;

impl Body {
    ghost use Rattle.tmc_device.specs.Body.{state_of, seen_of, IsReady};
    ghost use Rattle.tmc_device.specs.Control.{IsPolledFirst, IsNotPolled, AnswersPolled};
    ghost use Rattle.tmc_device.specs.declared.answer.TheConstants.{LAYOUT_MAX};

    /// A submit arrives.
    pub(crate) fn submit(&mut self, head: SubmitHead, bytes: &[u8]) -> Result<(), DeviceFault>
        requires sound { IsSound (state_of self.old) }
        requires plugged { self.old.unplugged ≡ false }
        requires carried { Carries head.dir head.length bytes.now }
        ensures ok { OnOk result (Makes (Comes (up.Submit head bytes.now)) (seen_of self.old) (seen_of self.new)) }
        ensures refused { IfErr result (λ fault. Refuses (state_of self.old) (arrival.Submit head) fault) }
        ensures err { OnErr result (seen_of self.new ≡ seen_of self.old) }
    {
        if self.pipes.len() == PENDING_MAX {
            return Err(DeviceFault::Full);
        }
        if self.pipes.holds(head.seqnum) {
            return Err(DeviceFault::Twice);
        }
        if self.is_taken(&head) {
            self.queue(head, bytes)
        } else {
            self.turn_away(head)
        }
    }

    /// Whether the submit's endpoint is there, takes data this way, and is not halted.
    fn is_taken(&self, head: &SubmitHead) -> bool
        ensures { MatchBool result
            ((head.now.ep < 4) × IsTaken (state_of self.now) head.now (endpoint_of head.now.ep))
            ((endpoint : Endpoint) → IsTaken (state_of self.now) head.now endpoint → ⊥) }
    {
        match head.ep {
            0 => way_of_request(head.setup[0]) == head.dir,
            1 => head.dir == Dir::Out && !self.pipes.halted(BULK_OUT),
            2 => head.dir == Dir::In && !self.pipes.halted(BULK_IN),
            3 => head.dir == Dir::In && !self.pipes.halted(INTERRUPT_IN),
            _ => false,
        }
    }

    /// The submit comes behind the others of its endpoint.
    fn queue(&mut self, head: SubmitHead, bytes: &[u8]) -> Result<(), DeviceFault>
        requires endpoint { head.ep < 4 }
        requires carried { Carries head.dir head.length bytes.now }
        requires free { IsFree self.old.pipes head.seqnum }
        ensures ok { OnOk result (state_of self.new
            ≡ with_queue (endpoint_of head.ep) (queue_of (endpoint_of head.ep) (state_of self.old) ++ arrived head bytes.now ∷ []) (state_of self.old)) }
        ensures puts { self.new.outputs ≡ self.old.outputs }
        ensures refused { IfErr result (λ fault. fault ≡ DeviceFault.Memory) }
        ensures err { OnErr result (seen_of self.new ≡ seen_of self.old) }
    {
        let none_pending = self.pipes.first(CONTROL).is_none();
        match self.pipes.submit(head, bytes) {
            Ok(()) => (),
            Err(_) => return Err(DeviceFault::Memory),
        }
        if none_pending {
            self.polled = false;
        }
        Ok(())
    }

    /// The submit is answered at once.
    fn turn_away(&mut self, head: SubmitHead) -> Result<(), DeviceFault>
        ensures state { state_of self.new ≡ state_of self.old }
        ensures ok { OnOk result (self.new.outputs.puts ≡ self.old.outputs.puts ++ answer_of head stalled [] ∷ []) }
        ensures refused { IfErr result (λ fault. fault ≡ DeviceFault.Memory) }
        ensures err { OnErr result (self.new.outputs.puts ≡ self.old.outputs.puts) }
    {
        if self.prepare().is_err() {
            return Err(DeviceFault::Memory);
        }
        self.outputs.answer(head, STALLED, 0, Vec::new(self.alloc));
        Ok(())
    }

    /// An unlink arrives.
    pub(crate) fn unlink(&mut self, head: UnlinkHead) -> Result<(), DeviceFault>
        requires sound { IsSound (state_of self.old) }
        requires plugged { self.old.unplugged ≡ false }
        ensures ok { OnOk result (Makes (Comes (up.Unlink head)) (seen_of self.old) (seen_of self.new)) }
        ensures refused { IfErr result (λ fault. Refuses (state_of self.old) (arrival.Unlink head) fault) }
        ensures err { OnErr result (seen_of self.new ≡ seen_of self.old) }
    {
        let Ok(buffer) = Vec::with_capacity(self.alloc, LAYOUT_MAX) else {
            return Err(DeviceFault::Memory);
        };
        if self.prepare().is_err() {
            return Err(DeviceFault::Memory);
        }
        self.unlink_ready(head, buffer);
        Ok(())
    }

    /// A polled status request is answered before an unlink of it, which misses then.
    fn unlink_ready(&mut self, head: UnlinkHead, buffer: Vec<u8>)
        requires ready { IsReady self.old }
        requires empty { buffer.items ≡ [] }
        requires capacity { LAYOUT_MAX ≤ vec_capacity buffer }
        ensures { Makes (Comes (up.Unlink head)) (seen_of self.old) (seen_of self.new) }
    {
        if self.is_polled(head.target) {
            self.answer_polled(buffer);
            self.outputs.unlink(head, SUCCESS);
            return;
        }
        match self.pipes.unlink(head.target) {
            Unlinked::Hit => self.outputs.unlink(head, UNLINKED),
            Unlinked::Miss => self.outputs.unlink(head, SUCCESS),
        }
    }

    /// Whether the first control submit has this number, and the status byte was polled for it.
    fn is_polled(&self, target: u32) -> bool
        ensures { MatchBool result (IsPolledFirst target (state_of self.now)) (IsNotPolled target self.now) }
    {
        if !self.polled {
            return false;
        }
        match self.pipes.first(CONTROL) {
            Some(first) => first.head.seqnum == target,
            None => false,
        }
    }

    /// The first control submit, a status request that was polled, is answered.
    fn answer_polled(&mut self, buffer: Vec<u8>)
        requires sound { IsSound (state_of self.old) }
        requires polled { (target : ℕ) × IsPolledFirst target (state_of self.old) }
        requires room { 0 < self.old.outputs.room }
        requires empty { buffer.items ≡ [] }
        requires capacity { LAYOUT_MAX ≤ vec_capacity buffer }
        ensures { (submit : Pending) (behind : List Pending) → (state_of self.old).control ≡ submit ∷ behind → AnswersPolled submit behind self.old self.new }
    {
        let Some(asked) = self.asked() else {
            unreachable!()
        };
        let Some(request) = read_class(&asked.setup, &ENDS) else {
            unreachable!()
        };
        let ClassRequest::ReadStatus { tag } = request else {
            unreachable!()
        };
        self.reply(&asked, &status_layout(STATUS_SUCCESS, tag), buffer);
    }
}

/// The direction that bmRequestType says (USB 2.0, table 9-2).
fn way_of_request(request_type: u8) -> Dir
    ensures { result ≡ law_way request_type }
{
    if request_type < 128 {
        Dir::Out
    } else {
        Dir::In
    }
}
