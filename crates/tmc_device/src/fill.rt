ghost use Rattle.std.specs.Prelude.{◌≡◌, ◌<◌, ◌≤◌, length, min, false, true, Some, IsSome};
ghost use Rattle.tmc_law.specs.declared.dev_event.DevEvent.TheVariants as event;
ghost use Rattle.tmc_law.specs.State.{AbortsIn};
ghost use Rattle.tmc_law.specs.BulkIn.{NoPacketWanted};
ghost use Rattle.tmc_law.specs.Reached.{FirstBegins};
ghost use Rattle.tmc_law.specs.Step.{Fill};
ghost use Rattle.endpoint_pipes.specs.Outcome.{first_of, HasRoom};
ghost use Rattle.tmc_device.specs.Parts.{running_of, left_in};
ghost use Rattle.tmc_device.specs.Sound.{IsSound};
ghost use Rattle.tmc_device.specs.Seen.{Makes};
ghost use Rattle.tmc_device.specs.Events.{Does, packets_due, IsSending};

use crate::Drove;
use crate::body::Body;
use crate::endings::end_first;
use crate::endpoints::{BULK_IN, PACKET_SIZE, SUCCESS};
use crate::running::Running;
use crate::side::Phase;
use crate::take::packets_of;
use endpoint_pipes::Pending;

impl Body {
    ghost use Rattle.tmc_device.specs.Body.{state_of, seen_of, IsReady};
    ghost use Rattle.tmc_device.specs.Fill.{Gives, FillsUp, EndsPiece, Overflows};

    /// Puts so many packets into the first Bulk-IN submit.
    pub(crate) fn fill(&mut self, packets: u32) -> Drove
        requires sound { IsSound (state_of self.old) }
        requires plugged { self.old.unplugged ≡ false }
        ensures { Does (event.Fill packets) (seen_of self.old) result (seen_of self.new) }
    {
        if packets == 0 {
            return Drove::NotEnabled;
        }
        let Some(first) = self.pipes.first(BULK_IN) else {
            return Drove::NotEnabled;
        };
        if let Running::AbortsIn {
            wanting: true,
            given,
        } = self.running
        {
            if self.prepare().is_err() {
                return Drove::Memory;
            }
            self.drain(given);
            return Drove::Applied;
        }
        let Phase::Sending { .. } = self.side.phase() else {
            return Drove::NotEnabled;
        };
        if self.prepare().is_err() {
            return Drove::Memory;
        }
        self.fill_first(&first, packets);
        Drove::Applied
    }

    /// An abort gets the packet that it wants: one of length 0, which ends the transfer and the submit.
    fn drain(&mut self, given: u32)
        requires ready { IsReady self.old }
        requires there { IsSome (first_of self.old.pipes.bulk_in) }
        requires wanting { running_of self.old.running ≡ AbortsIn true given }
        ensures { Makes (Fill 1) (seen_of self.old) (seen_of self.new) }
    {
        end_first(&mut self.pipes, &mut self.outputs, BULK_IN, SUCCESS);
        self.side.end();
        self.running = Running::AbortsIn {
            wanting: false,
            given,
        };
    }

    /// Packets of the piece go into the first submit, up to the one that completes it.
    fn fill_first(&mut self, first: &Pending, packets: u32)
        requires ready { IsReady self.old }
        requires some { 0 < packets }
        requires sending { IsSending self.old.side }
        requires none_wanted { NoPacketWanted (running_of self.old.running) }
        requires first { first_of self.old.pipes.bulk_in ≡ Some first.now }
        ensures { Makes (Fill (min packets (packets_due (state_of self.old)))) (seen_of self.old) (seen_of self.new) }
    {
        let room = (first.head.length - first.moved) as usize;
        let left = self.side.left().len();
        let count = (packets as usize)
            .min(left / PACKET_SIZE + 1)
            .min(packets_of(room));
        let size = count * PACKET_SIZE;
        if size <= left && size < room {
            self.give(size);
        } else if size <= left && size == room {
            self.fill_up(size);
        } else if size > left && left <= room {
            self.end_piece(left);
        } else {
            self.overflow(size - PACKET_SIZE);
        }
    }

    /// The next bytes of the piece go into the first submit.
    fn give(&mut self, size: usize)
        requires sending { IsSending self.old.side }
        requires left { size ≤ length (left_in self.old.side) }
        requires room { HasRoom size (first_of self.old.pipes.bulk_in) }
        ensures { Gives size self.old self.new }
    {
        self.pipes.give_in(BULK_IN, &self.side.left()[..size]);
        self.side.pass(size);
    }

    /// Full packets fill the submit.
    fn fill_up(&mut self, size: usize)
        requires sending { IsSending self.old.side }
        requires left { size ≤ length (left_in self.old.side) }
        requires room { HasRoom size (first_of self.old.pipes.bulk_in) }
        requires outputs { 0 < self.old.outputs.room }
        ensures { FillsUp size self.old self.new }
    {
        self.give(size);
        end_first(&mut self.pipes, &mut self.outputs, BULK_IN, SUCCESS);
    }

    /// The rest of the piece, whose last packet is a short one: it ends the piece and the submit.
    fn end_piece(&mut self, left: usize)
        requires sending { IsSending self.old.side }
        requires left { left ≡ length (left_in self.old.side) }
        requires room { HasRoom left (first_of self.old.pipes.bulk_in) }
        requires outputs { 0 < self.old.outputs.room }
        ensures { EndsPiece left self.old self.new }
    {
        self.give(left);
        end_first(&mut self.pipes, &mut self.outputs, BULK_IN, SUCCESS);
        self.side.end();
    }

    /// Behind these bytes comes a packet that the submit has no room for: Bulk-IN halts.
    fn overflow(&mut self, size: usize)
        requires sending { IsSending self.old.side }
        requires left { size ≤ length (left_in self.old.side) }
        requires room { HasRoom size (first_of self.old.pipes.bulk_in) }
        requires first { FirstBegins self.old.pipes.bulk_in }
        requires outputs { length self.old.pipes.bulk_in ≤ self.old.outputs.room }
        ensures { Overflows size self.old self.new }
    {
        self.give(size);
        self.halts(BULK_IN);
    }
}
