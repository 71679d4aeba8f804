ghost use Rattle.std.specs.Prelude.{◌≡◌, ℕ, ◌+◌, ◌<◌, ◌≤◌, [], length, false};
ghost use Rattle.tmc_law.specs.declared.dev_event.DevEvent.TheVariants as event;
ghost use Rattle.tmc_law.specs.State.{Owed};
ghost use Rattle.tmc_law.specs.BulkIn.{NoAbortIn};
ghost use Rattle.tmc_law.specs.Step.{Begin};
ghost use Rattle.tmc_device.specs.Parts.{running_of};
ghost use Rattle.tmc_device.specs.Sound.{IsSound};
ghost use Rattle.tmc_device.specs.Seen.{Makes};
ghost use Rattle.tmc_device.specs.Events.{Does};

use crate::Drove;
use crate::body::Body;
use crate::running::Running;
use crate::side::Phase;
use bytes::BytesMut;
use tmc_wire::{BULK_HEADER, InHeader, in_bytes};

/// The most bytes of a piece's transfer beside its data: the header, and the alignment.
const AROUND_MAX: usize = BULK_HEADER + 3;

impl Body {
    ghost use Rattle.tmc_device.specs.Body.{state_of, seen_of, IsReady};

    /// Begins a piece of so many bytes of the response that was requested.
    pub(crate) fn begin(&mut self, most: u32) -> Drove
        requires sound { IsSound (state_of self.old) }
        requires plugged { self.old.unplugged ≡ false }
        ensures { Does (event.Begin most) (seen_of self.old) result (seen_of self.new) }
    {
        let Phase::Owed { tag, size } = self.side.phase() else {
            return Drove::NotEnabled;
        };
        if matches!(self.running, Running::AbortsIn { .. }) {
            return Drove::NotEnabled;
        }
        let count = most.min(size).min(self.exchange.unread().len() as u32);
        if count == 0 {
            return Drove::NotEnabled;
        }
        let Ok(transfer) = BytesMut::with_capacity(self.alloc, count as usize + AROUND_MAX) else {
            return Drove::Memory;
        };
        if self.prepare().is_err() {
            return Drove::Memory;
        }
        self.begin_piece(tag, count, transfer);
        Drove::Applied
    }

    /// A piece begins: its header, so many bytes of the response, and zeros up to a multiple of 4.
    fn begin_piece(&mut self, tag: u8, count: u32, mut transfer: BytesMut)
        requires ready { IsReady self.old }
        requires owed { (size : ℕ) × (self.old.side ≡ Owed tag size) × (count ≤ size) }
        requires tagged { 0 < tag }
        requires no_abort { NoAbortIn (running_of self.old.running) }
        requires some { 0 < count }
        requires unread { count ≤ length self.old.exchange.held.standing.unread }
        requires empty { transfer.items ≡ [] }
        requires spare { count + 15 ≤ transfer.spare }
        ensures { Makes (Begin count) (seen_of self.old) (seen_of self.new) }
    {
        let before = self.exchange.status();
        let size = count as usize;
        let eom = size == self.exchange.unread().len();
        transfer.extend_reserved(&in_bytes(InHeader {
            tag,
            size: count,
            eom,
        }));
        self.exchange.give(size, &mut transfer);
        transfer.extend_reserved(&[0; 3][..(4 - size % 4) % 4]);
        self.side.send(tag, count, transfer);
        self.packets.notice(before, self.exchange.status());
    }
}
