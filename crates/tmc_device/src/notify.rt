ghost use Rattle.std.specs.Prelude.{◌≡◌, ◌∷◌, false, Some, drop};
ghost use Rattle.tmc_law.specs.declared.dev_event.DevEvent.TheVariants as event;
ghost use Rattle.tmc_law.specs.Status.{packet_bytes as law_bytes};
ghost use Rattle.tmc_law.specs.Step.{Notify};
ghost use Rattle.endpoint_pipes.specs.Outcome.{first_of};
ghost use Rattle.tmc_device.specs.Parts.{packet_of, IsTagged};
ghost use Rattle.tmc_device.specs.Sound.{IsSound};
ghost use Rattle.tmc_device.specs.Seen.{Makes};
ghost use Rattle.tmc_device.specs.Events.{Does};

use crate::Drove;
use crate::body::Body;
use crate::endpoints::{INTERRUPT_IN, SUCCESS};
use crate::packets::Packet;
use endpoint_pipes::Pending;

/// The bytes of a packet on Interrupt-IN (USB488 1.0, section 3.4).
const PACKET_BYTES: u32 = 2;

/// bNotify1 of a status packet is this and the tag.
const STATUS_PACKET: u8 = 0x80;

/// bNotify1 of a request for service.
const SERVICE_PACKET: u8 = 0x81;

/// bNotify1 and bNotify2.
fn packet_bytes(packet: Packet) -> [u8; 2]
    requires { IsTagged packet }
    ensures { result ≡ law_bytes (packet_of packet) }
{
    match packet {
        Packet::Status { tag, byte } => [STATUS_PACKET + tag, byte],
        Packet::Service { byte } => [SERVICE_PACKET, byte],
    }
}

impl Body {
    ghost use Rattle.tmc_device.specs.Body.{state_of, seen_of, IsReady};

    /// Puts the first queued packet into the first Interrupt-IN submit.
    pub(crate) fn notify(&mut self) -> Drove
        requires sound { IsSound (state_of self.old) }
        requires plugged { self.old.unplugged ≡ false }
        ensures { Does event.Notify (seen_of self.old) result (seen_of self.new) }
    {
        let Some(packet) = self.packets.first() else {
            return Drove::NotEnabled;
        };
        let Some(first) = self.pipes.first(INTERRUPT_IN) else {
            return Drove::NotEnabled;
        };
        let Ok(bytes) = Vec::from_slice(self.alloc, &packet_bytes(packet)) else {
            return Drove::Memory;
        };
        if self.prepare().is_err() {
            return Drove::Memory;
        }
        self.notify_first(&first, packet, bytes);
        Drove::Applied
    }

    /// The first packet is given, or Interrupt-IN halts where its first submit has no room for it.
    fn notify_first(&mut self, first: &Pending, packet: Packet, bytes: Vec<u8>)
        requires ready { IsReady self.old }
        requires first { first_of self.old.pipes.interrupt_in ≡ Some first.now }
        requires packet { self.old.packets ≡ packet_of packet ∷ drop 1 self.old.packets }
        requires bytes { bytes.items ≡ law_bytes (packet_of packet) }
        ensures { Makes Notify (seen_of self.old) (seen_of self.new) }
    {
        if first.head.length < PACKET_BYTES {
            self.halts(INTERRUPT_IN);
            return;
        }
        self.pipes.answer(INTERRUPT_IN);
        self.outputs
            .answer(first.head, SUCCESS, PACKET_BYTES, bytes);
        self.packets.drop_first();
    }
}
