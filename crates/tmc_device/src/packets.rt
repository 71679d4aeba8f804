ghost use Rattle.std.specs.Prelude.{◌≡◌, false, ◌<◌, ◌++◌, ◌∷◌, [], length, drop, MatchOption};
ghost use Rattle.instr_plain.specs.Standing.{Standing, polled_byte};
ghost use Rattle.tmc_law.specs.State.{StatusPacket};
ghost use Rattle.tmc_law.specs.Logging.{with_service, is_queued, is_service as law_service};
ghost use Rattle.tmc_law.specs.Status.{is_status as law_status};
ghost use Rattle.tmc_law.specs.Reached.{AreFew};
ghost use Rattle.tmc_device.specs.Parts.{packet_of};

use std::marker::Model;

/// RQS in the status byte that a poll reads (IEEE 488.2, section 11.2.2.1).
const RQS: u8 = 64;

/// A packet on Interrupt-IN (USB488 1.0, section 3.4).
#[derive(Clone, Copy, Debug, PartialEq, Eq)]
pub(crate) enum Packet {
    /// The status byte for the request with this tag.
    Status { tag: u8, byte: u8 },
    /// A request for service, with the status byte.
    Service { byte: u8 },
}

/// The packets that are queued for Interrupt-IN: at most one of each kind.
#[derive(Drop)]
pub(crate) struct Packets {
    first: Option<Packet>,
    /// There is none without a first.
    second: Option<Packet>,
}

impl Model for Packets {
    ghost use Rattle.std.specs.Prelude.{List};
    ghost use Rattle.tmc_law.specs.State.{Packet};

    ghost Value = { List Packet };

    ghost use Rattle.tmc_device.specs.Parts.{packets_of};

    ghost view = { λ a. packets_of a.first a.second };
}

impl Packets {
    pub(crate) fn new() -> Packets
        ensures { result ≡ [] }
    {
        Packets {
            first: None,
            second: None,
        }
    }

    /// The first packet.
    pub(crate) fn first(&self) -> Option<Packet>
        ensures { MatchOption result (self.now ≡ []) (λ first. self.now ≡ packet_of first ∷ drop 1 self.now) }
    {
        self.first
    }

    /// The first packet leaves the queue.
    pub(crate) fn drop_first(&mut self)
        ensures { self.new ≡ drop 1 self.old }
    {
        if self.first.is_some() {
            self.first = self.second;
            self.second = None;
        }
    }

    /// Whether a packet with the status byte for a request is queued.
    pub(crate) fn has_status(&self) -> bool
        ensures { result ≡ is_queued law_status self.now }
    {
        is_status(self.first) || self.first.is_some() && is_status(self.second)
    }

    /// Whether a request for service is queued.
    fn has_service(&self) -> bool
        ensures { result ≡ is_queued law_service self.now }
    {
        is_service(self.first) || self.first.is_some() && is_service(self.second)
    }

    /// A packet joins the queue.
    fn push(&mut self, packet: Packet)
        requires { length self.old < 2 }
        ensures { self.new ≡ self.old ++ packet_of packet ∷ [] }
    {
        match self.first {
            None => {
                self.first = Some(packet);
                self.second = None;
            }
            Some(_) => self.second = Some(packet),
        }
    }

    /// The status byte for the request with this tag joins the queue.
    pub(crate) fn push_status(&mut self, tag: u8, byte: u8)
        requires { length self.old < 2 }
        ensures { self.new ≡ self.old ++ StatusPacket tag byte ∷ [] }
    {
        self.push(Packet::Status { tag, byte });
    }

    /// The status byte was `before`, and is `after`. Where RQS became set a request for service joins, unless one is
    /// queued.
    pub(crate) fn notice(&mut self, before: u8, after: u8)
        requires { AreFew self.old }
        ensures { (old new : Standing) → before ≡ polled_byte old → after ≡ polled_byte new → self.new ≡ with_service old new self.old }
    {
        if before < RQS && after >= RQS && !self.has_service() {
            self.push(Packet::Service { byte: after });
        }
    }
}

fn is_status(packet: Option<Packet>) -> bool
    ensures { MatchOption packet (result ≡ false) (λ p. result ≡ law_status (packet_of p)) }
{
    matches!(packet, Some(Packet::Status { .. }))
}

fn is_service(packet: Option<Packet>) -> bool
    ensures { MatchOption packet (result ≡ false) (λ p. result ≡ law_service (packet_of p)) }
{
    matches!(packet, Some(Packet::Service { .. }))
}
