ghost use Rattle.std.specs.Prelude.{◌≡◌, ◌≢◌, ◌⊎◌, ◌%◌, ◌<◌, ◌≤◌, ◌∷◌, List, length, take, MatchOption, MatchBool};
ghost use Rattle.tmc_wire.specs.Standard.{header_size};
ghost use Rattle.tmc_wire.specs.Header.{IsOutHeader};
ghost use Rattle.tmc_wire.specs.Transfer.{data_size};
ghost use Rattle.tmc_law.specs.Endpoint.{packet_size};
ghost use Rattle.tmc_law.specs.State.{Pending as Submit, transfer_size};
ghost use Rattle.tmc_law.specs.BulkOut.{HeaderRefused};
ghost use Rattle.endpoint_pipes.specs.Outcome.{left_of};
ghost use Rattle.tmc_device.specs.Parts.{taken_in};
ghost use Rattle.tmc_device.specs.Judged.{HasPlace, Suits};
ghost use Rattle.tmc_device.specs.Sound.{IsSound};

use crate::body::Body;
use crate::endpoints::PACKET_SIZE;
use crate::transfer::{MESSAGE_MAX, out_len};
use endpoint_pipes::Pending;
use tmc_wire::{BULK_HEADER, OutHeader, headers_are_read_again, read_out};

impl Body {
    ghost use Rattle.tmc_device.specs.Body.{state_of, transfer_in, IsJudged};

    /// The header of the transfer that the next packet of the first Bulk-OUT submit belongs to; none where its header or its
    /// length is refused.
    pub(crate) fn judge(&self, first: &Pending) -> Option<OutHeader>
        requires sound { IsSound (state_of self.now) }
        ensures { (submit : Submit) (behind : List Submit) → self.now.pipes.bulk_out ≡ submit ∷ behind →
            first.now ≡ record { head = submit.head; moved = length submit.moved } → IsJudged self.now submit result }
    {
        headers_are_read_again();
        match self.transfer.header() {
            Some(header) => self.accept(header, first),
            None => match self.read_header() {
                Some(header) => self.accept(header, first),
                None => None,
            },
        }
    }

    /// The header, where the length of the first Bulk-OUT submit suits its transfer.
    fn accept(&self, header: OutHeader, first: &Pending) -> Option<OutHeader>
        requires { length (taken_in (transfer_in self.now)) ≤ transfer_size (data_size header) }
        ensures { (submit : Submit) → first.now ≡ record { head = submit.head; moved = length submit.moved } →
            Suits submit (record { header = header; taken = taken_in (transfer_in self.now) }) result }
    {
        let wanted = out_len(header) - self.taken_len();
        let length = first.head.length as usize;
        if first.moved == 0 && misfits(length, wanted) {
            return None;
        }
        Some(header)
    }

    /// How many bytes of the transfer in progress were taken.
    pub(crate) fn taken_len(&self) -> usize
        ensures { result ≡ length (taken_in (transfer_in self.now)) }
    {
        match self.transfer.header() {
            Some(_) => BULK_HEADER + self.exchange.coming().len(),
            None => 0,
        }
    }

    /// The header at the next packet, where it is accepted.
    fn read_header(&self) -> Option<OutHeader>
        ensures { MatchOption result
            (HeaderRefused (state_of self.now) (left_of self.now.pipes.bulk_out))
            (λ header. (¬ HeaderRefused (state_of self.now) (left_of self.now.pipes.bulk_out))
            × IsOutHeader header (take header_size (left_of self.now.pipes.bulk_out))) }
    {
        let header = match read_out(self.pipes.rest_out()) {
            Ok(header) => header,
            Err(_) => return None,
        };
        if !self.side.is_idle() {
            return None;
        }
        if !self.has_place(header) {
            return None;
        }
        Some(header)
    }

    /// Whether what this header begins may come behind the unfinished message.
    fn has_place(&self, header: OutHeader) -> bool
        ensures { MatchBool result (HasPlace header self.now.exchange.held.part) (¬ HasPlace header self.now.exchange.held.part) }
    {
        let unfinished = self.exchange.part().len();
        match header {
            OutHeader::Message { size, .. } => unfinished + size as usize <= MESSAGE_MAX,
            OutHeader::Request { .. } | OutHeader::Trigger { .. } => unfinished == 0,
        }
    }
}

/// Whether a submit of this length is longer than what a transfer wants, or ends inside it with a short packet.
fn misfits(length: usize, wanted: usize) -> bool
    ensures { MatchBool result
        ((wanted < length) ⊎ ((length < wanted) × (length % packet_size ≢ 0)))
        (¬ ((wanted < length) ⊎ ((length < wanted) × (length % packet_size ≢ 0)))) }
{
    length > wanted || length < wanted && length % PACKET_SIZE != 0
}
