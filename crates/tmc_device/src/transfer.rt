ghost use Rattle.std.specs.Prelude.{◌≡◌, ℕ, List, length, Some, None};
ghost use Rattle.tmc_wire.specs.Standard.{header_size};
ghost use Rattle.tmc_wire.specs.Transfer.{data_size};
ghost use Rattle.tmc_law.specs.State.{State, transfer_size};
ghost use Rattle.tmc_law.specs.Aborts.{out_tag};
ghost use Rattle.tmc_device.specs.Parts.{Opening, header_in, transfer_of};

use std::marker::Model;
use tmc_wire::{BULK_HEADER, OutHeader};

/// The most bytes of a program message.
pub(crate) const MESSAGE_MAX: usize = 4_096;

/// The header of the Bulk-OUT transfer in progress (USBTMC 1.0, section 3.2), as it is read and as it came. What came behind
/// it is with the exchange.
#[derive(Drop)]
pub(crate) struct OutTransfer {
    header: Option<OutHeader>,
    bytes: [u8; BULK_HEADER],
}

impl Model for OutTransfer {
    ghost use Rattle.std.specs.Prelude.{Option};
    ghost use Rattle.tmc_device.specs.Parts.{Opening, opening_of};

    ghost Value = { Option Opening };

    ghost view = { λ a. opening_of a.header a.bytes };
}

impl OutTransfer {
    /// None is in progress.
    pub(crate) fn new() -> OutTransfer
        ensures { result ≡ None }
    {
        OutTransfer {
            header: None,
            bytes: [0; BULK_HEADER],
        }
    }

    /// The header of the transfer in progress.
    pub(crate) fn header(&self) -> Option<OutHeader>
        ensures header { result ≡ header_in self.now }
        ensures bytes { (opening : Opening) → self.now ≡ Some opening → length opening.bytes ≡ header_size }
    {
        self.header
    }

    /// Its tag, where one is in progress.
    pub(crate) fn tag(&self) -> Option<u8>
        ensures { (s : State) (coming : List ℕ) → s.transfer ≡ transfer_of self.now coming → result ≡ out_tag s }
    {
        match self.header? {
            OutHeader::Message { tag, .. }
            | OutHeader::Request { tag, .. }
            | OutHeader::Trigger { tag } => Some(tag),
        }
    }

    /// A transfer begins with this header.
    pub(crate) fn begin(&mut self, header: OutHeader, bytes: &[u8])
        requires { length bytes.now ≡ header_size }
        ensures { self.new ≡ Some (record { header = header; bytes = bytes.now }) }
    {
        self.header = Some(header);
        self.bytes.copy_from_slice(bytes);
    }

    /// None is in progress any more.
    pub(crate) fn clear(&mut self)
        ensures { self.new ≡ None }
    {
        self.header = None;
    }
}

/// How many bytes of data follow a header.
fn data_len(header: OutHeader) -> usize
    ensures { result ≡ data_size header }
{
    match header {
        OutHeader::Message { size, .. } => size as usize,
        OutHeader::Request { .. } | OutHeader::Trigger { .. } => 0,
    }
}

/// The bytes of a transfer with this header, up to a multiple of 4.
pub(crate) fn out_len(header: OutHeader) -> usize
    ensures { result ≡ transfer_size (data_size header) }
{
    let size = data_len(header);
    BULK_HEADER + size + (4 - size % 4) % 4
}
