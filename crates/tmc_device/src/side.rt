ghost use Rattle.std.specs.Prelude.{◌≡◌, ◌≢◌, ◌≤◌, ℕ, List, length, drop, MatchBool};
ghost use Rattle.tmc_law.specs.State.{State, Idle, Owed, Sending, data_given as law_given};
ghost use Rattle.tmc_law.specs.Aborts.{cut as law_cut, given_of, in_tag};
ghost use Rattle.tmc_device.specs.Parts.{phase_in, left_in, side_of};

use bytes::BytesMut;
use std::alloc::Global;
use std::marker::Model;
use tmc_wire::BULK_HEADER;

/// How far the Bulk-IN transfer in progress is: there is none, it was requested, or a piece of the response is sent.
#[derive(Clone, Copy, Debug, PartialEq, Eq)]
pub(crate) enum Phase {
    Idle,
    /// Requested with this tag, for at most so many bytes.
    Owed { tag: u8, size: u32 },
    /// A piece of so many bytes, for the request with this tag.
    Sending { tag: u8, size: u32 },
}

/// The Bulk-IN transfer in progress (USBTMC 1.0, section 3.3).
#[derive(Drop)]
pub(crate) struct InTransfer {
    phase: Phase,
    /// Of a piece's header, data and alignment the bytes that were not given.
    left: BytesMut,
}

impl Model for InTransfer {
    ghost use Rattle.tmc_law.specs.State.{Side};

    ghost Value = { Side };

    ghost use Rattle.tmc_device.specs.Parts.{side_of};

    ghost view = { λ a. side_of a.phase a.left.items };
}

impl InTransfer {
    /// None is in progress. Takes no memory.
    pub(crate) fn new(alloc: Global) -> InTransfer
        ensures { result ≡ Idle }
    {
        InTransfer {
            phase: Phase::Idle,
            left: BytesMut::new(alloc),
        }
    }

    pub(crate) fn phase(&self) -> Phase
        ensures { result ≡ phase_in self.now }
    {
        self.phase
    }

    pub(crate) fn is_idle(&self) -> bool
        ensures { MatchBool result (self.now ≡ Idle) (self.now ≢ Idle) }
    {
        matches!(self.phase, Phase::Idle)
    }

    /// The bytes of the piece that were not given.
    pub(crate) fn left(&self) -> &[u8]
        ensures { result.now ≡ left_in self.now }
    {
        match self.phase {
            Phase::Sending { .. } => self.left.as_slice(),
            Phase::Idle | Phase::Owed { .. } => &[],
        }
    }

    /// Its tag, where one is in progress.
    pub(crate) fn tag(&self) -> Option<u8>
        ensures { (s : State) → s.side ≡ self.now → result ≡ in_tag s }
    {
        match self.phase {
            Phase::Idle => None,
            Phase::Owed { tag, .. } | Phase::Sending { tag, .. } => Some(tag),
        }
    }

    /// It is over.
    pub(crate) fn end(&mut self)
        ensures { self.new ≡ Idle }
    {
        self.phase = Phase::Idle;
    }

    /// It is requested.
    pub(crate) fn owe(&mut self, tag: u8, size: u32)
        ensures { self.new ≡ Owed tag size }
    {
        self.phase = Phase::Owed { tag, size };
    }

    /// A piece begins: these are the bytes of its transfer.
    pub(crate) fn send(&mut self, tag: u8, size: u32, transfer: BytesMut)
        ensures { self.new ≡ Sending (record { tag = tag; size = size; left = transfer.items }) }
    {
        self.phase = Phase::Sending { tag, size };
        self.left = transfer;
    }

    /// The next bytes of the piece were given.
    pub(crate) fn pass(&mut self, count: usize)
        requires { count ≤ length (left_in self.old) }
        ensures { self.new ≡ side_of (phase_in self.old) (drop count (left_in self.old)) }
    {
        if let Phase::Sending { .. } = self.phase {
            self.left.advance(count);
        }
    }

    /// The bytes of the piece that were not given are dropped. How many bytes of data were given.
    pub(crate) fn cut(&mut self) -> u32
        ensures cut { self.new ≡ law_cut self.old }
        ensures given { result ≡ given_of self.old }
    {
        let Phase::Sending { size, .. } = self.phase else {
            return 0;
        };
        let given = data_given(size, self.left.as_slice().len());
        self.left.clear();
        given
    }
}

/// How many bytes of data were given of a piece of this size, of whose transfer so many bytes are left.
fn data_given(size: u32, left: usize) -> u32
    ensures { (tag : ℕ) (bytes : List ℕ) → left ≡ length bytes → result ≡ law_given (record { tag = tag; size = size; left = bytes }) }
{
    let transfer = BULK_HEADER + size as usize + (4 - size as usize % 4) % 4;
    transfer
        .saturating_sub(left)
        .saturating_sub(BULK_HEADER)
        .min(size as usize) as u32
}
