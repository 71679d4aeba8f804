ghost use Rattle.std.specs.Prelude.{◌≡◌};

use tmc_base::Memory;
use usbip_wire::SubmitHead;

/// Why a submit is refused.
#[derive(Clone, Copy, Debug, PartialEq, Eq)]
pub enum PipeFault {
    /// So many submits are pending as may be.
    Full,
    /// A submit with this number is pending.
    Twice,
    Memory,
}

impl From<Memory> for PipeFault {
    ghost use Rattle.endpoint_pipes.specs.declared.outcome.PipeFault.TheVariants as fault;

    ghost from_gives = { λ memory given. given ≡ fault.Memory };

    fn from(_memory: Memory) -> PipeFault {
        PipeFault::Memory
    }
}

/// Whether an unlink found its target.
#[derive(Clone, Copy, Debug, PartialEq, Eq)]
pub enum Unlinked {
    Hit,
    Miss,
}

/// A pending submit, and how many bytes of it were moved.
#[derive(Clone, Copy, Debug, PartialEq, Eq)]
pub struct Pending {
    pub head: SubmitHead,
    pub moved: u32,
}

/// What goes into the answer to a submit: its number, how many bytes of it were moved, and, where it is IN, these bytes.
#[derive(Debug, Drop)]
pub struct Over {
    pub seqnum: u32,
    pub actual: u32,
    pub bytes: Vec<u8>,
}
