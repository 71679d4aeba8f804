use crate::End;
use thiserror::Error;
use tmc_base::Memory;

/// Why nothing was asked. The causes are tried in this order, and the first is answered.
#[derive(Clone, Copy, Debug, PartialEq, Eq, Error)]
pub enum AskFault {
    /// The hub has ended.
    #[error("the link to the instrument has ended ({0:?}); open a new one")]
    Down(End),
    /// The session is above 15.
    #[error("there is no such session; sessions are numbered 0 to 15")]
    NoSession,
    /// The call needs USB488, and the interface's protocol is 0.
    #[error("the instrument's interface is USBTMC without USB488; send a message in place of this request")]
    No488,
    /// The message has no bytes.
    #[error("the message is empty; a message has 1 to 4,096 bytes")]
    EmptyMessage,
    /// The message has more than 4,096 bytes.
    #[error("the message is too long; a message has 1 to 4,096 bytes")]
    LongMessage,
    /// The limit is 0 or above 65,535.
    #[error("no such limit may be; a response may have 1 to 65,535 bytes")]
    BadLimit,
    /// There are 65,536 tickets, or the summed limits with this one pass 268,435,456 bytes.
    #[error("the book is full; open a new link")]
    Full,
    /// Fewer than 4,096 sequence numbers of submits are left.
    #[error("the link has used up its sequence numbers; open a new one")]
    Exhausted,
    #[error("out of memory; free some and try again")]
    Memory,
}

impl From<Memory> for AskFault {
    ghost use Rattle.std.specs.Prelude.{◌≡◌};
    ghost use Rattle.host_hub.specs.declared.refusals.AskFault.TheVariants.{Memory as no_memory};

    ghost from_gives = { λ _ fault. fault ≡ no_memory };

    fn from(_memory: Memory) -> AskFault {
        AskFault::Memory
    }
}

/// Why nothing was cleared. The causes are tried in this order, and the first is answered.
#[derive(Clone, Copy, Debug, PartialEq, Eq, Error)]
pub enum ClearFault {
    /// The hub has ended.
    #[error("the link to the instrument has ended ({0:?}); open a new one")]
    Down(End),
    /// The session is above 15.
    #[error("there is no such session; sessions are numbered 0 to 15")]
    NoSession,
    #[error("out of memory; free some and try again")]
    Memory,
}

impl From<Memory> for ClearFault {
    ghost use Rattle.std.specs.Prelude.{◌≡◌};
    ghost use Rattle.host_hub.specs.declared.refusals.ClearFault.TheVariants.{Memory as no_memory};

    ghost from_gives = { λ _ fault. fault ≡ no_memory };

    fn from(_memory: Memory) -> ClearFault {
        ClearFault::Memory
    }
}
