use thiserror::Error;
use tmc_base::Memory;

/// Why what arrives is not taken in.
#[derive(Clone, Copy, Debug, PartialEq, Eq, Error)]
pub enum DeviceFault {
    /// So many submits are pending as may be.
    #[error("256 submits are pending; wait for an answer, or unlink one")]
    Full,
    /// A submit with this number is pending.
    #[error("a submit with this number is pending; number the submits anew")]
    Twice,
    #[error("out of memory; free some and try again")]
    Memory,
}
