use crate::{OpRequest, SubmitHead, UnlinkHead};
use tmc_base::Field;

/// What a client's bytes gave.
#[derive(Clone, Copy, Debug, PartialEq, Eq)]
pub enum Up {
    /// An operation's request is whole.
    Op(OpRequest),
    /// A submit is whole, with its data.
    Submit(SubmitHead),
    /// An unlink is whole.
    Unlink(UnlinkHead),
    /// All bytes were used, and no message is whole.
    More,
    /// This field has no accepted value.
    Bad(Field),
}

/// What the client sends now.
#[derive(Clone, Copy, Debug, PartialEq, Eq)]
pub(crate) enum UpPhase {
    /// Operations, until a device is imported.
    Ops,
    /// URB messages to the imported device.
    Urbs { devid: u32 },
}

/// What feeding a piece gave. `used` bytes of it were taken, up to the end of the message.
#[derive(Clone, Copy, Debug, PartialEq, Eq)]
pub struct UpStep {
    pub used: usize,
    pub what: Up,
}
