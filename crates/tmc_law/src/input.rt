use usbip_wire::{SubmitHead, UnlinkHead};

/// What arrives at a device.
#[derive(Clone, Copy, Debug, PartialEq, Eq)]
pub enum Input {
    /// A submit, whose data follows where it is OUT.
    Submit(SubmitHead),
    /// An unlink of a submit.
    Unlink(UnlinkHead),
}
