use usbip_wire::{RetSubmitHead, RetUnlinkHead};

/// What a device puts out.
#[derive(Clone, Copy, Debug, PartialEq, Eq)]
pub enum Output {
    /// The answer to a submit, whose data follows where the submit is IN.
    Submit(RetSubmitHead),
    /// The answer to an unlink.
    Unlink(RetUnlinkHead),
}
