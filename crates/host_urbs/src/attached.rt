use thiserror::Error;
use tmc_base::{Field, Memory};
use usb_setup::{DescFault, Ends};

/// An imported device that is set to its configuration.
#[derive(Clone, Copy, Debug, PartialEq, Eq)]
pub struct Attached {
    /// The device's number on the wire, for each submit and unlink.
    pub devid: u32,
    /// Its USBTMC interface.
    pub ends: Ends,
    /// The number of the next submit or unlink.
    pub next: u32,
}

/// Why a device was not attached: the first event of the call that forbids it.
#[derive(Clone, Copy, Debug, PartialEq, Eq, Error)]
pub enum AttachFault {
    /// A send or a poll failed, and the link's count of faults rose.
    #[error("the link to the server failed; check the connection and attach again")]
    LinkFault,
    /// The server closed the link.
    #[error("the server closed the link; check that it runs and attach again")]
    Closed,
    /// What the server sent is refused at this field.
    #[error("the server's answer is no USB/IP answer; check that it speaks USB/IP 1.1.1")]
    Bad(Field),
    /// The import was answered with this status.
    #[error("the server has no such device to give, status {0}; check the bus id and that no one else has the device")]
    NoDevice(u32),
    /// A submit was answered with this status.
    #[error("the device did not answer its set-up, status {0}; plug it in again")]
    DeviceFault(i32),
    /// The configuration descriptor has no usable USBTMC interface.
    #[error("the device is no usable USBTMC instrument; check which device has this bus id")]
    Desc(DescFault),
    /// All calls were made, and the device is not set to its configuration.
    #[error("the server took too long; attach again with more turns")]
    Spent,
    #[error("out of memory; free some and try again")]
    Memory,
}

impl From<Memory> for AttachFault {
    ghost use Rattle.host_urbs.specs.declared.attached.AttachFault.TheVariants as fault;
    ghost use Rattle.std.specs.Prelude.{◌≡◌};

    ghost from_gives = { λ memory why. why ≡ fault.Memory };

    fn from(_memory: Memory) -> AttachFault {
        AttachFault::Memory
    }
}
