use crate::{DeviceRecord, RetSubmitHead, RetUnlinkHead};
use tmc_base::Field;

/// What a device's bytes gave. A device list comes as one `Count`, and then for each of its devices one
/// `Device` and as many `Interface` answers as its record says.
#[derive(Clone, Copy, Debug, PartialEq, Eq)]
pub enum Down {
    /// The head of a device list.
    Count {
        status: u32,
        devices: u32,
    },
    /// A device of a list.
    Device(DeviceRecord),
    /// An interface of the last device.
    Interface {
        class: u8,
        subclass: u8,
        protocol: u8,
    },
    /// The answer to an import. The device is there exactly where the status is 0.
    Import {
        status: u32,
        device: Option<DeviceRecord>,
    },
    /// The answer to a submit is whole, with its data.
    RetSubmit(RetSubmitHead),
    /// The answer to an unlink is whole.
    RetUnlink(RetUnlinkHead),
    /// All bytes were used, and no message is whole.
    More,
    /// This field has no accepted value.
    Bad(Field),
}

/// What the device sends now.
#[derive(Clone, Copy, Debug, PartialEq, Eq)]
pub(crate) enum DownPhase {
    /// Operations, where these devices and interfaces of a list are still awaited.
    Ops { devices: u32, interfaces: u8 },
    /// Answers to URB messages.
    Urbs,
}

/// What feeding a piece gave. `used` bytes of it were taken, up to the end of the message.
#[derive(Clone, Copy, Debug, PartialEq, Eq)]
pub struct DownStep {
    pub used: usize,
    pub what: Down,
}

/// What a device record is part of.
#[derive(Clone, Copy, Debug, PartialEq, Eq)]
pub(crate) enum RecordOf {
    List,
    Import,
}

impl RecordOf {
    ghost use Rattle.std.specs.Prelude.{◌≡◌};
    ghost use Rattle.usbip_wire.specs.DownForm.{record_told};

    /// What is told of the record.
    pub(crate) fn told(self, device: DeviceRecord) -> Down
        ensures { result ≡ record_told self device }
    {
        match self {
            RecordOf::List => Down::Device(device),
            RecordOf::Import => Down::Import {
                status: 0,
                device: Some(device),
            },
        }
    }
}

impl DownPhase {
    ghost use Rattle.std.specs.Prelude.{◌≡◌};
    ghost use Rattle.usbip_wire.specs.DownForm.{after};

    /// What is awaited behind this part.
    pub(crate) fn after(self, what: &Down) -> DownPhase
        ensures { result ≡ after self what.now }
    {
        match self {
            DownPhase::Urbs => DownPhase::Urbs,
            DownPhase::Ops {
                devices,
                interfaces,
            } => match *what {
                Down::Count { devices, .. } => DownPhase::Ops {
                    devices,
                    interfaces: 0,
                },
                Down::Device(device) => DownPhase::Ops {
                    devices: devices.saturating_sub(1),
                    interfaces: device.interfaces,
                },
                Down::Interface { .. } => DownPhase::Ops {
                    devices,
                    interfaces: interfaces.saturating_sub(1),
                },
                _ => self,
            },
        }
    }
}
