//! The endpoints of the instrument, by number, and the numbers of its descriptors.

use usb_setup::Ends;

/// The control endpoint.
pub(crate) const CONTROL: u8 = 0;

/// The Bulk-OUT endpoint.
pub(crate) const BULK_OUT: u8 = 1;

/// The Bulk-IN endpoint.
pub(crate) const BULK_IN: u8 = 2;

/// The Interrupt-IN endpoint.
pub(crate) const INTERRUPT_IN: u8 = 3;

/// The bytes of a full packet of the bulk endpoints (wMaxPacketSize).
pub(crate) const PACKET_SIZE: usize = 64;

/// The statuses of answers: 0, or a negated error number of Linux.
pub(crate) const SUCCESS: i32 = 0;

/// EPIPE: the endpoint stalled, or is halted.
pub(crate) const STALLED: i32 = -32;

/// ECONNRESET: the submit was unlinked.
pub(crate) const UNLINKED: i32 = -104;

/// ESHUTDOWN: the device was unplugged.
pub(crate) const UNPLUGGED: i32 = -108;

/// What the instrument's descriptors say of its interface and its endpoints.
pub(crate) const ENDS: Ends = Ends {
    configuration: 1,
    interface: 0,
    protocol: 1,
    bulk_out: 0x01,
    bulk_in: 0x82,
    notify: Some(0x83),
    notify_size: 8,
};
