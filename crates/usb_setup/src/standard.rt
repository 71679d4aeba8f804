//! The numbers of USB 2.0, chapter 9, and of the USBTMC class.

/// bDescriptorType of a device descriptor: table 9-5.
pub(crate) const DEVICE: u8 = 1;
/// bDescriptorType of a configuration descriptor: table 9-5.
pub(crate) const CONFIGURATION: u8 = 2;
/// bDescriptorType of an interface descriptor: table 9-5.
pub(crate) const INTERFACE: u8 = 4;
/// bDescriptorType of an endpoint descriptor: table 9-5.
pub(crate) const ENDPOINT: u8 = 5;

/// The size of what every descriptor begins with, bLength and bDescriptorType: section 9.5.
pub(crate) const HEAD_SIZE: u8 = 2;
/// The size of a device descriptor: table 9-8.
pub(crate) const DEVICE_SIZE: u8 = 18;
/// The size of a configuration descriptor: table 9-10.
pub(crate) const CONFIGURATION_SIZE: u8 = 9;
/// The size of an interface descriptor: table 9-12.
pub(crate) const INTERFACE_SIZE: u8 = 9;
/// The size of an endpoint descriptor: table 9-13.
pub(crate) const ENDPOINT_SIZE: u8 = 7;

/// The bits of bmAttributes that are an endpoint's transfer type: table 9-13.
pub(crate) const TRANSFER_TYPE: u8 = 0x03;

pub(crate) const BULK: u8 = 2;

pub(crate) const INTERRUPT: u8 = 3;

/// The bit of bEndpointAddress that is an endpoint's direction: table 9-13.
pub(crate) const DIRECTION: u8 = 0x80;

pub(crate) const OUT: u8 = 0x00;

pub(crate) const IN: u8 = 0x80;

/// bInterfaceClass of a USBTMC interface: application specific.
pub(crate) const TMC_CLASS: u8 = 0xFE;
/// bInterfaceSubClass of a USBTMC interface.
pub(crate) const TMC_SUBCLASS: u8 = 0x03;
/// bInterfaceProtocol of a USBTMC interface without a further protocol.
pub(crate) const USBTMC: u8 = 0;
/// bInterfaceProtocol of a USBTMC interface that speaks USB488.
pub(crate) const USB488: u8 = 1;
