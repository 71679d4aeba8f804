//! The numbers of USB488 1.0, the subclass of USBTMC for IEEE 488.2 instruments.

/// MsgID of a trigger: table 1.
pub(crate) const TRIGGER: u8 = 128;

// bRequest of each request: table 9

pub(crate) const READ_STATUS_BYTE: u8 = 128;

pub(crate) const REN_CONTROL: u8 = 160;

pub(crate) const GO_TO_LOCAL: u8 = 161;

pub(crate) const LOCAL_LOCKOUT: u8 = 162;

/// bNotify1 of an Interrupt-IN packet that READ_STATUS_BYTE asks for is this and the request's tag: section 3.4.2.
pub(crate) const STATUS_PACKET: u8 = 0x80;

/// USBTMC_status of an answer to READ_STATUS_BYTE: an earlier status packet was not sent yet: table 11.
pub const STATUS_INTERRUPT_IN_BUSY: u8 = 0x20;

/// The bytes of an answer to READ_STATUS_BYTE: section 4.3.1.
pub(crate) const READ_STATUS_ANSWER: u16 = 3;

/// bNotify1 of an Interrupt-IN packet by which the device requests service: section 3.4.1.
pub(crate) const SERVICE_PACKET: u8 = 0x81;

/// bNotify1 of a status packet with the least tag of READ_STATUS_BYTE, 2: sections 3.4.2 and 4.3.1.
pub(crate) const FIRST_STATUS_PACKET: u8 = 0x82;
