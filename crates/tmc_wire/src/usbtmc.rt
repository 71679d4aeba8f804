//! The numbers of USBTMC 1.0.

/// The bytes of a bulk header: table 1.
pub const BULK_HEADER: usize = 12;

/// MsgID of a message to the device: table 2.
pub(crate) const DEV_DEP_MSG_OUT: u8 = 1;

/// MsgID of a request of a message from the device: table 2.
pub(crate) const REQUEST_DEV_DEP_MSG_IN: u8 = 2;

/// MsgID of a message from the device: table 2.
pub(crate) const DEV_DEP_MSG_IN: u8 = 2;

/// The bit of bmTransferAttributes that says that the last byte of the data ends the message: tables 3 and 9.
pub(crate) const EOM: u8 = 0x01;

/// bmRequestType of a class request to an endpoint that the device answers with data: section 4.2.1.
pub(crate) const OF_ENDPOINT: u8 = 0xA2;

/// bmRequestType of a class request to the interface that the device answers with data: section 4.2.1.
pub(crate) const OF_INTERFACE: u8 = 0xA1;

// bRequest of each request: table 15

pub(crate) const INITIATE_ABORT_BULK_OUT: u8 = 1;

pub(crate) const CHECK_ABORT_BULK_OUT_STATUS: u8 = 2;

pub(crate) const INITIATE_ABORT_BULK_IN: u8 = 3;

pub(crate) const CHECK_ABORT_BULK_IN_STATUS: u8 = 4;

pub(crate) const INITIATE_CLEAR: u8 = 5;

pub(crate) const CHECK_CLEAR_STATUS: u8 = 6;

pub(crate) const GET_CAPABILITIES: u8 = 7;

pub(crate) const INDICATOR_PULSE: u8 = 64;

// USBTMC_status, the first byte of each answer to a class request: table 16

/// The request was carried out.
pub const STATUS_SUCCESS: u8 = 0x01;

/// A check's transaction has not ended yet.
pub const STATUS_PENDING: u8 = 0x02;

/// The request was not carried out, for a reason that no other status names.
pub const STATUS_FAILED: u8 = 0x80;

/// An abort named another transfer than the one in progress.
pub const STATUS_TRANSFER_NOT_IN_PROGRESS: u8 = 0x81;

/// A check came while no transaction of its kind runs.
pub const STATUS_SPLIT_NOT_IN_PROGRESS: u8 = 0x82;

/// A request came while a transaction that must end first runs.
pub const STATUS_SPLIT_IN_PROGRESS: u8 = 0x83;

/// The bytes of an answer that is USBTMC_status alone: sections 4.2.1.6 and 4.2.1.9, and USB488 1.0 sections 4.3.2 to
/// 4.3.4.
pub(crate) const STATUS_ANSWER: u16 = 1;

/// The bytes of an answer to the two requests that begin an abort: sections 4.2.1.2 and 4.2.1.4.
pub(crate) const ABORT_ANSWER: u16 = 2;

/// The bytes of an answer to the two requests that check an abort: sections 4.2.1.3 and 4.2.1.5.
pub(crate) const CHECK_ANSWER: u16 = 8;

/// The bytes of an answer to CHECK_CLEAR_STATUS: section 4.2.1.7.
pub(crate) const CHECK_CLEAR_ANSWER: u16 = 2;

/// The bytes of an answer to GET_CAPABILITIES: section 4.2.1.8.
pub(crate) const CAPABILITIES_ANSWER: u16 = 24;
