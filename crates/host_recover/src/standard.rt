//! The numbers of USB 2.0, section 9.4.1, and of the checks of USBTMC 1.0.

/// bmRequestType of a standard request to an endpoint, without data: table 9-2.
pub(crate) const TO_ENDPOINT: u8 = 0x02;

/// bRequest of CLEAR_FEATURE: table 9-4.
pub(crate) const CLEAR_FEATURE: u8 = 1;

/// The feature selector of an endpoint's halt: table 9-6.
pub(crate) const ENDPOINT_HALT: u16 = 0;

/// Bit 0 of bmAbortBulkIn and of bmClear, beside a status PENDING: data waits to be read. USBTMC 1.0, sections 4.2.1.5 and
/// 4.2.1.7.
pub(crate) const DATA_WAITS: u8 = 0x01;
