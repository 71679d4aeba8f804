//! Status reporting (IEEE 488.2, section 11).

ghost use Rattle.std.specs.Prelude.{◌≡◌, ◌<◌, ◌^◌};
ghost use Rattle.instr_plain.specs.Status.{summary_byte, enabled, requests_service, status_byte, request_behind, with_event};

use crate::Plain;

/// The bits of the standard event status register that the instrument sets (section 11.5.1.1).
pub(crate) const OPERATION_COMPLETE: u8 = 1 << 0;

pub(crate) const QUERY_ERROR: u8 = 1 << 2;

pub(crate) const EXECUTION_ERROR: u8 = 1 << 4;

pub(crate) const COMMAND_ERROR: u8 = 1 << 5;

pub(crate) const POWER_ON: u8 = 1 << 7;

/// Bits of the status byte (section 11.2.1).
const MESSAGE_AVAILABLE: u8 = 1 << 4;

const EVENT_SUMMARY: u8 = 1 << 5;

const REQUEST: u8 = 1 << 6;

impl Plain {
    ghost use Rattle.std.specs.Prelude.{◌≡◌};

    /// Sets a bit of the standard event status register.
    pub(crate) fn set_event(&mut self, bit: u8)
        ensures { self.new ≡ with_event bit self.old }
    {
        self.esr |= bit;
    }

    /// The status byte without bit 6.
    fn summary(&self, available: bool) -> u8
        ensures value { result ≡ summary_byte self.now available }
        ensures small { result < 64 }
    {
        let message = if available { MESSAGE_AVAILABLE } else { 0 };
        let event = if self.esr & self.ese != 0 {
            EVENT_SUMMARY
        } else {
            0
        };
        message + event
    }

    /// The bits that may request service.
    pub(crate) fn enabled(&self, available: bool) -> u8
        ensures { result ≡ enabled self.now available }
    {
        self.summary(available) & self.sre
    }

    /// MSS, the master summary status (section 11.2.2.2).
    pub(crate) fn requests_service(&self, available: bool) -> bool
        ensures { result ≡ requests_service self.now available }
    {
        self.enabled(available) != 0
    }

    /// The status byte, with MSS or RQS as bit 6.
    pub(crate) fn status_byte(&self, available: bool, request: bool) -> u8
        ensures { result ≡ status_byte self.now available request }
    {
        let bit = if request { REQUEST } else { 0 };
        self.summary(available) + bit
    }
}

/// RQS where these bits were enabled before, and these are now.
pub(crate) fn request_behind(before: u8, now: u8, request: bool) -> bool
    ensures { result ≡ request_behind before now request }
{
    if now == 0 {
        false
    } else if now & before == now {
        request
    } else {
        true
    }
}
