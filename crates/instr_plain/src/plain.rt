use crate::RemoteState;

/// The instrument's state between two messages.
#[derive(Clone, Copy, Debug, PartialEq, Eq)]
pub struct Plain {
    /// The standard event status register (IEEE 488.2, section 11.5.1).
    pub esr: u8,
    /// The standard event status enable register (section 11.5.1.3).
    pub ese: u8,
    /// The service request enable register, without bit 6 (section 11.3.2).
    pub sre: u8,
    /// The number that `CONF` set, 0 to 9.
    pub conf: u8,
    /// How many acquisitions were triggered, modulo 2^32.
    pub acquisitions: u32,
    /// Who may operate the instrument.
    pub remote: RemoteState,
}
