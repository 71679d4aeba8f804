/// The requests for service that came (USB488 1.0, section 3.4.2).
#[derive(Clone, Copy, Debug, PartialEq, Eq)]
pub struct Service {
    /// How many came. It stays at the greatest `u64` once it is there.
    pub count: u64,
    /// The status byte of the last one.
    pub last: Option<u8>,
}
