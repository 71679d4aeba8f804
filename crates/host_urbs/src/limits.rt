/// The greatest number of a submit. Those above it are left to unlinks, so that each outstanding submit can be unlinked.
pub const LAST_SUBMIT: u32 = 0xFFFF_FF00;

/// The most bytes of messages that wait to be sent.
pub const OUTBOX_MAX: usize = 4_096;
