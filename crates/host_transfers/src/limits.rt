/// The most data of a message in one transfer.
pub const PART_MAX: u32 = 1_024;

/// The most data that one request asks for.
pub const REQUEST_MAX: u32 = 16_384;
