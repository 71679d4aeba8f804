use tmc_base::Field;

/// What one read of a Bulk-IN transfer holds.
#[derive(Clone, Copy, Debug, PartialEq, Eq)]
pub enum Piece {
    /// The bytes from `from` up to `to` are data, and the transfer goes on.
    Data { from: u32, to: u32 },
    /// The bytes from `from` up to `to` are data, and the transfer has ended. With `eom` the response ends with it.
    Ended { from: u32, to: u32, eom: bool },
    /// The transfer is no answer to the request: its first refused field, with its offset.
    Bad(Field),
}
