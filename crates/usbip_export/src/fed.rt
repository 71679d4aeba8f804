use tmc_base::Field;

/// What feeding a piece gave.
#[derive(Clone, Copy, Debug, PartialEq, Eq)]
pub enum Fed {
    /// The piece was taken.
    Ok,
    /// This field has no accepted value. The node is closed.
    Refused(Field),
    /// Memory is wanting, and nothing has changed.
    Memory,
}
