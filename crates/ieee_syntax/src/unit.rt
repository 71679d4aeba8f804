use crate::{Args, Head};

/// A program message unit (IEEE 488.2, 7.3).
#[derive(Debug, Drop)]
pub struct Unit {
    /// The header (7.6.1).
    pub head: Head,
    /// Whether a `?` stands behind the header, which makes the unit a query (7.6.2).
    pub query: bool,
    /// The numbers behind the header, none or more (7.7.2).
    pub args: Args,
}
