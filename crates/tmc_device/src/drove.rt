/// What became of an event.
#[derive(Clone, Copy, Debug, PartialEq, Eq)]
pub enum Drove {
    /// The device made the step.
    Applied,
    /// The law allows no such step now, and nothing has changed.
    NotEnabled,
    /// Memory is wanting, and nothing has changed.
    Memory,
}
