use event_text::EventAnswer;

/// What became of an event.
#[derive(Clone, Copy, Debug, PartialEq, Eq)]
pub enum Applied {
    /// It was enabled, and answered this.
    Answer(EventAnswer),
    /// It was not enabled.
    NotEnabled,
    /// Memory is wanting.
    Memory,
}
