/// What a device does by itself, in an order that it chooses freely. A number that is greater than what there is means
/// all that there is.
#[derive(Clone, Copy, Debug, PartialEq, Eq)]
pub enum DevEvent {
    /// Takes so many packets of the first Bulk-OUT submit.
    Take(u32),
    /// Executes the message that waits.
    Exec,
    /// Begins a piece of so many bytes of the response that was requested.
    Begin(u32),
    /// Puts so many packets into the first Bulk-IN submit.
    Fill(u32),
    /// Answers the first control submit.
    Answer,
    /// Answers the first control submit, a check of what is still running, with PENDING.
    Pending,
    /// Polls the status byte for the first control submit, and answers it later.
    Poll,
    /// Puts the first queued packet into the first Interrupt-IN submit.
    Notify,
    /// Halts this endpoint, 1 to 3.
    Halt(u8),
    /// Is unplugged.
    Unplug,
}
