use instr_plain::RemoteAct;

/// What a ticket asks for.
#[derive(Clone, Copy, Debug, PartialEq, Eq)]
pub enum Kind {
    /// A message, and its response.
    Ask,
    /// A message alone.
    Tell,
    /// TRIGGER.
    Trigger,
    /// The status byte.
    Status,
    /// A remote or local request.
    Remote(RemoteAct),
}
