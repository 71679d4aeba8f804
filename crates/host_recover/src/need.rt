/// Which recovery is called for.
#[derive(Clone, Copy, Debug, PartialEq, Eq)]
pub enum Need {
    /// The transfer of a message with this tag is aborted. `parts` says that an earlier part of the message was accepted.
    Out { tag: u8, parts: bool },
    /// The transfer of a response with this tag is aborted.
    In { tag: u8 },
    /// The full clear.
    Full,
}
