use thiserror::Error;

/// Why bytes gave no units.
#[derive(Clone, Copy, Debug, PartialEq, Eq, Error)]
pub enum SyntaxFault {
    /// The place of the first byte after which no continuation is a message, counted from 0, or the length
    /// where the message ends too early.
    #[error("not a program message from byte {0} on; correct it there")]
    At(u32),
    /// Want of memory.
    #[error("out of memory; free some and try again")]
    Memory,
}
