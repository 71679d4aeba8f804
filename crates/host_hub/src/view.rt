use crate::{Kind, Outcome};

/// A ticket as it is seen.
#[derive(Clone, Copy, Debug)]
pub struct View<'a> {
    /// Its number. Tickets are numbered from 1 in the order of asking.
    pub ticket: u32,
    /// The session that asked, 0 to 15.
    pub session: u8,
    pub kind: Kind,
    /// The most bytes that its response may have; 0 where the kind has no limit.
    pub limit: u32,
    /// The sequence number of the submit that carries the end of the message; 0 while there was none.
    pub last: u32,
    /// Empty where the kind has no message.
    pub message: &'a [u8],
    /// The bytes of the response that came so far.
    pub bytes: &'a [u8],
    pub outcome: Outcome,
}
