use crate::End;

/// What a cancel says of its ticket.
#[derive(Clone, Copy, Debug, PartialEq, Eq)]
pub enum CancelAnswer {
    /// It was live: its cancel stands in the book.
    Begun,
    /// It was settled.
    Settled,
    /// There is none.
    Unknown,
}

/// What a cancel of a whole session says.
#[derive(Clone, Copy, Debug, PartialEq, Eq)]
pub enum DropAnswer {
    /// The session had a live ticket: the cancel of each stands in the book.
    Begun,
    /// It had none.
    NothingLive,
}

/// What a turn did.
#[derive(Clone, Copy, Debug, PartialEq, Eq)]
pub enum Turn {
    /// The hub runs, and a byte was sent or taken.
    Moved,
    /// The hub runs, and no byte could be moved.
    Idle,
    /// The hub has ended, before this turn or in it.
    Ended(End),
    /// No byte was moved, since the link wants memory.
    Memory,
}
