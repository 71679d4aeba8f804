ghost use Rattle.std.specs.Prelude.{◌≡◌};
ghost use Rattle.tmc_world.specs.Pacing.{send_room, poll_room, send_shut, poll_shut, with_send_room, with_poll_room};

/// How many bytes the next send and the next poll may move.
#[derive(Clone, Copy, Debug, PartialEq, Eq)]
pub(crate) struct Rooms {
    pub(crate) send: u32,
    pub(crate) poll: u32,
}

/// How a link goes.
#[derive(Clone, Copy, Debug, PartialEq, Eq)]
pub(crate) enum Pace {
    /// As fast as it is called; the instrument makes its calm moves at each poll.
    Calm,
    /// By rooms.
    Paced(Rooms),
}

impl Pace {
    /// How many of so many bytes the next send may move.
    pub(crate) fn send_room(self, offered: usize) -> usize
        ensures { result ≡ send_room self offered }
    {
        match self {
            Pace::Calm => offered,
            Pace::Paced(rooms) => offered.min(rooms.send as usize),
        }
    }

    /// How many of so many bytes the next poll may move.
    pub(crate) fn poll_room(self, offered: usize) -> usize
        ensures { result ≡ poll_room self offered }
    {
        match self {
            Pace::Calm => offered,
            Pace::Paced(rooms) => offered.min(rooms.poll as usize),
        }
    }

    /// Behind a send: its room is used up.
    pub(crate) fn send_shut(self) -> Pace
        ensures { result ≡ send_shut self }
    {
        self.with_send_room(0)
    }

    /// Behind a poll: its room is used up.
    pub(crate) fn poll_shut(self) -> Pace
        ensures { result ≡ poll_shut self }
    {
        self.with_poll_room(0)
    }

    /// A calm link has no rooms.
    pub(crate) fn with_send_room(self, room: u32) -> Pace
        ensures { result ≡ with_send_room room self }
    {
        match self {
            Pace::Calm => Pace::Calm,
            Pace::Paced(rooms) => Pace::Paced(Rooms {
                send: room,
                poll: rooms.poll,
            }),
        }
    }

    /// A calm link has no rooms.
    pub(crate) fn with_poll_room(self, room: u32) -> Pace
        ensures { result ≡ with_poll_room room self }
    {
        match self {
            Pace::Calm => Pace::Calm,
            Pace::Paced(rooms) => Pace::Paced(Rooms {
                send: rooms.send,
                poll: room,
            }),
        }
    }
}
