use usbip_export::DevEvent;

/// What can be done to a loop link beside its bytes.
#[derive(Clone, Copy, Debug, PartialEq, Eq)]
pub enum LoopAct {
    /// The instrument makes this step. It alone can be `NotNow`.
    Dev(DevEvent),
    /// The next send may move so many bytes. A calm link has no rooms.
    RoomSend(u32),
    /// The next poll may move so many bytes. A calm link has no rooms.
    RoomPoll(u32),
    /// The next send fails.
    FailSend,
    /// The next poll fails.
    FailPoll,
}
