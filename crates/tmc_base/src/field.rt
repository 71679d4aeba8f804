/// The layer of the messages that a refused field belongs to.
#[derive(Clone, Copy, Debug, PartialEq, Eq)]
pub enum Layer {
    /// A USB/IP operation: a device list or an import.
    Op,
    /// A USB/IP request block: a submit, an unlink or an answer to one.
    Urb,
    /// A USBTMC bulk transfer.
    Bulk,
    /// A class request's answer.
    Control,
    /// An Interrupt-IN packet.
    Notify,
}

/// The name of a refused field, in the words of its standard.
#[derive(Clone, Copy, Debug, PartialEq, Eq)]
pub enum Name {
    Version,
    Code,
    Command,
    Seqnum,
    Devid,
    Direction,
    Endpoint,
    BufferLength,
    Packets,
    ActualLength,
    Pending,
    MsgId,
    Tag,
    Inverse,
    Size,
    Length,
}

/// A refused field. `offset` is its place in its message, in bytes from the message's first.
#[derive(Clone, Copy, Debug, PartialEq, Eq)]
pub struct Field {
    pub layer: Layer,
    pub name: Name,
    pub offset: u32,
}
