use thiserror::Error;

/// Why bytes are no bulk header. The faults are tried in this order, and the first is answered.
#[derive(Clone, Copy, Debug, PartialEq, Eq, Error)]
pub enum HeaderFault {
    /// There are fewer than 12 bytes.
    #[error("the transfer is shorter than its header of 12 bytes; abort the transfer and begin it again")]
    Length,
    /// MsgID, at 0, is no message of this direction.
    #[error("the MsgID of the transfer's header is unknown; check that both ends speak USBTMC 1.0 or USB488 1.0, \
         abort the transfer and begin it again")]
    MsgId,
    /// bTag, at 1, is 0.
    #[error("the tag of the transfer's header is 0; number transfers from 1 to 255")]
    Tag,
    /// bTagInverse, at 2, is not the one's complement of bTag.
    #[error("the third byte of the transfer's header is not the one's complement of its tag, so the header is \
         damaged; abort the transfer and begin it again")]
    Inverse,
    /// TransferSize, at 4, is 0, and the message is no trigger.
    #[error("the size in the transfer's header is 0; send or request at least one byte")]
    Size,
}
