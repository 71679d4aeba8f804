ghost use Rattle.std.specs.Prelude.{◌≡◌, MatchResult};
ghost use Rattle.tmc_wire.specs.Header.{HasEom};
ghost use Rattle.tmc_wire.specs.HeaderFault.{IsFirstFault};
ghost use Rattle.tmc_wire.specs.Fields.{is_known, AreProper};

use crate::HeaderFault;
use crate::usb488::TRIGGER;
use crate::usbtmc::{DEV_DEP_MSG_IN, DEV_DEP_MSG_OUT, EOM, REQUEST_DEV_DEP_MSG_IN};

/// The direction of a transfer.
#[derive(Clone, Copy)]
pub(crate) enum Direction {
    Out,
    In,
}

impl Direction {
    /// Whether a transfer of this direction may have this MsgID.
    fn has(self, msg_id: u8) -> bool
        ensures { result ≡ is_known self msg_id }
    {
        match self {
            Direction::Out => matches!(msg_id, DEV_DEP_MSG_OUT | REQUEST_DEV_DEP_MSG_IN | TRIGGER),
            Direction::In => msg_id == DEV_DEP_MSG_IN,
        }
    }
}

/// The fields of a bulk header. The size means nothing in a trigger.
#[derive(Clone, Copy)]
pub(crate) struct Fields {
    pub(crate) msg_id: u8,
    pub(crate) tag: u8,
    pub(crate) size: u32,
    pub(crate) attributes: u8,
}

impl Fields {
    /// The fields of the header that begins a transfer of this direction, or its first fault.
    pub(crate) fn read(bytes: &[u8], direction: Direction) -> Result<Fields, HeaderFault>
        ensures { MatchResult result
            (AreProper direction bytes.now)
            (IsFirstFault (is_known direction) bytes.now) }
    {
        let [
            msg_id,
            tag,
            inverse,
            _,
            first,
            second,
            third,
            fourth,
            attributes,
            _,
            _,
            _,
            ..
        ] = bytes
        else {
            return Err(HeaderFault::Length);
        };
        let size = u32::from_le_bytes([*first, *second, *third, *fourth]);
        if !direction.has(*msg_id) {
            return Err(HeaderFault::MsgId);
        }
        if *tag == 0 {
            return Err(HeaderFault::Tag);
        }
        if *inverse != !*tag {
            return Err(HeaderFault::Inverse);
        }
        if size == 0 && *msg_id != TRIGGER {
            return Err(HeaderFault::Size);
        }
        Ok(Fields {
            msg_id: *msg_id,
            tag: *tag,
            size,
            attributes: *attributes,
        })
    }

    /// Whether the last byte of the data ends the message, in a message to or from the device.
    pub(crate) fn ends_message(&self) -> bool
        ensures { HasEom result self.now.attributes }
    {
        self.attributes & EOM != 0
    }
}
