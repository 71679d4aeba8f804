//! USBIP_CMD_UNLINK. Numbers are big-endian.
//!
//! | Offset | Size | Field | Value |
//! |---|---|---|---|
//! | 0 | 4 | command | 2, judged |
//! | 4 | 4 | seqnum | the number by which it is answered |
//! | 8 | 4 | devid | the imported device's, judged |
//! | 12 | 4 | direction | not used, written 0 |
//! | 16 | 4 | ep | not used, written 0 |
//! | 20 | 4 | unlink_seqnum | the number of the submit that it takes back |
//! | 24 | 24 | padding | written 0 |

ghost use Rattle.std.specs.Prelude.{◌≡◌, ◌+◌, ◌≤◌, ◌++◌};
ghost use Rattle.usbip_wire.specs.Unlink.{unlink_bytes, unused};
ghost use Rattle.usbip_wire.specs.Up.{Spells, Unlink};

use crate::urb::{CMD_UNLINK, URB_HEADER, put_fields};
use bytes::BytesMut;

/// The header of a CMD_UNLINK: the unlink `seqnum` takes back the submit `target` on the device `devid`.
#[derive(Clone, Copy, Debug, PartialEq, Eq)]
pub struct UnlinkHead {
    pub seqnum: u32,
    pub devid: u32,
    pub target: u32,
}

/// Appends a CMD_UNLINK. The fields that it does not use, direction and endpoint among them, are 0.
pub fn put_unlink(head: UnlinkHead, out: &mut BytesMut)
    requires { URB_HEADER ≤ out.old.spare }
    ensures written { out.new.items ≡ out.old.items ++ unlink_bytes head unused }
    ensures spelled { Spells head.devid (Unlink head) (unlink_bytes head unused) }
    ensures spare { out.new.spare + URB_HEADER ≡ out.old.spare }
{
    put_fields(
        &[CMD_UNLINK, head.seqnum, head.devid, 0, 0, head.target],
        out,
    );
    out.extend_reserved(&[0; 24]);
}
