//! USBIP_RET_UNLINK. Numbers are big-endian.
//!
//! | Offset | Size | Field | Value |
//! |---|---|---|---|
//! | 0 | 4 | command | 4, judged |
//! | 4 | 4 | seqnum | that of the unlink, judged by what is outstanding |
//! | 8 | 4 | devid | not used, written 0 |
//! | 12 | 4 | direction | not used, written 0 |
//! | 16 | 4 | ep | not used, written 0 |
//! | 20 | 4 | status | -104 where the submit was taken back, 0 where it was not pending any more |
//! | 24 | 24 | padding | written 0 |

ghost use Rattle.std.specs.Prelude.{◌≡◌, ◌+◌, ◌≤◌, ◌++◌};
ghost use Rattle.usbip_wire.specs.RetUnlink.{SpellsRetUnlink, ret_unlink_bytes, unused};

use crate::urb::{RET_UNLINK, URB_HEADER, put_fields};
use bytes::BytesMut;

/// The header of a RET_UNLINK: the answer to the unlink `seqnum`. `status` is -104 (ECONNRESET) where the
/// submit was taken back, and 0 where it was not pending any more.
#[derive(Clone, Copy, Debug, PartialEq, Eq)]
pub struct RetUnlinkHead {
    pub seqnum: u32,
    pub status: i32,
}

/// Appends a RET_UNLINK. The fields that it does not use are 0.
pub fn put_ret_unlink(head: RetUnlinkHead, out: &mut BytesMut)
    requires { URB_HEADER ≤ out.old.spare }
    ensures written { out.new.items ≡ out.old.items ++ ret_unlink_bytes head unused }
    ensures spelled { SpellsRetUnlink head (ret_unlink_bytes head unused) }
    ensures spare { out.new.spare + URB_HEADER ≡ out.old.spare }
{
    put_fields(
        &[
            RET_UNLINK,
            head.seqnum,
            0,
            0,
            0,
            head.status.cast_unsigned(),
        ],
        out,
    );
    out.extend_reserved(&[0; 24]);
}
