//! USBIP_RET_SUBMIT. Numbers are big-endian.
//!
//! | Offset | Size | Field | Value |
//! |---|---|---|---|
//! | 0 | 4 | command | 3, judged |
//! | 4 | 4 | seqnum | that of the submit, judged by what is outstanding |
//! | 8 | 4 | devid | not used, written 0 |
//! | 12 | 4 | direction | not used, written 0 |
//! | 16 | 4 | ep | not used, written 0 |
//! | 20 | 4 | status | 0, or a negated error number of Linux |
//! | 24 | 4 | actual_length | at most the length of the submit, judged |
//! | 28 | 4 | start_frame | not used, written 0 |
//! | 32 | 4 | number_of_packets | written 0xffffffff, read also as 0, judged |
//! | 36 | 4 | error_count | not used, written 0 |
//! | 40 | 8 | padding | written 0 |
//! | 48 | actual_length | data | in the answer to an IN submit alone |

ghost use Rattle.std.specs.Prelude.{◌≡◌, ◌⊎◌, ℕ, ◌+◌, ◌≤◌, [], ◌++◌, length};
ghost use Rattle.usbip_wire.specs.declared.urb.Dir.TheVariants.{Out, In};
ghost use Rattle.usbip_wire.specs.RetSubmit.{ret_submit_bytes, unused};
ghost use Rattle.usbip_wire.specs.Down.{Spells, RetSubmit};

use crate::urb::{NOT_ISOCHRONOUS, RET_SUBMIT, URB_HEADER, put_fields};
use bytes::BytesMut;

/// The header of a RET_SUBMIT: the answer to the submit `seqnum`. `status` is 0 or a negated Linux error
/// number, and `actual` is the number of bytes transferred.
#[derive(Clone, Copy, Debug, PartialEq, Eq)]
pub struct RetSubmitHead {
    pub seqnum: u32,
    pub status: i32,
    pub actual: u32,
}

/// Appends a RET_SUBMIT: the answer to an IN submit where `data` has `actual` bytes, and to an OUT submit
/// where it is empty. The fields that it does not use are 0, and `number_of_packets` is 0xffffffff.
pub fn put_ret_submit(head: RetSubmitHead, data: &[u8], out: &mut BytesMut)
    requires returned { (length «data».now ≡ head.actual) ⊎ («data».now ≡ []) }
    requires room { URB_HEADER + length «data».now ≤ out.old.spare }
    ensures written { out.new.items ≡ out.old.items ++ ret_submit_bytes head unused «data».now }
    ensures spelled_in { length «data».now ≡ head.actual → (asked : ℕ) → head.actual ≤ asked
        → Spells (record { dir = In; size = asked }) (RetSubmit head «data».now) (ret_submit_bytes head unused «data».now) }
    ensures spelled_out { «data».now ≡ [] → (asked : ℕ) → head.actual ≤ asked
        → Spells (record { dir = Out; size = asked }) (RetSubmit head «data».now) (ret_submit_bytes head unused «data».now) }
    ensures spare { out.new.spare + (URB_HEADER + length «data».now) ≡ out.old.spare }
{
    put_fields(
        &[
            RET_SUBMIT,
            head.seqnum,
            0,
            0,
            0,
            head.status.cast_unsigned(),
            head.actual,
            0,
            NOT_ISOCHRONOUS,
            0,
            0,
            0,
        ],
        out,
    );
    out.extend_reserved(data);
}
