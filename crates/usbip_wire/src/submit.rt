//! USBIP_CMD_SUBMIT. Numbers are big-endian.
//!
//! | Offset | Size | Field | Value |
//! |---|---|---|---|
//! | 0 | 4 | command | 1, judged |
//! | 4 | 4 | seqnum | the number by which it is answered |
//! | 8 | 4 | devid | the imported device's, judged |
//! | 12 | 4 | direction | 0 OUT, 1 IN, judged |
//! | 16 | 4 | ep | at most 15, judged |
//! | 20 | 4 | transfer_flags | not used, written 0 |
//! | 24 | 4 | transfer_buffer_length | at most `SUBMIT_MAX`, judged |
//! | 28 | 4 | start_frame | not used, written 0 |
//! | 32 | 4 | number_of_packets | written 0xffffffff, read also as 0, judged |
//! | 36 | 4 | interval | not used, written 0 |
//! | 40 | 8 | setup | the setup packet on endpoint 0, and zeros elsewhere |
//! | 48 | transfer_buffer_length | data | of an OUT submit alone |

ghost use Rattle.std.specs.Prelude.{◌≡◌, ◌+◌, ◌≤◌, ◌++◌, length};
ghost use Rattle.tmc_base.specs.declared.limits.TheConstants.{SUBMIT_MAX};
ghost use Rattle.usbip_wire.specs.Submit.{Carries, submit_bytes, unused};
ghost use Rattle.usbip_wire.specs.Up.{Spells, Submit};

use crate::urb::{CMD_SUBMIT, Dir, ENDPOINT_MAX, NOT_ISOCHRONOUS, URB_HEADER, put_fields};
use bytes::BytesMut;

/// The header of a CMD_SUBMIT: the submit `seqnum` of `length` bytes on endpoint `ep` of the device
/// `devid`. `setup` is the setup packet on endpoint 0, and zeros elsewhere.
#[derive(Clone, Copy, Debug, PartialEq, Eq)]
pub struct SubmitHead {
    pub seqnum: u32,
    pub devid: u32,
    pub dir: Dir,
    pub ep: u32,
    pub length: u32,
    pub setup: [u8; 8],
}

/// Appends a CMD_SUBMIT. The fields that it does not use are 0, and `number_of_packets` is 0xffffffff.
pub fn put_submit(head: SubmitHead, data: &[u8], out: &mut BytesMut)
    requires endpoint { head.ep ≤ ENDPOINT_MAX }
    requires short { head.length ≤ SUBMIT_MAX }
    requires carried { Carries head.dir head.length «data».now }
    requires room { URB_HEADER + length «data».now ≤ out.old.spare }
    ensures written { out.new.items ≡ out.old.items ++ submit_bytes head unused «data».now }
    ensures spelled { Spells head.devid (Submit head «data».now) (submit_bytes head unused «data».now) }
    ensures spare { out.new.spare + (URB_HEADER + length «data».now) ≡ out.old.spare }
{
    put_fields(
        &[
            CMD_SUBMIT,
            head.seqnum,
            head.devid,
            head.dir.code(),
            head.ep,
            0,
            head.length,
            0,
            NOT_ISOCHRONOUS,
            0,
        ],
        out,
    );
    put_setup(&head.setup, out);
    out.extend_reserved(data);
}

/// Appends the eight bytes of a setup packet.
fn put_setup(setup: &[u8; 8], out: &mut BytesMut)
    requires { 8 ≤ out.old.spare }
    ensures eight { length setup.now ≡ 8 }
    ensures items { out.new.items ≡ out.old.items ++ setup.now }
    ensures spare { out.new.spare + 8 ≡ out.old.spare }
{
    out.extend_reserved(setup);
}
