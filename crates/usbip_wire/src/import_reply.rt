//! OP_REP_IMPORT. Numbers are big-endian.
//!
//! | Offset | Size | Field | Value |
//! |---|---|---|---|
//! | 0 | 2 | version | 0x0111, judged |
//! | 2 | 2 | code | 0x0003, judged |
//! | 4 | 4 | status | 0 where the device is imported |
//! | 8 | 312 | device record | where the status is 0, and else nothing |

ghost use Rattle.std.specs.Prelude.{◌≡◌, ◌+◌, ◌≤◌, ◌++◌, MatchOption, option_copied};
ghost use Rattle.usbip_wire.specs.ImportReply.{SpellsImport, import_bytes, import_size};

use crate::device::{DeviceRecord, know_record, put_record};
use crate::op::{REP_IMPORT, put_op_header};
use bytes::BytesMut;

/// Appends an OP_REP_IMPORT. `status` is 0 where the device is imported, and then its record follows.
pub fn put_import_reply(status: u32, device: Option<&DeviceRecord>, out: &mut BytesMut)
    requires imported { MatchOption device (status ≡ 0 → ⊥) (λ _. status ≡ 0) }
    requires room { import_size (option_copied device) ≤ out.old.spare }
    ensures written { out.new.items ≡ out.old.items ++ import_bytes status (option_copied device.entry) }
    ensures spelled { SpellsImport status (option_copied device.entry) (import_bytes status (option_copied device.entry)) }
    ensures spare { out.new.spare + import_size (option_copied device.entry) ≡ out.old.spare }
{
    put_op_header(REP_IMPORT, status, out);
    if let Some(device) = device {
        know_record(*device);
        put_record(device, out);
    }
}
