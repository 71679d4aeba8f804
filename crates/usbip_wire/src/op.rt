ghost use Rattle.std.specs.Prelude.{◌≡◌, ◌+◌, ◌≤◌, ◌++◌};
ghost use Rattle.usbip_wire.specs.Op.{op_header};

use bytes::BytesMut;

/// The version of USB/IP, in the first field of each operation.
pub(crate) const USBIP_VERSION: u16 = 0x0111;

pub(crate) const REQ_DEVLIST: u16 = 0x8005;

pub(crate) const REP_DEVLIST: u16 = 0x0005;

pub(crate) const REQ_IMPORT: u16 = 0x8003;

pub(crate) const REP_IMPORT: u16 = 0x0003;

/// Appends what each operation begins with.
#[tactic(auto, unfolding(crate::specs::Op::op_header))]
pub(crate) fn put_op_header(code: u16, status: u32, out: &mut BytesMut)
    requires { 8 ≤ out.old.spare }
    ensures items { out.new.items ≡ out.old.items ++ op_header code status }
    ensures spare { out.new.spare + 8 ≡ out.old.spare }
{
    out.extend_reserved(&USBIP_VERSION.to_be_bytes());
    out.extend_reserved(&code.to_be_bytes());
    out.extend_reserved(&status.to_be_bytes());
}
