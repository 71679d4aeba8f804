//! OP_REQ_DEVLIST and OP_REQ_IMPORT. Numbers are big-endian.
//!
//! | Offset | Size | Field | Value |
//! |---|---|---|---|
//! | 0 | 2 | version | 0x0111, judged |
//! | 2 | 2 | code | 0x8005 for a list, 0x8003 for an import, judged |
//! | 4 | 4 | status | not used, written 0 |
//! | 8 | 32 | busid | of an import alone, padded with zeros |

ghost use Rattle.std.specs.Prelude.{◌≡◌, ◌+◌, ◌≤◌, ◌++◌};
ghost use Rattle.usbip_wire.specs.OpRequest.{SpellsRequest, request_bytes, request_size};

use crate::op::{REQ_DEVLIST, REQ_IMPORT, put_op_header};
use bytes::BytesMut;

/// What a client asks for before it imports a device.
#[derive(Clone, Copy, Debug, PartialEq, Eq)]
pub enum OpRequest {
    /// The list of exported devices.
    DevList,
    /// The device with this bus id, padded with zeros.
    Import { busid: [u8; 32] },
}

/// Appends an OP_REQ_DEVLIST of 8 bytes or an OP_REQ_IMPORT of 40. Its status, which it does not use, is 0.
pub fn put_op_request(request: OpRequest, out: &mut BytesMut)
    requires { request_size request ≤ out.old.spare }
    ensures written { out.new.items ≡ out.old.items ++ request_bytes request 0 }
    ensures spelled { SpellsRequest request (request_bytes request 0) }
    ensures spare { out.new.spare + request_size request ≡ out.old.spare }
{
    match request {
        OpRequest::DevList => put_op_header(REQ_DEVLIST, 0, out),
        OpRequest::Import { busid } => {
            put_op_header(REQ_IMPORT, 0, out);
            out.extend_reserved(&busid);
        }
    }
}
