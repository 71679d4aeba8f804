//! The header of 12 bytes with which each bulk transfer begins. Its data follows, and zeros up to a multiple of 4.
//!
//! | Offset | Size | Field | Value |
//! |---|---|---|---|
//! | 0 | 1 | MsgID | 1 DEV_DEP_MSG_OUT, or DEV_DEP_MSG_IN on Bulk-IN; 2 REQUEST_DEV_DEP_MSG_IN; 128 TRIGGER |
//! | 1 | 1 | bTag | 1 to 255 |
//! | 2 | 1 | bTagInverse | the one's complement of bTag |
//! | 3 | 1 | reserved | written 0 |
//! | 4 | 4 | TransferSize | little-endian, at least 1; of a TRIGGER not used |
//! | 8 | 1 | bmTransferAttributes | bit 0 is EOM, of a message or a response; the other bits are not used |
//! | 9 | 3 | reserved | written 0 |

ghost use Rattle.std.specs.Prelude.{◌≡◌, ◌++◌, ◌↔◌, Ok, Err, take};
ghost use Rattle.tmc_wire.specs.declared.header.OutHeader.{OutHeader};
ghost use Rattle.tmc_wire.specs.declared.header.InHeader.{InHeader};
ghost use Rattle.tmc_wire.specs.declared.header_fault.HeaderFault.{HeaderFault};
ghost use Rattle.tmc_wire.specs.Standard.{header_size};
ghost use Rattle.tmc_wire.specs.Header.{IsOutHeader, IsInHeader, IsOutProper, IsInProper, out_header_bytes, in_header_bytes, prefix, sized};
ghost use Rattle.tmc_wire.specs.HeaderFault.{IsOutFault, IsInFault};

use crate::HeaderFault;
use crate::fields::{Direction, Fields};
use crate::usb488::TRIGGER;
use crate::usbtmc::{DEV_DEP_MSG_IN, DEV_DEP_MSG_OUT, REQUEST_DEV_DEP_MSG_IN};

/// The header of a Bulk-OUT transfer (USBTMC 1.0, section 3.2; USB488 1.0, section 3.2.1).
///
/// Tags are 1 to 255. A size is in bytes, and at least 1.
#[derive(Clone, Copy, Debug, PartialEq, Eq)]
pub enum OutHeader {
    /// DEV_DEP_MSG_OUT: `size` bytes of a message follow, and with `eom` they end it.
    Message { tag: u8, size: u32, eom: bool },
    /// REQUEST_DEV_DEP_MSG_IN: at most `size` bytes of the response are wanted.
    Request { tag: u8, size: u32 },
    /// TRIGGER.
    Trigger { tag: u8 },
}

/// The header of a Bulk-IN transfer, DEV_DEP_MSG_IN (USBTMC 1.0, section 3.3).
#[derive(Clone, Copy, Debug, PartialEq, Eq)]
pub struct InHeader {
    /// bTag of the request that is answered, 1 to 255.
    pub tag: u8,
    /// TransferSize: how many bytes of data follow, at least 1.
    pub size: u32,
    /// Whether the last of them ends the message.
    pub eom: bool,
}

/// A header with a size, with 0 in the bytes that it does not use.
fn sized_bytes(msg_id: u8, tag: u8, size: u32, attributes: u8) -> [u8; 12]
    ensures { result ≡ prefix msg_id tag 0 ++ sized size attributes 0 0 0 }
{
    let [first, second, third, fourth] = size.to_le_bytes();
    [
        msg_id, tag, !tag, 0, first, second, third, fourth, attributes, 0, 0, 0,
    ]
}

/// The 12 bytes of a Bulk-OUT header. TransferSize is little-endian, and reserved bytes are 0.
pub fn out_bytes(header: OutHeader) -> [u8; 12]
    requires { IsOutProper header }
    ensures written { result ≡ out_header_bytes header }
    ensures spelled { IsOutHeader header result }
{
    match header {
        OutHeader::Message { tag, size, eom } => {
            sized_bytes(DEV_DEP_MSG_OUT, tag, size, u8::from(eom))
        }
        OutHeader::Request { tag, size } => sized_bytes(REQUEST_DEV_DEP_MSG_IN, tag, size, 0),
        OutHeader::Trigger { tag } => [TRIGGER, tag, !tag, 0, 0, 0, 0, 0, 0, 0, 0, 0],
    }
}

/// The 12 bytes of a Bulk-IN header. TransferSize is little-endian, and reserved bytes are 0.
pub fn in_bytes(header: InHeader) -> [u8; 12]
    requires { IsInProper header }
    ensures written { result ≡ in_header_bytes header }
    ensures spelled { IsInHeader header result }
{
    sized_bytes(
        DEV_DEP_MSG_IN,
        header.tag,
        header.size,
        u8::from(header.eom),
    )
}

/// The header that the first 12 bytes of a Bulk-OUT transfer are; what follows them is not looked at. TransferSize
/// is little-endian. Reserved bytes and the other bits of the attributes may hold anything.
///
/// # Errors
///
/// The first that holds of `Length`, `MsgId`, `Tag`, `Inverse` and `Size`. A trigger has no size.
pub fn read_out(bytes: &[u8]) -> Result<OutHeader, HeaderFault>
    ensures header { (header : OutHeader) →
        (result ≡ Ok header) ↔ IsOutHeader header (take header_size bytes.now) }
    ensures fault { (fault : HeaderFault) → (result ≡ Err fault) ↔ IsOutFault bytes.now fault }
{
    let fields = Fields::read(bytes, Direction::Out)?;
    let tag = fields.tag;
    let size = fields.size;
    Ok(match fields.msg_id {
        DEV_DEP_MSG_OUT => OutHeader::Message {
            tag,
            size,
            eom: fields.ends_message(),
        },
        REQUEST_DEV_DEP_MSG_IN => OutHeader::Request { tag, size },
        _ => OutHeader::Trigger { tag },
    })
}

/// The header that the first 12 bytes of a Bulk-IN transfer are; what follows them is not looked at. TransferSize
/// is little-endian. Reserved bytes and the other bits of the attributes may hold anything.
///
/// # Errors
///
/// The first that holds of `Length`, `MsgId`, `Tag`, `Inverse` and `Size`.
pub fn read_in(bytes: &[u8]) -> Result<InHeader, HeaderFault>
    ensures header { (header : InHeader) →
        (result ≡ Ok header) ↔ IsInHeader header (take header_size bytes.now) }
    ensures fault { (fault : HeaderFault) → (result ≡ Err fault) ↔ IsInFault bytes.now fault }
{
    let fields = Fields::read(bytes, Direction::In)?;
    Ok(InHeader {
        tag: fields.tag,
        size: fields.size,
        eom: fields.ends_message(),
    })
}
