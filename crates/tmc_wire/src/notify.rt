//! The packets of two bytes on Interrupt-IN.
//!
//! | Offset | Size | Field | Value |
//! |---|---|---|---|
//! | 0 | 1 | bNotify1 | 0x80 and the tag of a READ_STATUS_BYTE request, 2 to 127; or 0x81, which requests service |
//! | 1 | 1 | bNotify2 | the status byte |

ghost use Rattle.std.specs.Prelude.{◌≡◌, ◌<◌, ◌↔◌, length, Ok, Err};
ghost use Rattle.tmc_base.specs.declared.field.Field.{Field};
ghost use Rattle.tmc_wire.specs.declared.notify.Notify.{Notify};
ghost use Rattle.tmc_wire.specs.Notify.{IsPacket};
ghost use Rattle.tmc_wire.specs.Short.{short_packet};

use crate::usb488::{FIRST_STATUS_PACKET, SERVICE_PACKET, STATUS_PACKET};
use tmc_base::{Field, Layer, Name};

/// An Interrupt-IN packet: USBTMC 1.0 section 3.4, USB488 1.0 section 3.4.
#[derive(Clone, Copy, Debug, PartialEq, Eq)]
pub enum Notify {
    /// The status byte for the READ_STATUS_BYTE request with this tag, 2 to 127.
    Status { tag: u8, byte: u8 },
    /// The device requests service, with its status byte.
    Service { byte: u8 },
    /// A packet that is neither.
    Other,
}

/// The packet that the first two bytes are; what follows them is not looked at.
///
/// # Errors
///
/// `Notify`, `Length` with the number of bytes that came, where they are fewer than 2.
pub fn read_notify(bytes: &[u8]) -> Result<Notify, Field>
    ensures packet { (packet : Notify) → (result ≡ Ok packet) ↔ IsPacket packet bytes.now }
    ensures fault { (field : Field) → (result ≡ Err field)
        ↔ ((field ≡ short_packet bytes.now) × (length bytes.now < 2)) }
{
    match bytes {
        [SERVICE_PACKET, byte, ..] => Ok(Notify::Service { byte: *byte }),
        [first @ FIRST_STATUS_PACKET.., byte, ..] => Ok(Notify::Status {
            tag: *first - STATUS_PACKET,
            byte: *byte,
        }),
        [_, _, ..] => Ok(Notify::Other),
        _ => Err(Field {
            layer: Layer::Notify,
            name: Name::Length,
            offset: bytes.len() as u32,
        }),
    }
}
