ghost use Rattle.std.specs.Prelude.{◌≡◌, ◌≤◌, ◌+◌, ◌↔◌, ◌++◌, length, IsTrue};
ghost use Rattle.std.specs.Bool.{OnTrue, OnFalse};
ghost use Rattle.usb_setup.specs.Identity.{device_text, configuration_text, string_text};

use bytes::BytesMut;

const DEVICE: [u8; 18] = [
    0x12, 0x01, 0x00, 0x02, 0x00, 0x00, 0x00, 0x40, 0x55, 0xF0, 0x88, 0x04, 0x00, 0x01, 0x01, 0x02,
    0x03, 0x01,
];

const CONFIGURATION: [u8; 39] = [
    0x09, 0x02, 0x27, 0x00, 0x01, 0x01, 0x00, 0xC0, 0x00, // the configuration
    0x09, 0x04, 0x00, 0x00, 0x03, 0xFE, 0x03, 0x01, 0x00, // the interface
    0x07, 0x05, 0x01, 0x02, 0x40, 0x00, 0x00, // Bulk-OUT
    0x07, 0x05, 0x82, 0x02, 0x40, 0x00, 0x00, // Bulk-IN
    0x07, 0x05, 0x83, 0x03, 0x08, 0x00, 0x0A, // Interrupt-IN
];

const LANGUAGES: [u8; 4] = [4, 3, 0x09, 0x04];

const MANUFACTURER: [u8; 16] = [
    16, 3, b'E', 0, b'X', 0, b'A', 0, b'M', 0, b'P', 0, b'L', 0, b'E', 0,
];

const PRODUCT: [u8; 10] = [10, 3, b'T', 0, b'M', 0, b'C', 0, b'1', 0];

const SERIAL: [u8; 4] = [4, 3, b'0', 0];

/// The instrument's device descriptor: USB 2.0 section 9.6.1.
pub fn device_descriptor() -> [u8; 18]
    ensures { result ≡ device_text }
{
    DEVICE
}

/// The instrument's configuration descriptor with its interface and endpoint descriptors: USB 2.0 sections
/// 9.6.3, 9.6.5 and 9.6.6.
pub fn configuration() -> [u8; 39]
    ensures { result ≡ configuration_text }
{
    CONFIGURATION
}

/// Puts the instrument's string descriptor of this index at the end: USB 2.0 section 9.6.7. False where there
/// is none, from index 4 on; then `out` is as before. The text of an index is at most 16 bytes.
pub fn put_string(index: u8, out: &mut BytesMut) -> bool
    requires room { 64 ≤ out.old.spare }
    ensures known { IsTrue result ↔ (index ≤ 3) }
    ensures put { OnTrue result (out.new.items ≡ out.old.items ++ string_text index) }
    ensures spare { OnTrue result (out.new.spare + length (string_text index) ≡ out.old.spare) }
    ensures unchanged { OnFalse result (out.new ≡ out.old) }
{
    match index {
        0 => out.extend_reserved(&LANGUAGES),
        1 => out.extend_reserved(&MANUFACTURER),
        2 => out.extend_reserved(&PRODUCT),
        3 => out.extend_reserved(&SERIAL),
        _ => return false,
    }
    true
}
