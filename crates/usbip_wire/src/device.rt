//! The record of a device, in a device list and in the reply to an import. Numbers are big-endian, and none is judged.
//!
//! | Offset | Size | Field | Value |
//! |---|---|---|---|
//! | 0 | 256 | path | padded with zeros |
//! | 256 | 32 | busid | padded with zeros |
//! | 288 | 4 | busnum | |
//! | 292 | 4 | devnum | |
//! | 296 | 4 | speed | |
//! | 300 | 2 | idVendor | |
//! | 302 | 2 | idProduct | |
//! | 304 | 2 | bcdDevice | |
//! | 306 | 1 | bDeviceClass | |
//! | 307 | 1 | bDeviceSubClass | |
//! | 308 | 1 | bDeviceProtocol | |
//! | 309 | 1 | bConfigurationValue | |
//! | 310 | 1 | bNumConfigurations | |
//! | 311 | 1 | bNumInterfaces | how many interfaces stand behind the record in a list |

ghost use Rattle.std.specs.Prelude.{◌≡◌, ◌+◌, ◌≤◌, ◌++◌};
ghost use Rattle.usbip_wire.specs.Device.{IsRecord, record_bytes};

use crate::urb::{put_fields, put_halves};
use bytes::BytesMut;

/// The bytes of a device record.
pub const DEVICE_RECORD: usize = 312;

/// An exported device. `path` is its place in the server's sysfs and `busid` its bus id, both padded with
/// zeros; `speed` is the kernel's `usb_device_speed`. The other fields are those of the device's descriptors.
#[derive(Clone, Copy, Debug, PartialEq, Eq)]
pub struct DeviceRecord {
    pub path: [u8; 256],
    pub busid: [u8; 32],
    pub busnum: u32,
    pub devnum: u32,
    pub speed: u32,
    pub id_vendor: u16,
    pub id_product: u16,
    pub bcd_device: u16,
    pub device_class: u8,
    pub device_subclass: u8,
    pub device_protocol: u8,
    pub configuration_value: u8,
    pub configurations: u8,
    pub interfaces: u8,
}

/// Appends a device record.
pub(crate) fn put_record(device: &DeviceRecord, out: &mut BytesMut)
    requires { DEVICE_RECORD ≤ out.old.spare }
    ensures items { out.new.items ≡ out.old.items ++ record_bytes device.now }
    ensures spare { out.new.spare + DEVICE_RECORD ≡ out.old.spare }
{
    out.extend_reserved(&device.path);
    out.extend_reserved(&device.busid);
    put_fields(&[device.busnum, device.devnum, device.speed], out);
    put_halves(
        &[device.id_vendor, device.id_product, device.bcd_device],
        out,
    );
    out.extend_reserved(&[
        device.device_class,
        device.device_subclass,
        device.device_protocol,
        device.configuration_value,
        device.configurations,
        device.interfaces,
    ]);
}

/// What the types of a record say of its fields.
pub(crate) fn know_record(device: DeviceRecord)
    ensures { IsRecord device }
{
    let _device = device;
}
