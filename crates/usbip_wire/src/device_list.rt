//! OP_REP_DEVLIST. Numbers are big-endian.
//!
//! | Offset | Size | Field | Value |
//! |---|---|---|---|
//! | 0 | 2 | version | 0x0111, judged |
//! | 2 | 2 | code | 0x0005, judged |
//! | 4 | 4 | status | |
//! | 8 | 4 | number of devices | |
//! | 12 | | for each device its record of 312 bytes, and behind it for each of its interfaces: | |
//! | | 1 | bInterfaceClass | |
//! | | 1 | bInterfaceSubClass | |
//! | | 1 | bInterfaceProtocol | |
//! | | 1 | padding | written 0 |

ghost use Rattle.std.specs.Prelude.{◌≡◌, ◌+◌, ◌*◌, ◌<◌, ◌≤◌, ◌^◌, [], ◌∷◌, ◌++◌, length};
ghost use Rattle.std.specs.Int.{w32, to_be_bytes};
ghost use Rattle.usbip_wire.specs.declared.down.DownPhase.TheVariants.{Ops};
ghost use Rattle.usbip_wire.specs.DevList.{AreRecords, AreTriples, interfaces_of, interfaces_bytes, devices_bytes, list_bytes, list_size, list_told};
ghost use Rattle.usbip_wire.specs.DownFed.{SpellsParts};

use crate::device::{DeviceRecord, know_record, put_record};
use crate::op::{REP_DEVLIST, put_op_header};
use bytes::BytesMut;

/// Appends an OP_REP_DEVLIST. `interfaces` has class, subclass and protocol of each interface, device by
/// device, and each device has as many as its record says.
pub fn put_device_list(
    status: u32,
    devices: &[DeviceRecord],
    interfaces: &[[u8; 3]],
    out: &mut BytesMut,
)
    requires few { length devices.now < 2 ^ 32 }
    requires each { interfaces_of devices.now ≡ length interfaces.now }
    requires room { list_size (length devices.now) (length interfaces.now) ≤ out.old.spare }
    ensures written { out.new.items ≡ out.old.items ++ list_bytes status devices.now interfaces.now }
    ensures spelled { SpellsParts (Ops 0 0) (list_told status devices.now interfaces.now) (list_bytes status devices.now interfaces.now) }
    ensures spare { out.new.spare + list_size (length devices.now) (length interfaces.now) ≡ out.old.spare }
{
    know_records(devices);
    know_triples(interfaces);
    put_op_header(REP_DEVLIST, status, out);
    put_count(devices.len() as u32, out);
    put_devices(devices, interfaces, out);
}

fn put_count(count: u32, out: &mut BytesMut)
    requires { 4 ≤ out.old.spare }
    ensures items { out.new.items ≡ out.old.items ++ to_be_bytes w32 count }
    ensures spare { out.new.spare + 4 ≡ out.old.spare }
{
    out.extend_reserved(&count.to_be_bytes());
}

/// Appends the records, each with its own interfaces behind it.
fn put_devices(devices: &[DeviceRecord], interfaces: &[[u8; 3]], out: &mut BytesMut)
    requires each { interfaces_of devices.now ≡ length interfaces.now }
    requires room { 312 * length devices.now + 4 * length interfaces.now ≤ out.old.spare }
    ensures items { out.new.items ≡ out.old.items ++ devices_bytes devices.now interfaces.now }
    ensures spare { out.new.spare + (312 * length devices.now + 4 * length interfaces.now) ≡ out.old.spare }
{
    let mut left = interfaces;
    for device in devices {
        let (own, rest) = left.split_at(usize::from(device.interfaces));
        put_record(device, out);
        put_interfaces(own, out);
        left = rest;
    }
}

fn put_interfaces(interfaces: &[[u8; 3]], out: &mut BytesMut)
    requires { 4 * length interfaces.now ≤ out.old.spare }
    ensures items { out.new.items ≡ out.old.items ++ interfaces_bytes interfaces.now }
    ensures spare { out.new.spare + 4 * length interfaces.now ≡ out.old.spare }
{
    for interface in interfaces {
        put_interface(*interface, out);
    }
}

/// Appends class, subclass, protocol and a byte of padding.
fn put_interface(interface: [u8; 3], out: &mut BytesMut)
    requires { 4 ≤ out.old.spare }
    ensures items { out.new.items ≡ out.old.items ++ (interface ++ 0 ∷ []) }
    ensures spare { out.new.spare + 4 ≡ out.old.spare }
{
    out.extend_reserved(&interface);
    out.extend_reserved(&[0]);
}

/// What the types say of records, and of interfaces.
fn know_records(devices: &[DeviceRecord])
    ensures { AreRecords devices.now }
{
    for device in devices {
        know_record(*device);
    }
}

fn know_triples(interfaces: &[[u8; 3]])
    ensures { AreTriples interfaces.now }
{
    for interface in interfaces {
        know_triple(*interface);
    }
}

fn know_triple(interface: [u8; 3])
    ensures { length interface ≡ 3 }
{
    let _interface = interface;
}
