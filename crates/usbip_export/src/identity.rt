//! The instrument as USB/IP exports it.

ghost use Rattle.std.specs.Prelude.{◌≡◌};
ghost use Rattle.usbip_export.specs.Identity as identity;
ghost use Rattle.usbip_export.specs.Identity.{instrument, interface};

use usbip_wire::DeviceRecord;

const PATH: &[u8] = b"/sys/devices/tmc/1-1";

const BUSID: &[u8] = b"1-1";

/// By what a client names the imported instrument: bus 1, device 2.
pub(crate) const DEVID: u32 = 0x0001_0002;

/// The bus id, padded with zeros.
pub(crate) fn busid() -> [u8; 32]
    ensures { result ≡ identity.busid }
{
    let mut padded = [0; 32];
    padded[..BUSID.len()].copy_from_slice(BUSID);
    padded
}

fn path() -> [u8; 256]
    ensures { result ≡ identity.path }
{
    let mut padded = [0; 256];
    padded[..PATH.len()].copy_from_slice(PATH);
    padded
}

/// The device record.
pub(crate) fn record() -> DeviceRecord
    ensures { result ≡ instrument }
{
    DeviceRecord {
        path: path(),
        busid: busid(),
        busnum: 1,
        devnum: 2,
        speed: 2,
        id_vendor: 0xF055,
        id_product: 0x0488,
        bcd_device: 0x0100,
        device_class: 0,
        device_subclass: 0,
        device_protocol: 0,
        configuration_value: 1,
        configurations: 1,
        interfaces: 1,
    }
}

/// Class, subclass and protocol of the interface.
pub(crate) fn interface_triple() -> [u8; 3]
    ensures { result ≡ interface }
{
    [0xFE, 0x03, 0x01]
}

/// The devid is that of the record.
pub(crate) fn devid_is_the_records()
    ensures { DEVID ≡ identity.devid }
{}
