ghost use Rattle.std.specs.Prelude.{◌≡◌, ◌<◌, ◌^◌, ◌↔◌, length, Ok, Err, MatchOption};
ghost use Rattle.usb_setup.specs.declared.desc_fault.DescFault.{DescFault};
ghost use Rattle.usb_setup.specs.declared.ends.Ends.{Ends};
ghost use Rattle.usb_setup.specs.Interface.{Finds, FaultIs};
ghost use Rattle.usb_setup.specs.Descriptors.{BeginsWithConfiguration, bConfigurationValue, IsBrokenAt};

use crate::DescFault;
use crate::scan::Scan;
use crate::standard::{CONFIGURATION, CONFIGURATION_SIZE};

/// The USBTMC interface of a device, and the addresses of its endpoints.
#[derive(Clone, Copy, Debug, PartialEq, Eq)]
pub struct Ends {
    /// bConfigurationValue of the configuration: what SET_CONFIGURATION selects it by.
    pub configuration: u8,
    /// bInterfaceNumber of the interface.
    pub interface: u8,
    /// bInterfaceProtocol: 0 is USBTMC alone, 1 is USB488.
    pub protocol: u8,
    /// bEndpointAddress of the first Bulk-OUT endpoint.
    pub bulk_out: u8,
    /// bEndpointAddress of the first Bulk-IN endpoint, bit 7 set.
    pub bulk_in: u8,
    /// bEndpointAddress of the first Interrupt-IN endpoint, bit 7 set, where there is one.
    pub notify: Option<u8>,
    /// wMaxPacketSize of the first Interrupt-IN endpoint, in bytes; 0 where there is none.
    pub notify_size: u16,
}

/// bConfigurationValue of the configuration descriptor that begins the list, or `None` where none does.
fn configuration_value(bytes: &[u8]) -> Option<u8>
    ensures { MatchOption result
        (IsBrokenAt bytes.now 0)
        (λ value. BeginsWithConfiguration bytes.now × (value ≡ bConfigurationValue bytes.now)) }
{
    match bytes {
        [(CONFIGURATION_SIZE..), CONFIGURATION, _, _, _, value, ..] => Some(*value),
        _ => None,
    }
}

/// Finds the first interface of class 0xFE, subclass 0x03 and protocol 0 or 1 in the descriptors of a
/// configuration, as GET_DESCRIPTOR gives them, and its first Bulk-OUT, Bulk-IN and Interrupt-IN endpoints: USB
/// 2.0 sections 9.5, 9.6.3, 9.6.5 and 9.6.6.
///
/// An interface's endpoints are those up to the next interface descriptor, so each alternate setting is an
/// interface of its own. Descriptors of other types are skipped by their length, and what a descriptor has
/// beyond the size of its type is ignored. The list has fewer than 2^32 bytes. One pass; takes no memory.
///
/// # Errors
///
/// `Length` where the bytes are no list of descriptors, then `NoInterface`, `NoBulkOut` and `NoBulkIn`, the
/// first that holds.
pub fn find_interface(bytes: &[u8]) -> Result<Ends, DescFault>
    requires { length bytes.now < 2 ^ 32 }
    ensures found { (ends : Ends) → (result ≡ Ok ends) ↔ Finds bytes.now ends }
    ensures fault { (fault : DescFault) → (result ≡ Err fault) ↔ FaultIs bytes.now fault }
{
    let configuration = configuration_value(bytes).ok_or(DescFault::Length { at: 0 })?;
    let scan = Scan::of(bytes)?;
    scan.ends(configuration)
}
