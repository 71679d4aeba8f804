ghost use Rattle.std.specs.Prelude.{◌≡◌, ◌<◌, ◌++◌, length, true, false, MatchOption, if◌then◌else◌};
ghost use Rattle.usb_setup.specs.Descriptors.{size_of, IsDescriptor, IsBad};
ghost use Rattle.usb_setup.specs.Interface.{is_tmc, is_endpoint};
ghost use Rattle.usb_setup.specs.Scan.{interface_of, endpoint_of};

use crate::standard::{
    CONFIGURATION, CONFIGURATION_SIZE, DEVICE, DEVICE_SIZE, ENDPOINT, ENDPOINT_SIZE, HEAD_SIZE,
    INTERFACE, INTERFACE_SIZE, TMC_CLASS, TMC_SUBCLASS, USB488, USBTMC,
};

/// What is kept of a USBTMC interface.
#[derive(Clone, Copy)]
pub(crate) struct Interface {
    pub(crate) number: u8,
    pub(crate) protocol: u8,
}

/// What is kept of an endpoint.
#[derive(Clone, Copy)]
pub(crate) struct Endpoint {
    pub(crate) address: u8,
    pub(crate) attributes: u8,
    pub(crate) max_packet_size: u16,
}

/// The least length of a descriptor of this type, 0 for a type that is skipped unread.
fn size_of_type(descriptor_type: u8) -> u8
    ensures { result ≡ size_of descriptor_type }
{
    match descriptor_type {
        DEVICE => DEVICE_SIZE,
        CONFIGURATION => CONFIGURATION_SIZE,
        INTERFACE => INTERFACE_SIZE,
        ENDPOINT => ENDPOINT_SIZE,
        _ => 0,
    }
}

/// The descriptor in front and what stands behind it, or `None` where its length is bad.
pub(crate) fn split_descriptor(bytes: &[u8]) -> Option<(&[u8], &[u8])>
    requires { 0 < length bytes.now }
    ensures { MatchOption result
        (IsBad bytes.now)
        (λ parts. IsDescriptor parts.0.now × (bytes.now ≡ parts.0.now ++ parts.1.now)) }
{
    let [length, descriptor_type, ..] = bytes else {
        return None;
    };
    if *length < HEAD_SIZE || *length < size_of_type(*descriptor_type) {
        return None;
    }
    let length = usize::from(*length);
    if bytes.len() < length {
        return None;
    }
    Some(bytes.split_at(length))
}

/// The interface, where the descriptor is one of USBTMC.
pub(crate) fn read_tmc_interface(descriptor: &[u8]) -> Option<Interface>
    requires { IsDescriptor descriptor.now }
    ensures { MatchOption result
        (is_tmc descriptor.now ≡ false)
        (λ interface. (is_tmc descriptor.now ≡ true) × (interface ≡ interface_of descriptor.now)) }
{
    let [_, INTERFACE, number, _, _, class, subclass, protocol, ..] = descriptor else {
        return None;
    };
    match (*class, *subclass, *protocol) {
        (TMC_CLASS, TMC_SUBCLASS, USBTMC | USB488) => Some(Interface {
            number: *number,
            protocol: *protocol,
        }),
        _ => None,
    }
}

/// The endpoint, where the descriptor is one.
pub(crate) fn read_endpoint(descriptor: &[u8]) -> Option<Endpoint>
    requires { IsDescriptor descriptor.now }
    ensures { MatchOption result
        (is_endpoint descriptor.now ≡ false)
        (λ endpoint. (is_endpoint descriptor.now ≡ true) × (endpoint ≡ endpoint_of descriptor.now)) }
{
    match descriptor {
        [_, ENDPOINT, address, attributes, low, high, ..] => Some(Endpoint {
            address: *address,
            attributes: *attributes,
            max_packet_size: u16::from_le_bytes([*low, *high]),
        }),
        _ => None,
    }
}
