ghost use Rattle.std.specs.Prelude.{◌≡◌, ◌≢◌, ◌<◌, IfSome, IfNone};
ghost use Rattle.tmc_law.specs.Endpoint.{Endpoint, address_of};
ghost use Rattle.tmc_law.specs.Standard.{Standard, IsStandard};
ghost use Rattle.endpoint_pipes.specs.Held.{endpoint_of};
ghost use Rattle.tmc_device.specs.Standard.{standard_of, IsKnown, Describes, DescribesNothing};

use crate::endpoints::{BULK_IN, BULK_OUT, CONTROL, INTERRUPT_IN};
use crate::standard::StandardRequest;
use usb_setup::Setup;

/// The endpoint with this address.
fn endpoint_at(address: u16) -> Option<u8>
    ensures some { IfSome result (λ ep. (ep < 4) × (address ≡ address_of (endpoint_of ep))) }
    ensures none { IfNone result ((endpoint : Endpoint) → address ≢ address_of endpoint) }
{
    match address {
        0x00 => Some(CONTROL),
        0x01 => Some(BULK_OUT),
        0x82 => Some(BULK_IN),
        0x83 => Some(INTERRUPT_IN),
        _ => None,
    }
}

/// The descriptor that this wValue names.
fn descriptor_at(value: u16) -> Option<StandardRequest>
    ensures some { IfSome result (λ found. Describes value found) }
    ensures none { IfNone result (DescribesNothing value) }
{
    match value {
        0x0100 => Some(StandardRequest::DeviceDescriptor),
        0x0200 => Some(StandardRequest::ConfigurationDescriptor),
        0x0300 => Some(StandardRequest::String(0)),
        0x0301 => Some(StandardRequest::String(1)),
        0x0302 => Some(StandardRequest::String(2)),
        0x0303 => Some(StandardRequest::String(3)),
        _ => None,
    }
}

/// The standard request of a setup, or `None` where it is no row of the instrument's table. wLength may be any.
pub(crate) fn read_standard(setup: &Setup) -> Option<StandardRequest>
    ensures some { IfSome result (λ found. IsKnown found × IsStandard (standard_of found) setup.now) }
    ensures none { IfNone result ((request : Standard) → ¬ IsStandard request setup.now) }
{
    match (setup.request_type, setup.request, setup.value, setup.index) {
        (0x80, 0, 0, 0) => Some(StandardRequest::DeviceStatus),
        (0x81, 0, 0, 0) => Some(StandardRequest::InterfaceStatus),
        (0x82, 0, 0, index) => Some(StandardRequest::EndpointStatus(endpoint_at(index)?)),
        (0x02, 1, 0, index) => Some(StandardRequest::ClearHalt(endpoint_at(index)?)),
        (0x80, 6, value, _) => descriptor_at(value),
        (0x80, 8, 0, 0) => Some(StandardRequest::Configuration),
        (0x00, 9, 1, 0) => Some(StandardRequest::SetConfiguration),
        (0x81, 10, 0, 0) => Some(StandardRequest::Interface),
        (0x01, 11, 0, 0) => Some(StandardRequest::SetInterface),
        _ => None,
    }
}
