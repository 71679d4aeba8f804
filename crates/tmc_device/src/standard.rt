ghost use Rattle.std.specs.Prelude.{◌≡◌, ◌≤◌, [], length, vec_capacity};
ghost use Rattle.tmc_law.specs.Standard.{standard_layout, standard_effect};

use crate::answer::Asked;
use crate::body::Body;
use crate::endpoints::{BULK_IN, BULK_OUT, INTERRUPT_IN};
use bytes::BytesMut;
use usb_setup::{configuration, device_descriptor, put_string};

/// The standard requests that the instrument knows (USB 2.0, section 9.4 and table 9-3).
#[derive(Clone, Copy, Debug, PartialEq, Eq)]
pub(crate) enum StandardRequest {
    DeviceStatus,
    InterfaceStatus,
    /// The status of an endpoint, 0 to 3.
    EndpointStatus(u8),
    /// CLEAR_FEATURE of an endpoint's halt, 0 to 3.
    ClearHalt(u8),
    DeviceDescriptor,
    ConfigurationDescriptor,
    String(u8),
    Configuration,
    SetConfiguration,
    Interface,
    SetInterface,
}

impl Body {
    ghost use Rattle.tmc_device.specs.Body.{state_of, IsReady};
    ghost use Rattle.tmc_device.specs.Control.{IsAsked};
    ghost use Rattle.tmc_device.specs.Standard.{standard_of, IsKnown, DoesFirst};
    ghost use Rattle.tmc_device.specs.declared.answer.TheConstants.{LAYOUT_MAX};

    /// Answers a standard request of the first control submit, and does what it asks.
    pub(crate) fn answer_standard(
        &mut self,
        asked: &Asked,
        request: StandardRequest,
        mut layout: BytesMut,
        buffer: Vec<u8>,
    )
        requires ready { IsReady self.old }
        requires asked { IsAsked (state_of self.old) asked.now }
        requires laid_out { layout.items ≡ [] }
        requires spare { LAYOUT_MAX ≤ layout.spare }
        requires empty { buffer.items ≡ [] }
        requires capacity { LAYOUT_MAX ≤ vec_capacity buffer }
        requires known { IsKnown request }
        ensures { DoesFirst request asked.now self.old self.new }
    {
        self.lay_out(request, &mut layout);
        self.reply(asked, layout.as_slice(), buffer);
        self.do_standard(request);
    }

    /// The data of the answer.
    fn lay_out(&self, request: StandardRequest, layout: &mut BytesMut)
        requires laid_out { layout.old.items ≡ [] }
        requires spare { LAYOUT_MAX ≤ layout.old.spare }
        requires known { IsKnown request }
        ensures laid_out { layout.new.items ≡ standard_layout (standard_of request) (state_of self.now) }
        ensures short { length layout.new.items ≤ LAYOUT_MAX }
    {
        match request {
            StandardRequest::DeviceStatus => layout.extend_reserved(&[1, 0]),
            StandardRequest::InterfaceStatus => layout.extend_reserved(&[0, 0]),
            StandardRequest::EndpointStatus(ep) => {
                layout.extend_reserved(&[u8::from(self.pipes.halted(ep)), 0]);
            }
            StandardRequest::DeviceDescriptor => layout.extend_reserved(&device_descriptor()),
            StandardRequest::ConfigurationDescriptor => layout.extend_reserved(&configuration()),
            StandardRequest::String(index) => {
                put_string(index, layout);
            }
            StandardRequest::Configuration => layout.extend_reserved(&[1]),
            StandardRequest::Interface => layout.extend_reserved(&[0]),
            StandardRequest::ClearHalt(_)
            | StandardRequest::SetConfiguration
            | StandardRequest::SetInterface => (),
        }
    }

    /// What the request does: it ends halts.
    fn do_standard(&mut self, request: StandardRequest)
        requires { IsKnown request }
        ensures state { state_of self.new ≡ standard_effect (standard_of request) (state_of self.old) }
        ensures outputs { self.new.outputs ≡ self.old.outputs }
    {
        match request {
            StandardRequest::ClearHalt(ep) => self.pipes.unhalt(ep),
            StandardRequest::SetConfiguration | StandardRequest::SetInterface => {
                self.pipes.unhalt(INTERRUPT_IN);
                self.pipes.unhalt(BULK_IN);
                self.pipes.unhalt(BULK_OUT);
            }
            _ => (),
        }
    }
}
