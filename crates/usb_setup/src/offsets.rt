ghost use Rattle.std.specs.Prelude.{◌≡◌, ◌<◌, ◌^◌, List, ℕ, ◌++◌};
ghost use Rattle.usb_setup.specs.Standard.{ConfigurationDescriptor, configuration_layout, InterfaceDescriptor, interface_layout, EndpointDescriptor, endpoint_layout};
ghost use Rattle.usb_setup.specs.Descriptors.{HasConfigurationFields, HasInterfaceFields, HasEndpointFields};

/// The law that a reader's fields, each at its offset, are those of the layouts that descriptors are written by,
/// whatever follows them.
pub fn offsets_are_laid_out()
    ensures configurations { (d : ConfigurationDescriptor) (more : List ℕ) →
        HasConfigurationFields (configuration_layout d ++ more) d }
    ensures interfaces { (d : InterfaceDescriptor) (more : List ℕ) →
        HasInterfaceFields (interface_layout d ++ more) d }
    ensures endpoints { (d : EndpointDescriptor) (more : List ℕ) → d.wMaxPacketSize < 2 ^ 16 →
        HasEndpointFields (endpoint_layout d ++ more) d }
{}
