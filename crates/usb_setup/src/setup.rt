ghost use Rattle.std.specs.Prelude.{◌≡◌};

/// The setup packet of a control request: USB 2.0 section 9.3, table 9-2. On the bus its 16-bit fields have
/// the low byte first. All eight-byte texts are setups.
#[derive(Clone, Copy, Debug, PartialEq, Eq)]
pub struct Setup {
    /// bmRequestType: bit 7 is set where data goes to the host, bits 6 and 5 are the type of the request,
    /// bits 4 to 0 its recipient.
    pub request_type: u8,
    /// bRequest, whose meaning depends on the type of the request.
    pub request: u8,
    /// wValue, a word whose meaning depends on the request.
    pub value: u16,
    /// wIndex, mostly the number of an interface or the address of an endpoint.
    pub index: u16,
    /// wLength: how many bytes of data the request has, or may get in answer.
    pub length: u16,
}

impl Setup {
    ghost use Rattle.usb_setup.specs.Setup.{setup_layout, Fits};

    /// The setup that these bytes are, in the order of the bus.
    pub fn from_bytes(bytes: [u8; 8]) -> Setup
        ensures laid_out { setup_layout result ≡ bytes }

        // No other setup is these bytes, so the setup of a setup's bytes is that setup.
        ensures only { (setup : Setup) → Fits setup → setup_layout setup ≡ bytes → result ≡ setup }
    {
        let [
            request_type,
            request,
            value_low,
            value_high,
            index_low,
            index_high,
            length_low,
            length_high,
        ] = bytes;
        Setup {
            request_type,
            request,
            value: u16::from_le_bytes([value_low, value_high]),
            index: u16::from_le_bytes([index_low, index_high]),
            length: u16::from_le_bytes([length_low, length_high]),
        }
    }

    /// Its eight bytes, in the order of the bus.
    pub fn to_bytes(self) -> [u8; 8]
        ensures { result ≡ setup_layout self }
    {
        let [value_low, value_high] = self.value.to_le_bytes();
        let [index_low, index_high] = self.index.to_le_bytes();
        let [length_low, length_high] = self.length.to_le_bytes();
        [
            self.request_type,
            self.request,
            value_low,
            value_high,
            index_low,
            index_high,
            length_low,
            length_high,
        ]
    }
}
