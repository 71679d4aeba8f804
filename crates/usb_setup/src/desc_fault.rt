use thiserror::Error;

/// Why no USBTMC interface was found in a list of descriptors. The faults are tried in this order.
#[derive(Clone, Copy, Debug, PartialEq, Eq, Error)]
pub enum DescFault {
    /// The list does not begin with a configuration descriptor of at least 9 bytes (then at 0), or the length
    /// byte of the descriptor at this place is below 2, passes the end, or is below the size of its type: 9 for
    /// a configuration or an interface, 7 for an endpoint.
    #[error("the descriptors are cut or damaged at byte {at}; read the device's configuration again, \
         with its wTotalLength as the length")]
    Length { at: u32 },
    /// No interface has class 0xFE, subclass 0x03 and protocol 0 or 1.
    #[error("the configuration has no USBTMC interface; check that the right device is attached and in the \
         configuration that offers USBTMC")]
    NoInterface,
    /// The interface has no Bulk-OUT endpoint.
    #[error("the USBTMC interface has no Bulk-OUT endpoint, which the class demands; update the device's \
         firmware or use another device")]
    NoBulkOut,
    /// The interface has a Bulk-OUT endpoint and no Bulk-IN endpoint.
    #[error("the USBTMC interface has no Bulk-IN endpoint, which the class demands; update the device's \
         firmware or use another device")]
    NoBulkIn,
}
