ghost use Rattle.std.specs.Prelude.{◌≡◌, ◌<◌, ◌^◌, [], length, MatchResult};
ghost use Rattle.usb_setup.specs.Descriptors.{IsDescriptor};
ghost use Rattle.usb_setup.specs.Interface.{is_interface};
ghost use Rattle.usb_setup.specs.Scan.{pipes_of, pipes_with, scan_after, HasScannedTo, HasStopped, ends_with, ends_of};

use crate::descriptor::{Endpoint, Interface, read_endpoint, read_tmc_interface, split_descriptor};
use crate::standard::{BULK, DIRECTION, IN, INTERFACE, INTERRUPT, OUT, TRANSFER_TYPE};
use crate::{DescFault, Ends};

/// The first endpoint of each kind.
#[derive(Clone, Copy)]
pub(crate) struct Pipes {
    bulk_out: Option<Endpoint>,
    bulk_in: Option<Endpoint>,
    interrupt_in: Option<Endpoint>,
}

impl Pipes {
    fn new() -> Pipes
        ensures { result ≡ pipes_of [] }
    {
        Pipes {
            bulk_out: None,
            bulk_in: None,
            interrupt_in: None,
        }
    }

    /// These, and those of the descriptor that are the first of their kind.
    fn with(self, descriptor: &[u8]) -> Pipes
        requires { IsDescriptor descriptor.now }
        ensures { result ≡ pipes_with self descriptor.now }
    {
        let Some(endpoint) = read_endpoint(descriptor) else {
            return self;
        };
        let first = Some(endpoint);
        match (
            endpoint.attributes & TRANSFER_TYPE,
            endpoint.address & DIRECTION,
        ) {
            (BULK, OUT) => Pipes {
                bulk_out: self.bulk_out.or(first),
                ..self
            },
            (BULK, IN) => Pipes {
                bulk_in: self.bulk_in.or(first),
                ..self
            },
            (INTERRUPT, IN) => Pipes {
                interrupt_in: self.interrupt_in.or(first),
                ..self
            },
            _ => self,
        }
    }

    /// The ends, or the first endpoint that is missing.
    fn ends(self, configuration: u8, interface: Interface) -> Result<Ends, DescFault>
        ensures { result ≡ ends_with configuration interface self }
    {
        let Some(bulk_out) = self.bulk_out else {
            return Err(DescFault::NoBulkOut);
        };
        let Some(bulk_in) = self.bulk_in else {
            return Err(DescFault::NoBulkIn);
        };
        Ok(Ends {
            configuration,
            interface: interface.number,
            protocol: interface.protocol,
            bulk_out: bulk_out.address,
            bulk_in: bulk_in.address,
            notify: self.interrupt_in.map(|endpoint| endpoint.address),
            notify_size: self
                .interrupt_in
                .map_or(0, |endpoint| endpoint.max_packet_size),
        })
    }
}

/// What the descriptors so far say of the first USBTMC interface.
#[derive(Clone, Copy)]
pub(crate) enum Scan {
    /// None was there yet.
    Before,
    /// It was there, and no interface behind it.
    Within(Interface, Pipes),
    /// Another interface was there behind it.
    Behind(Interface, Pipes),
}

fn is_interface_descriptor(descriptor: &[u8]) -> bool
    ensures { result ≡ is_interface descriptor.now }
{
    matches!(descriptor, [_, INTERFACE, ..])
}

impl Scan {
    fn after(self, descriptor: &[u8]) -> Scan
        requires { IsDescriptor descriptor.now }
        ensures { result ≡ scan_after self descriptor.now }
    {
        match self {
            Scan::Before => match read_tmc_interface(descriptor) {
                Some(interface) => Scan::Within(interface, Pipes::new()),
                None => Scan::Before,
            },
            Scan::Within(interface, pipes) if is_interface_descriptor(descriptor) => {
                Scan::Behind(interface, pipes)
            }
            Scan::Within(interface, pipes) => Scan::Within(interface, pipes.with(descriptor)),
            Scan::Behind(..) => self,
        }
    }

    /// The scan of a whole list, or the place of its first bad length.
    pub(crate) fn of(bytes: &[u8]) -> Result<Scan, DescFault>
        requires { length bytes.now < 2 ^ 32 }
        ensures { MatchResult result (HasScannedTo bytes.now []) (HasStopped bytes.now) }
    {
        let mut scan = Scan::Before;
        let mut rest = bytes;
        while !rest.is_empty() {
            let Some((descriptor, behind)) = split_descriptor(rest) else {
                let at = (bytes.len() - rest.len()) as u32;
                return Err(DescFault::Length { at });
            };
            scan = scan.after(descriptor);
            rest = behind;
        }
        Ok(scan)
    }

    pub(crate) fn ends(self, configuration: u8) -> Result<Ends, DescFault>
        ensures { result ≡ ends_of configuration self }
    {
        match self {
            Scan::Before => Err(DescFault::NoInterface),
            Scan::Within(interface, pipes) | Scan::Behind(interface, pipes) => {
                pipes.ends(configuration, interface)
            }
        }
    }
}
