ghost use Rattle.std.specs.Prelude.{◌≡◌, true, IfOk};

use crate::identity::{DEVID, devid_is_the_records};
use bytes::BytesMut;
use std::alloc::Global;
use tmc_base::{Field, Memory};
use tmc_device::Device;
use usbip_wire::{Up, UpReader};

/// What a node consists of.
#[derive(Drop)]
pub(crate) struct Body {
    pub(crate) alloc: Global,
    pub(crate) device: Device,
    /// Whether the client imported the instrument.
    pub(crate) imported: bool,
    pub(crate) reader: UpReader,
    /// The message that the reader gave last, until it is taken in.
    pub(crate) waiting: Option<Up>,
    /// The bytes that were fed and not read.
    pub(crate) late: BytesMut,
    /// The field that was refused.
    pub(crate) refused: Option<Field>,
    /// Whether memory was wanting, so that whole messages or answers may wait.
    pub(crate) wanting: bool,
    /// The bytes that were answered and not sent.
    pub(crate) out: BytesMut,
}

impl Body {
    ghost use Rattle.usbip_export.specs.Body.{seen_of, IsSound};
    ghost use Rattle.usbip_export.specs.Seen.{begun};

    /// A node before an import, or behind one.
    pub(crate) fn new(alloc: Global, imported: bool) -> Result<Body, Memory>
        ensures begun { IfOk result (λ body. seen_of body ≡ begun imported) }
        ensures sound { IfOk result IsSound }
    {
        devid_is_the_records();
        let reader = if imported {
            UpReader::urbs(alloc, DEVID)?
        } else {
            UpReader::ops(alloc)?
        };
        Ok(Body {
            alloc,
            device: Device::new(alloc)?,
            imported,
            reader,
            waiting: None,
            late: BytesMut::new(alloc),
            refused: None,
            wanting: false,
            out: BytesMut::new(alloc),
        })
    }
}
