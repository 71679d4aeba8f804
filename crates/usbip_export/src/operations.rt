//! The replies to operations.

ghost use Rattle.std.specs.Prelude.{◌≡◌, ◌++◌, ◌+◌, ◌≤◌, ◌↔◌, length, IsTrue, OnOk, OnErr};
ghost use Rattle.usbip_wire.specs.declared.op_request.OpRequest.TheVariants.{Import};
ghost use Rattle.usbip_export.specs.Identity.{busid};
ghost use Rattle.usbip_export.specs.Operations.{device_list, import_done, import_failed};

use crate::identity::{busid, interface_triple, record};
use bytes::BytesMut;
use tmc_base::Memory;
use usbip_wire::{OpRequest, put_device_list, put_import_reply};

/// The bytes of a device list with one device of one interface.
const LIST_SIZE: usize = 328;

/// The bytes of the reply to an import that is done, and to one that is not.
const DONE_SIZE: usize = 320;

const FAILED_SIZE: usize = 8;

/// Whether the request imports the instrument.
pub(crate) fn is_own(id: &[u8; 32]) -> bool
    ensures { IsTrue result ↔ (id.now ≡ busid) }
{
    *id == busid()
}

/// Appends the list of exported devices.
pub(crate) fn put_list(out: &mut BytesMut) -> Result<(), Memory>
    ensures ok { OnOk result (out.new.items ≡ out.old.items ++ device_list) }
    ensures err { OnErr result (out.new.items ≡ out.old.items) }
{
    out.reserve(LIST_SIZE)?;
    put_device_list(0, &[record()], &[interface_triple()], out);
    Ok(())
}

/// Appends the reply to an import of the instrument.
pub(crate) fn put_done(out: &mut BytesMut) -> Result<(), Memory>
    ensures ok { OnOk result (out.new.items ≡ out.old.items ++ import_done) }
    ensures err { OnErr result (out.new.items ≡ out.old.items) }
{
    out.reserve(DONE_SIZE)?;
    put_import_reply(0, Some(&record()), out);
    Ok(())
}

/// Appends the reply to an import of another bus id.
pub(crate) fn put_failed(out: &mut BytesMut) -> Result<(), Memory>
    ensures ok { OnOk result (out.new.items ≡ out.old.items ++ import_failed) }
    ensures err { OnErr result (out.new.items ≡ out.old.items) }
{
    out.reserve(FAILED_SIZE)?;
    put_import_reply(1, None, out);
    Ok(())
}
