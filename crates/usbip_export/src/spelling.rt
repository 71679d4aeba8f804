//! The spelling of what the instrument puts out.

ghost use Rattle.std.specs.Prelude.{◌≡◌, ◌++◌, ◌∷◌, [], ℕ, List, true, false, IfOk, OnOk, OnErr};
ghost use Rattle.tmc_law.specs.Put.{Put};
ghost use Rattle.tmc_law.specs.Run.{SpellsPut};
ghost use Rattle.usbip_export.specs.TakenIn.{SpellsOff};

use bytes::BytesMut;
use tmc_base::Memory;
use tmc_device::Device;
use tmc_law::Output;
use usbip_wire::{URB_HEADER, put_ret_submit, put_ret_unlink};

/// Spells the first answer behind `out`, and drops it. False where there is none. Where memory is wanting nothing has
/// changed.
fn spell_first(device: &mut Device, out: &mut BytesMut) -> Result<bool, Memory>
    ensures spelled { IfOk result (λ some. some ≡ true → (put : Put) × (text : List ℕ) × (device.old.puts ≡ put ∷ device.new.puts)
        × SpellsPut put text × (out.new.items ≡ out.old.items ++ text)) }
    ensures none { IfOk result (λ some. some ≡ false → (device.old.puts ≡ []) × (device.new ≡ device.old) × (out.new.items ≡ out.old.items)) }
    ensures state { device.new.state ≡ device.old.state }
    ensures err { OnErr result ((device.new ≡ device.old) × (out.new.items ≡ out.old.items)) }
{
    let Some((output, data)) = device.first_output() else {
        return Ok(false);
    };
    out.reserve(URB_HEADER + data.len())?;
    match output {
        Output::Submit(head) => put_ret_submit(head, data, out),
        Output::Unlink(head) => put_ret_unlink(head, out),
    }
    device.drop_output();
    Ok(true)
}

/// Spells all answers behind `out`, in their order, and drops them. Where memory is wanting the others are left.
pub(crate) fn spell_all(device: &mut Device, out: &mut BytesMut) -> Result<(), Memory>
    ensures spelled { SpellsOff device.old.puts device.new.puts out.old.items out.new.items }
    ensures state { device.new.state ≡ device.old.state }
    ensures ok { OnOk result (device.new.puts ≡ []) }
{
    'answers: loop {
        match spell_first(device, out) {
            Ok(true) => (),
            Ok(false) => return Ok(()),
            Err(Memory) => return Err(Memory),
        }
    }
}
