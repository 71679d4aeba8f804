ghost use Rattle.std.specs.Prelude.{◌≡◌, ℕ, ◌+◌, ◌≤◌, ◌++◌, ◌∷◌, [], List, length, take, true, None, IfOk};
ghost use Rattle.usbip_wire.specs.declared.dirs.Outstanding.TheVariants as entry;
ghost use Rattle.usbip_wire.specs.declared.down.DownPhase.TheVariants.{Ops, Urbs};
ghost use Rattle.usbip_wire.specs.ImportReply.{SpellsImport};
ghost use Rattle.usbip_wire.specs.Urb.{message_max};
ghost use Rattle.host_urbs.specs.Attach.{At, Stage, Importing, phase_of, entries_at, Undecided, IsAnswer};
ghost use Rattle.host_urbs.specs.Attaching.{Goes, HearsImport, HearsAnswer, is_imported, holding, took_rest};

use crate::attached::AttachFault;
use crate::exchange::take_byte;
use crate::front::Front;
use tmc_base::{Field, Layer, Link, Name};
use usbip_wire::{DeviceRecord, Dirs, Down, DownReader, RetSubmitHead};

/// What the bytes of the answer to an import are, as far as they came.
pub(crate) enum Import {
    /// They go on.
    More,
    /// They are the answer, with its device.
    Device(DeviceRecord),
    /// They are the answer, with a status that is not 0.
    NoDevice(u32),
    /// They are refused at this field.
    Bad(Field),
}

/// What the bytes of the answer to a submit are, as far as they came.
pub(crate) enum Answer {
    /// They go on.
    More,
    /// They are the answer.
    Whole(RetSubmitHead),
    /// They are refused at this field.
    Bad(Field),
}

/// The code of an operation's answer.
const CODE: Field = Field {
    layer: Layer::Op,
    name: Name::Code,
    offset: 2,
};

/// Takes the answer to an import, by at most `left` calls on the link.
pub(crate) fn take_import<L: Link>(
    link: &mut L,
    left: &mut u64,
    reader: &mut DownReader,
) -> Result<DeviceRecord, AttachFault>
    requires { reader.old ≡ holding (Ops 0 0) [] }
    ensures goes { (turns : ℕ) (busid : List ℕ) (s : At) → s.stage ≡ Importing → s.unsent ≡ [] → s.rest ≡ [] → s.calls + left.old ≡ turns
        → Goes L.told L.counts L.sends L.polls turns busid s link.old left.new link.new
        (λ device t. took_rest s t × SpellsImport 0 (Some device) t.rest) result }
{
    let mut front = Front::new();
    'bytes: loop {
        let byte = take_byte(link, left)?;
        match hear_import(reader, &mut front, byte) {
            Import::More => (),
            Import::Device(device) => return Ok(device),
            Import::NoDevice(status) => return Err(AttachFault::NoDevice(status)),
            Import::Bad(field) => return Err(AttachFault::Bad(field)),
        }
    }
}

/// The next byte of the answer to an import. A device list is refused at its code.
fn hear_import(reader: &mut DownReader, front: &mut Front, byte: u8) -> Import
    ensures { (bytes : List ℕ) → reader.old ≡ holding (Ops 0 0) bytes → front.old ≡ take 4 bytes → Undecided Importing bytes
        → HearsImport (bytes ++ byte ∷ []) result reader.new front.new }
{
    front.note(byte);
    if front.is_list() {
        return Import::Bad(CODE);
    }
    match reader.feed(&[byte], &Dirs::new()).what {
        Down::More => Import::More,
        Down::Import { status, device } => imported(status, device),
        Down::Bad(field) => Import::Bad(field),
        _ => Import::Bad(CODE),
    }
}

/// The answer to an import that has this status, and this device.
fn imported(status: u32, device: Option<DeviceRecord>) -> Import
    ensures { is_imported status device result }
{
    match device {
        Some(device) => Import::Device(device),
        None => Import::NoDevice(status),
    }
}

/// Takes the answer to the one submit in `dirs`, by at most `left` calls on the link.
pub(crate) fn take_answer<L: Link>(
    link: &mut L,
    left: &mut u64,
    reader: &mut DownReader,
    dirs: &Dirs,
) -> Result<RetSubmitHead, AttachFault>
    requires { reader.old ≡ holding Urbs [] }
    ensures goes { (turns : ℕ) (busid : List ℕ) (s : At) → phase_of s.stage ≡ Urbs → entries_at s.stage ≡ dirs.now → s.unsent ≡ [] → s.rest ≡ []
        → s.calls + left.old ≡ turns → Goes L.told L.counts L.sends L.polls turns busid s link.old left.new link.new
        (λ head t. took_rest s t × IsAnswer s.stage head t.rest × (reader.new ≡ record { phase = Urbs; rest = t.rest; whole = true; bad = None })) result }
    ensures held { IfOk result (λ _. length reader.new.rest ≤ message_max) }
{
    'bytes: loop {
        let byte = take_byte(link, left)?;
        match hear_answer(reader, dirs, byte) {
            Answer::More => (),
            Answer::Whole(head) => return Ok(head),
            Answer::Bad(field) => return Err(AttachFault::Bad(field)),
        }
    }
}

/// The next byte of the answer to the one submit in `dirs`.
fn hear_answer(reader: &mut DownReader, dirs: &Dirs, byte: u8) -> Answer
    ensures hears { (stage : Stage) (bytes : List ℕ) → phase_of stage ≡ Urbs → entries_at stage ≡ dirs.now → reader.old ≡ holding Urbs bytes
        → Undecided stage bytes → HearsAnswer stage (bytes ++ byte ∷ []) result reader.new }
    ensures held { length reader.new.rest ≤ message_max }
{
    match reader.feed(&[byte], dirs).what {
        Down::RetSubmit(head) => Answer::Whole(head),
        Down::Bad(field) => Answer::Bad(field),
        _ => Answer::More,
    }
}
