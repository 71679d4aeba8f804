ghost use Rattle.std.specs.Prelude.{◌≡◌, ◌≢◌, ℕ, pos, ◌+◌, ◌≤◌, ◌++◌, ◌∷◌, [], List, length, All, None, true, IfOk, IfErr};
ghost use Rattle.tmc_base.specs.declared.limits.TheConstants.{SUBMIT_MAX};
ghost use Rattle.usb_setup.specs.Interface.{Finds};
ghost use Rattle.usbip_wire.specs.declared.dirs.Outstanding.TheVariants as entry;
ghost use Rattle.usbip_wire.specs.declared.down.DownPhase.TheVariants.{Urbs};
ghost use Rattle.usbip_wire.specs.declared.urb.TheConstants.{ENDPOINT_MAX, URB_HEADER};
ghost use Rattle.usbip_wire.specs.DownFed.{data_of};
ghost use Rattle.usbip_wire.specs.ImportReply.{SpellsImport};
ghost use Rattle.usbip_wire.specs.Submit.{Carries};
ghost use Rattle.usbip_wire.specs.Up as up;
ghost use Rattle.usbip_wire.specs.Urb.{message_max};
ghost use Rattle.host_urbs.specs.Attach.{At, Stage, Importing, Describing, Configuring, request_of, phase_of, entries_at, devid_of, padded, begun, Stops, Attaches};
ghost use Rattle.host_urbs.specs.Attached.{AttachCounts, IsAttached, Exchanges};
ghost use Rattle.host_urbs.specs.Attaching.{Goes, IsImported, IsGood, IsDescribed, holding};
ghost use Rattle.host_urbs.specs.Held.{bytes_of};

use crate::attached::{AttachFault, Attached};
use crate::exchange::send_all;
use crate::replies::{take_answer, take_import};
use bytes::BytesMut;
use std::alloc::Global;
use tmc_base::{Link, Memory};
use usb_setup::{Ends, Setup, find_interface};
use usbip_wire::{
    DeviceRecord, Dir, Dirs, DownReader, OpRequest, SubmitHead, URB_HEADER, put_op_request,
    put_submit,
};

/// The bytes of an import's request.
const IMPORT_REQUEST: usize = 40;

/// GET_DESCRIPTOR of the first configuration descriptor, of at most 4,096 bytes (USB 2.0, section 9.4.3).
const GET_CONFIGURATION: Setup = Setup {
    request_type: 0x80,
    request: 6,
    value: 0x0200,
    index: 0,
    length: 4_096,
};

/// Imports the device with this bus id, reads its configuration descriptor as submit 1, and sets that configuration as
/// submit 2, by at most `turns` calls on the link. Each request is sent whole before the link is polled, and no byte behind
/// the awaited answer is taken.
///
/// # Errors
///
/// The first event of this call that forbids it: [`AttachFault`] names them.
pub fn attach<L: Link>(
    alloc: Global,
    link: &mut L,
    busid: &[u8],
    turns: u64,
) -> Result<Attached, AttachFault>
    requires some { 1 ≤ length busid.now }
    requires few { length busid.now ≤ 31 }
    requires no_zero { All (λ byte. byte ≢ 0) busid.now }
    ensures attached { IfOk result (λ attached. Attaches L.told L.counts L.sends L.polls turns busid.now (begun busid.now) link.old attached link.new) }
    ensures stopped { IfErr result (λ fault. Stops L.told L.counts L.sends L.polls turns busid.now (begun busid.now) link.old fault link.new) }
    ensures spelled { IfOk result (λ attached. Exchanges (L.told link.old) (L.told link.new) (IsAttached attached)) }
    ensures counts { AttachCounts result (L.counts link.old) (L.counts link.new) }
{
    let mut left = turns;
    let device = import(alloc, link, &mut left, busid)?;
    let devid = devid_of(&device);
    let ends = describe(alloc, link, &mut left, devid)?;
    configure(alloc, link, &mut left, devid, ends)?;
    Ok(Attached {
        devid,
        ends,
        next: 3,
    })
}

/// Imports the device with this bus id.
fn import<L: Link>(
    alloc: Global,
    link: &mut L,
    left: &mut u64,
    busid: &[u8],
) -> Result<DeviceRecord, AttachFault>
    requires { length busid.now ≤ 32 }
    ensures goes { (turns : ℕ) (s : At) → s.stage ≡ Importing → s.unsent ≡ request_of busid.now Importing → s.rest ≡ [] → s.calls + left.old ≡ turns
        → Goes L.told L.counts L.sends L.polls turns busid.now s link.old left.new link.new (λ device t. IsImported device t) result }
{
    let request = import_request(alloc, busid)?;
    let mut reader = DownReader::ops(alloc)?;
    send_all(link, left, request.as_slice())?;
    take_import(link, left, &mut reader)
}

/// The USBTMC interface of the imported device, by its configuration descriptor.
fn describe<L: Link>(
    alloc: Global,
    link: &mut L,
    left: &mut u64,
    devid: u32,
) -> Result<Ends, AttachFault>
    ensures goes { (turns : ℕ) (busid : List ℕ) (s : At) → s.stage ≡ Describing devid → s.unsent ≡ request_of busid (Describing devid) → s.rest ≡ []
        → s.calls + left.old ≡ turns → Goes L.told L.counts L.sends L.polls turns busid s link.old left.new link.new (λ ends t. IsDescribed devid ends t) result }
{
    let head = SubmitHead {
        seqnum: 1,
        devid,
        dir: Dir::In,
        ep: 0,
        length: 4_096,
        setup: GET_CONFIGURATION.to_bytes(),
    };
    let mut reader = DownReader::urbs(alloc)?;
    submit(alloc, link, left, head, &mut reader)?;
    match find_interface(reader.data()) {
        Ok(ends) => Ok(ends),
        Err(fault) => Err(AttachFault::Desc(fault)),
    }
}

/// Sets the device to the configuration that its descriptor has.
fn configure<L: Link>(
    alloc: Global,
    link: &mut L,
    left: &mut u64,
    devid: u32,
    ends: Ends,
) -> Result<(), AttachFault>
    ensures goes { (turns : ℕ) (busid : List ℕ) (s : At) → s.stage ≡ Configuring devid ends → s.unsent ≡ request_of busid (Configuring devid ends) → s.rest ≡ []
        → s.calls + left.old ≡ turns → Goes L.told L.counts L.sends L.polls turns busid s link.old left.new link.new
        (λ done t. (t.stage ≡ s.stage) × IsGood t) result }
{
    let set_configuration = Setup {
        request_type: 0x00,
        request: 9,
        value: u16::from(ends.configuration),
        index: 0,
        length: 0,
    };
    let head = SubmitHead {
        seqnum: 2,
        devid,
        dir: Dir::Out,
        ep: 0,
        length: 0,
        setup: set_configuration.to_bytes(),
    };
    let mut reader = DownReader::urbs(alloc)?;
    submit(alloc, link, left, head, &mut reader)
}

/// Makes a submit without data, and takes its answer, whose status has to be 0.
fn submit<L: Link>(
    alloc: Global,
    link: &mut L,
    left: &mut u64,
    head: SubmitHead,
    reader: &mut DownReader,
) -> Result<(), AttachFault>
    requires begun { reader.old ≡ holding Urbs [] }
    requires endpoint { head.ep ≤ ENDPOINT_MAX }
    requires short { head.length ≤ SUBMIT_MAX }
    requires carried { Carries head.dir head.length [] }
    ensures goes { (turns : ℕ) (busid : List ℕ) (s : At) → phase_of s.stage ≡ Urbs → entries_at s.stage ≡ entry.Submit head.seqnum head.dir head.length ∷ []
        → s.unsent ≡ bytes_of (up.Submit head []) → s.rest ≡ [] → s.calls + left.old ≡ turns
        → Goes L.told L.counts L.sends L.polls turns busid s link.old left.new link.new
        (λ done t. (t.stage ≡ s.stage) × IsGood t × (reader.new ≡ record { phase = Urbs; rest = t.rest; whole = true; bad = None })) result }
    ensures held { IfOk result (λ _. length (data_of reader.new) ≤ message_max) }
{
    let request = submit_request(alloc, head)?;
    let mut dirs = Dirs::new();
    dirs.add_submit(head.seqnum, head.dir, head.length);
    send_all(link, left, request.as_slice())?;
    let answer = take_answer(link, left, reader, &dirs)?;
    if answer.status != 0 {
        return Err(AttachFault::DeviceFault(answer.status));
    }
    Ok(())
}

/// The request of an import.
fn import_request(alloc: Global, busid: &[u8]) -> Result<BytesMut, Memory>
    requires { length busid.now ≤ 32 }
    ensures { IfOk result (λ bytes. bytes.items ≡ request_of busid.now Importing) }
{
    let mut bytes = BytesMut::with_capacity(alloc, IMPORT_REQUEST)?;
    put_op_request(
        OpRequest::Import {
            busid: padded(busid),
        },
        &mut bytes,
    );
    Ok(bytes)
}

/// A submit without data.
fn submit_request(alloc: Global, head: SubmitHead) -> Result<BytesMut, Memory>
    requires endpoint { head.ep ≤ ENDPOINT_MAX }
    requires short { head.length ≤ SUBMIT_MAX }
    requires carried { Carries head.dir head.length [] }
    ensures { IfOk result (λ bytes. bytes.items ≡ bytes_of (up.Submit head [])) }
{
    let mut bytes = BytesMut::with_capacity(alloc, URB_HEADER)?;
    put_submit(head, &[], &mut bytes);
    Ok(bytes)
}

/// A bus id, padded with zeros.
fn padded(busid: &[u8]) -> [u8; 32]
    requires { length busid.now ≤ 32 }
    ensures { result ≡ padded busid.now }
{
    let mut bytes = [0; 32];
    bytes[..busid.len()].copy_from_slice(busid);
    bytes
}

/// The number of an imported device on the wire: of its bus and its place there, the low 32 bits.
fn devid_of(device: &DeviceRecord) -> u32
    ensures { result ≡ devid_of device.now }
{
    device.busnum.wrapping_shl(16) | device.devnum
}
