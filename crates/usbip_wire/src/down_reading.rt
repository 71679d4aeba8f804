//! A device's messages at the front of some bytes.

ghost use Rattle.std.specs.Prelude.{Some};
ghost use Rattle.usbip_wire.specs.Form.{read};
ghost use Rattle.usbip_wire.specs.Given.{Gives};
ghost use Rattle.usbip_wire.specs.DownForm.{record_form, interface_form, reply_form, ret_submit_form, ret_unlink_form, answer_form, ops_form, down_form};

use crate::device::DeviceRecord;
use crate::dirs::{Dirs, Outstanding};
use crate::down::{Down, DownPhase, RecordOf};
use crate::fields::{ACTUAL_LENGTH, CODE, COMMAND, PACKETS, SEQNUM, VERSION};
use crate::op::{REP_DEVLIST, REP_IMPORT, USBIP_VERSION};
use crate::reading::{accept, array, be16, be32, block};
use crate::stop::Stop;
use crate::urb::{Dir, NOT_ISOCHRONOUS, RET_SUBMIT, RET_UNLINK};
use crate::{RetSubmitHead, RetUnlinkHead};

/// The message at the front, and what follows it.
pub(crate) fn read_down<'a>(
    phase: DownPhase,
    dirs: &Dirs,
    held: &'a [u8],
) -> Result<(Down, &'a [u8]), Stop>
    ensures { Gives (λ x. (x.0, x.1.now)) result (read (down_form phase dirs.now) held.now) }
{
    match phase {
        DownPhase::Ops {
            devices,
            interfaces,
        } => read_part(devices, interfaces, held),
        DownPhase::Urbs => read_answer(dirs, held),
    }
}

fn read_part(devices: u32, interfaces: u8, held: &[u8]) -> Result<(Down, &[u8]), Stop>
    ensures { Gives (λ x. (x.0, x.1.now)) result (read (ops_form devices interfaces) held.now) }
{
    if interfaces != 0 {
        read_interface(held)
    } else if devices != 0 {
        read_record(RecordOf::List, held)
    } else {
        read_reply(held)
    }
}

fn read_interface(held: &[u8]) -> Result<(Down, &[u8]), Stop>
    ensures { Gives (λ x. (x.0, x.1.now)) result (read interface_form held.now) }
{
    let (last, rest) = array::<4>(held)?;
    let interface = Down::Interface {
        class: last[0],
        subclass: last[1],
        protocol: last[2],
    };
    Ok((interface, rest))
}

fn read_reply(held: &[u8]) -> Result<(Down, &[u8]), Stop>
    ensures { Gives (λ x. (x.0, x.1.now)) result (read reply_form held.now) }
{
    let (version, rest) = be16(held)?;
    accept(version == USBIP_VERSION, VERSION)?;
    let (code, rest) = be16(rest)?;
    accept(code == REP_DEVLIST || code == REP_IMPORT, CODE)?;
    let (status, rest) = be32(rest)?;
    if code == REP_DEVLIST {
        let (devices, rest) = be32(rest)?;
        return Ok((Down::Count { status, devices }, rest));
    }
    if status == 0 {
        read_record(RecordOf::Import, rest)
    } else {
        let refused = Down::Import {
            status,
            device: None,
        };
        Ok((refused, rest))
    }
}

#[tactic(auto, unfolding(crate::specs::DownForm::record_form))]
fn read_record(of: RecordOf, held: &[u8]) -> Result<(Down, &[u8]), Stop>
    ensures { Gives (λ x. (x.0, x.1.now)) result (read (record_form of) held.now) }
{
    let (path, rest) = array::<256>(held)?;
    let (busid, rest) = array::<32>(rest)?;
    let (busnum, rest) = be32(rest)?;
    let (devnum, rest) = be32(rest)?;
    let (speed, rest) = be32(rest)?;
    let (id_vendor, rest) = be16(rest)?;
    let (id_product, rest) = be16(rest)?;
    let (bcd_device, rest) = be16(rest)?;
    let (last, rest) = array::<6>(rest)?;
    let device = DeviceRecord {
        path,
        busid,
        busnum,
        devnum,
        speed,
        id_vendor,
        id_product,
        bcd_device,
        device_class: last[0],
        device_subclass: last[1],
        device_protocol: last[2],
        configuration_value: last[3],
        configurations: last[4],
        interfaces: last[5],
    };
    Ok((of.told(device), rest))
}

fn read_answer<'a>(dirs: &Dirs, held: &'a [u8]) -> Result<(Down, &'a [u8]), Stop>
    ensures { Gives (λ x. (x.0, x.1.now)) result (read (answer_form dirs.now) held.now) }
{
    let (command, rest) = be32(held)?;
    accept(command == RET_SUBMIT || command == RET_UNLINK, COMMAND)?;
    let (seqnum, rest) = be32(rest)?;
    if command == RET_SUBMIT {
        match dirs.find(seqnum) {
            Some(Outstanding::Submit { dir, length, .. }) => {
                read_ret_submit(seqnum, dir, length, rest)
            }
            _ => Err(Stop::Refused(SEQNUM)),
        }
    } else {
        match dirs.find(seqnum) {
            Some(Outstanding::Unlink { .. }) => read_ret_unlink(seqnum, rest),
            _ => Err(Stop::Refused(SEQNUM)),
        }
    }
}

#[tactic(auto, unfolding(crate::specs::DownForm::ret_submit_form))]
fn read_ret_submit(seqnum: u32, dir: Dir, length: u32, rest: &[u8]) -> Result<(Down, &[u8]), Stop>
    ensures { Gives (λ x. (x.0, x.1.now)) result (read (ret_submit_form seqnum (Some (dir, length))) rest.now) }
{
    let (_devid, rest) = be32(rest)?;
    let (_direction, rest) = be32(rest)?;
    let (_ep, rest) = be32(rest)?;
    let (status, rest) = be32(rest)?;
    let (actual, rest) = be32(rest)?;
    accept(actual <= length, ACTUAL_LENGTH)?;
    let (_start_frame, rest) = be32(rest)?;
    let (packets, rest) = be32(rest)?;
    accept(packets == NOT_ISOCHRONOUS || packets == 0, PACKETS)?;
    let (_error_count, rest) = be32(rest)?;
    let (_padding_high, rest) = be32(rest)?;
    let (_padding_low, rest) = be32(rest)?;
    let (_data, rest) = block(dir.returned(actual), rest)?;
    let head = RetSubmitHead {
        seqnum,
        status: status.cast_signed(),
        actual,
    };
    Ok((Down::RetSubmit(head), rest))
}

#[tactic(auto, unfolding(crate::specs::DownForm::ret_unlink_form))]
fn read_ret_unlink(seqnum: u32, rest: &[u8]) -> Result<(Down, &[u8]), Stop>
    ensures { Gives (λ x. (x.0, x.1.now)) result (read (ret_unlink_form seqnum) rest.now) }
{
    let (_devid, rest) = be32(rest)?;
    let (_direction, rest) = be32(rest)?;
    let (_ep, rest) = be32(rest)?;
    let (status, rest) = be32(rest)?;
    let (_padding, rest) = block(24, rest)?;
    let head = RetUnlinkHead {
        seqnum,
        status: status.cast_signed(),
    };
    Ok((Down::RetUnlink(head), rest))
}
