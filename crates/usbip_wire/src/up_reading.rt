//! A client's messages at the front of some bytes.

ghost use Rattle.usbip_wire.specs.Form.{read};
ghost use Rattle.usbip_wire.specs.Given.{Gives};
ghost use Rattle.usbip_wire.specs.UpForm.{request_form, submit_form, unlink_form, urb_form, up_form};

use crate::fields::{BUFFER_LENGTH, CODE, COMMAND, DEVID, DIRECTION, ENDPOINT, PACKETS, VERSION};
use crate::op::{REQ_DEVLIST, REQ_IMPORT, USBIP_VERSION};
use crate::reading::{accept, array, be16, be32, block};
use crate::stop::Stop;
use crate::up::{Up, UpPhase};
use crate::urb::{CMD_SUBMIT, CMD_UNLINK, Dir, ENDPOINT_MAX, NOT_ISOCHRONOUS};
use crate::{OpRequest, SubmitHead, UnlinkHead};
use tmc_base::SUBMIT_MAX;

/// The message at the front, and what follows it.
pub(crate) fn read_up(phase: UpPhase, held: &[u8]) -> Result<(Up, &[u8]), Stop>
    ensures { Gives (λ x. (x.0, x.1.now)) result (read (up_form phase) held.now) }
{
    match phase {
        UpPhase::Ops => read_request(held),
        UpPhase::Urbs { devid } => read_urb(devid, held),
    }
}

fn read_request(held: &[u8]) -> Result<(Up, &[u8]), Stop>
    ensures { Gives (λ x. (x.0, x.1.now)) result (read request_form held.now) }
{
    let (version, rest) = be16(held)?;
    accept(version == USBIP_VERSION, VERSION)?;
    let (code, rest) = be16(rest)?;
    accept(code == REQ_DEVLIST || code == REQ_IMPORT, CODE)?;
    let (_status, rest) = be32(rest)?;
    if code == REQ_IMPORT {
        let (busid, rest) = array::<32>(rest)?;
        Ok((Up::Op(OpRequest::Import { busid }), rest))
    } else {
        Ok((Up::Op(OpRequest::DevList), rest))
    }
}

fn read_urb(devid: u32, held: &[u8]) -> Result<(Up, &[u8]), Stop>
    ensures { Gives (λ x. (x.0, x.1.now)) result (read (urb_form devid) held.now) }
{
    let (command, rest) = be32(held)?;
    accept(command == CMD_SUBMIT || command == CMD_UNLINK, COMMAND)?;
    let (seqnum, rest) = be32(rest)?;
    let (number, rest) = be32(rest)?;
    accept(number == devid, DEVID)?;
    if command == CMD_UNLINK {
        read_unlink(seqnum, number, rest)
    } else {
        read_submit(seqnum, number, rest)
    }
}

#[tactic(auto, unfolding(crate::specs::UpForm::unlink_form))]
fn read_unlink(seqnum: u32, devid: u32, rest: &[u8]) -> Result<(Up, &[u8]), Stop>
    ensures { Gives (λ x. (x.0, x.1.now)) result (read (unlink_form seqnum devid) rest.now) }
{
    let (_direction, rest) = be32(rest)?;
    let (_ep, rest) = be32(rest)?;
    let (target, rest) = be32(rest)?;
    let (_padding, rest) = block(24, rest)?;
    let head = UnlinkHead {
        seqnum,
        devid,
        target,
    };
    Ok((Up::Unlink(head), rest))
}

#[tactic(auto, unfolding(crate::specs::UpForm::submit_form))]
fn read_submit(seqnum: u32, devid: u32, rest: &[u8]) -> Result<(Up, &[u8]), Stop>
    ensures { Gives (λ x. (x.0, x.1.now)) result (read (submit_form seqnum devid) rest.now) }
{
    let (direction, rest) = be32(rest)?;
    accept(direction < 2, DIRECTION)?;
    let (ep, rest) = be32(rest)?;
    accept(ep <= ENDPOINT_MAX, ENDPOINT)?;
    let (_transfer_flags, rest) = be32(rest)?;
    let (length, rest) = be32(rest)?;
    accept(length <= SUBMIT_MAX, BUFFER_LENGTH)?;
    let (_start_frame, rest) = be32(rest)?;
    let (packets, rest) = be32(rest)?;
    accept(packets == NOT_ISOCHRONOUS || packets == 0, PACKETS)?;
    let (_interval, rest) = be32(rest)?;
    let (setup, rest) = array::<8>(rest)?;
    let dir = Dir::of_code(direction);
    let (_data, rest) = block(dir.carried(length), rest)?;
    let head = SubmitHead {
        seqnum,
        devid,
        dir,
        ep,
        length,
        setup,
    };
    Ok((Up::Submit(head), rest))
}
