//! The line of each message, of a bad field, and of a rest. Each is appended to the text.

ghost use Rattle.std.specs.Prelude.{◌≡◌, ◌++◌, ◌==◌, OnOk, List, ℕ, codes};
ghost use Rattle.std.specs.Fmt.{decimal, signed_decimal};
ghost use Rattle.std.specs.List.{before_first};
ghost use Rattle.event_text.specs.Printed.{device_word, dir_word, request_line, submit_line, unlink_line, count_line, interface_line, device_line, reply_line, ret_submit_line, ret_unlink_line, bad_line, more_line};
ghost use Rattle.event_text.specs.Read.{client_text, device_text};
ghost use Rattle.event_text.specs.Words.{hex_word};

use crate::text::{Part, put_parts};
use crate::words::place_of;
use tmc_base::{Field, Memory};
use usbip_wire::{
    DeviceRecord, Dir, Down, OpRequest, RetSubmitHead, RetUnlinkHead, SubmitHead, UnlinkHead, Up,
};

/// What is printed of an answer about a client's bytes.
pub(crate) fn put_client(what: &Up, carried: &[u8], text: &mut Vec<u8>) -> Result<(), Memory>
    ensures { OnOk result (text.new.items ≡ text.old.items ++ client_text what.now carried.now) }
{
    match what {
        Up::Op(request) => put_request(request, text),
        Up::Submit(head) => put_submit(head, carried, text),
        Up::Unlink(head) => put_unlink(head, text),
        Up::More => Ok(()),
        Up::Bad(field) => put_bad(*field, text),
    }
}

/// What is printed of an answer about a device's bytes.
pub(crate) fn put_device(what: &Down, carried: &[u8], text: &mut Vec<u8>) -> Result<(), Memory>
    ensures { OnOk result (text.new.items ≡ text.old.items ++ device_text what.now carried.now) }
{
    match what {
        Down::Count { status, devices } => put_count(*status, *devices, text),
        Down::Device(device) => put_record(device, text),
        Down::Interface {
            class,
            subclass,
            protocol,
        } => put_interface(*class, *subclass, *protocol, text),
        Down::Import { status, device } => put_reply(*status, device, text),
        Down::RetSubmit(head) => put_ret_submit(head, carried, text),
        Down::RetUnlink(head) => put_ret_unlink(head, text),
        Down::More => Ok(()),
        Down::Bad(field) => put_bad(*field, text),
    }
}

/// The line of what is left where no more bytes come.
pub(crate) fn put_more(count: usize, text: &mut Vec<u8>) -> Result<(), Memory>
    ensures { OnOk result (text.new.items ≡ text.old.items ++ more_line count) }
{
    put_parts(
        &[
            Part::Word("more "),
            Part::Number(count as u64),
            Part::Word("\n"),
        ],
        text,
    )
}

fn put_bad(field: Field, text: &mut Vec<u8>) -> Result<(), Memory>
    ensures { OnOk result (text.new.items ≡ text.old.items ++ bad_line field) }
{
    put_parts(
        &[Part::Word("bad "), Part::Field(field), Part::Word("\n")],
        text,
    )
}

/// A bus id: its bytes before the first zero.
fn busid_of(busid: &[u8; 32]) -> &[u8]
    ensures { result.now ≡ before_first (λ byte. byte == 0) busid.now }
{
    match place_of(busid, 0) {
        Some(end) => &busid[..end],
        None => busid,
    }
}

fn put_request(request: &OpRequest, text: &mut Vec<u8>) -> Result<(), Memory>
    ensures { OnOk result (text.new.items ≡ text.old.items ++ request_line request.now) }
{
    match request {
        OpRequest::DevList => put_parts(&[Part::Word("devlist\n")], text),
        OpRequest::Import { busid } => put_parts(
            &[
                Part::Word("import "),
                Part::Hex(busid_of(busid)),
                Part::Word("\n"),
            ],
            text,
        ),
    }
}

fn put_submit<'a>(head: &'a SubmitHead, carried: &'a [u8], text: &mut Vec<u8>) -> Result<(), Memory>
    ensures { OnOk result (text.new.items ≡ text.old.items ++ submit_line head.now carried.now) }
{
    let SubmitHead {
        seqnum,
        dir,
        ep,
        length,
        setup,
        ..
    } = head;
    put_parts(
        &[
            Part::Word("submit "),
            Part::Number(u64::from(*seqnum)),
            Part::Word(" "),
            Part::Word(dir_word(*dir)),
            Part::Word(" "),
            Part::Number(u64::from(*ep)),
            Part::Word(" "),
            Part::Number(u64::from(*length)),
            Part::Word(" "),
            Part::Digits(setup),
            Part::Word(" "),
            Part::Hex(carried),
            Part::Word("\n"),
        ],
        text,
    )
}

fn put_unlink(head: &UnlinkHead, text: &mut Vec<u8>) -> Result<(), Memory>
    ensures { OnOk result (text.new.items ≡ text.old.items ++ unlink_line head.now) }
{
    let UnlinkHead { seqnum, target, .. } = *head;
    put_parts(
        &[
            Part::Word("unlink "),
            Part::Number(u64::from(seqnum)),
            Part::Word(" "),
            Part::Number(u64::from(target)),
            Part::Word("\n"),
        ],
        text,
    )
}

fn put_count(status: u32, devices: u32, text: &mut Vec<u8>) -> Result<(), Memory>
    ensures { OnOk result (text.new.items ≡ text.old.items ++ count_line status devices) }
{
    put_parts(
        &[
            Part::Word("count "),
            Part::Number(u64::from(status)),
            Part::Word(" "),
            Part::Number(u64::from(devices)),
            Part::Word("\n"),
        ],
        text,
    )
}

fn put_record(device: &DeviceRecord, text: &mut Vec<u8>) -> Result<(), Memory>
    ensures { OnOk result (text.new.items ≡ text.old.items ++ device_line device.now) }
{
    put_parts(
        &[
            Part::Word("device "),
            Part::Hex(busid_of(&device.busid)),
            Part::Word("\n"),
        ],
        text,
    )
}

fn put_interface(class: u8, subclass: u8, protocol: u8, text: &mut Vec<u8>) -> Result<(), Memory>
    ensures { OnOk result (text.new.items ≡ text.old.items ++ interface_line class subclass protocol) }
{
    put_parts(
        &[
            Part::Word("interface "),
            Part::Number(u64::from(class)),
            Part::Word(" "),
            Part::Number(u64::from(subclass)),
            Part::Word(" "),
            Part::Number(u64::from(protocol)),
            Part::Word("\n"),
        ],
        text,
    )
}

fn put_reply(status: u32, device: &Option<DeviceRecord>, text: &mut Vec<u8>) -> Result<(), Memory>
    ensures { OnOk result (text.new.items ≡ text.old.items ++ reply_line status device.now) }
{
    let busid = match device {
        Some(device) => Part::Hex(busid_of(&device.busid)),
        None => Part::Word("-"),
    };
    put_parts(
        &[
            Part::Word("reply "),
            Part::Number(u64::from(status)),
            Part::Word(" "),
            busid,
            Part::Word("\n"),
        ],
        text,
    )
}

fn put_ret_submit(head: &RetSubmitHead, carried: &[u8], text: &mut Vec<u8>) -> Result<(), Memory>
    ensures { OnOk result (text.new.items ≡ text.old.items ++ ret_submit_line head.now carried.now) }
{
    let RetSubmitHead {
        seqnum,
        status,
        actual,
    } = *head;
    put_answered("ret_submit ", seqnum, status, text)?;
    put_parts(
        &[
            Part::Word(" "),
            Part::Number(u64::from(actual)),
            Part::Word(" "),
            Part::Hex(carried),
            Part::Word("\n"),
        ],
        text,
    )
}

/// The number and the status of an answer.
fn put_answered(name: &str, seqnum: u32, status: i32, text: &mut Vec<u8>) -> Result<(), Memory>
    ensures { OnOk result (text.new.items ≡ text.old.items ++ (name.now ++ (decimal seqnum ++ (codes " " ++ signed_decimal status)))) }
{
    put_parts(
        &[
            Part::Word(name),
            Part::Number(u64::from(seqnum)),
            Part::Word(" "),
            Part::Signed(status),
        ],
        text,
    )
}

fn put_ret_unlink(head: &RetUnlinkHead, text: &mut Vec<u8>) -> Result<(), Memory>
    ensures { OnOk result (text.new.items ≡ text.old.items ++ ret_unlink_line head.now) }
{
    let RetUnlinkHead { seqnum, status } = *head;
    put_answered("ret_unlink ", seqnum, status, text)?;
    put_parts(&[Part::Word("\n")], text)
}

fn dir_word(dir: Dir) -> &'static str
    ensures { result.now ≡ dir_word dir }
{
    match dir {
        Dir::Out => "out",
        Dir::In => "in",
    }
}
